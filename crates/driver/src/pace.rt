//! How often lines may go out.
ghost use Rattle.std.specs.Prelude.{◌≡◌};
ghost use Rattle.driver.specs.Pacing.{free_after, may_go};

/// The latest moment: some 292 million years.
const LAST: u64 = 1 << 63;

/// A burst of lines may go at once, and then one line in each interval. In any stretch of time no
/// more go than the burst and one for each interval in it.
#[derive(Clone, Copy, Debug, Drop, PartialEq, Eq)]
pub struct Pace {
    /// How many lines may go at once; 0 counts as 1.
    pub burst: u16,
    /// How many milliseconds a line takes; 0 means no limit.
    pub line_ms: u16,
    /// When the full burst is available again.
    pub free_at: u64,
}

impl Pace {
    /// No line has gone.
    pub fn new(burst: u16, line_ms: u16) -> Pace
        ensures burst { result.burst ≡ burst }
        ensures line_ms { result.line_ms ≡ line_ms }
        ensures free_at { result.free_at ≡ 0 }
    {
        Pace {
            burst,
            line_ms,
            free_at: 0,
        }
    }

    /// Whether a line may go at this moment.
    pub fn may_go(&self, now: u64) -> bool
        ensures { result ≡ may_go self.now.burst self.now.line_ms self.now.free_at now }
    {
        let waits = self.burst.saturating_sub(1) as u64 * self.line_ms as u64;
        now < LAST && self.free_at <= now + waits
    }

    /// Lets a line go at this moment, if it may. Returns whether it does.
    pub fn go(&mut self, now: u64) -> bool
        ensures gone { result ≡ may_go self.old.burst self.old.line_ms self.old.free_at now }
        ensures burst { self.new.burst ≡ self.old.burst }
        ensures line_ms { self.new.line_ms ≡ self.old.line_ms }
        ensures free_at { self.new.free_at
            ≡ free_after self.old.burst self.old.line_ms self.old.free_at now }
    {
        if !self.may_go(now) {
            return false;
        }
        self.free_at = self.free_at.max(now) + self.line_ms as u64;
        true
    }
}
