//! How long ago something was.
ghost use Rattle.std.specs.Prelude.{◌≡◌, ◌-◌, nat_le};

/// Remembers a moment of a millisecond clock.
#[derive(Clone, Copy, Debug, Drop, PartialEq, Eq)]
pub struct Timer {
    /// When it was.
    pub since: u64,
}

impl Timer {
    /// It was at this moment.
    pub fn from(now: u64) -> Timer
        ensures { result.since ≡ now }
    {
        Timer { since: now }
    }

    /// Whether it was at least this many milliseconds ago. At an earlier moment nothing has passed.
    pub fn has_passed(&self, wait: u64, now: u64) -> bool
        ensures { result ≡ nat_le wait (now - self.now.since) }
    {
        now.saturating_sub(self.since) >= wait
    }
}
