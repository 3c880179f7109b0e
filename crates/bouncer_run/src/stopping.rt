//! The end of the loop, which waits for clients that are still written to.
ghost use Rattle.std.specs.Prelude.{◌≡◌, None, is_none};
ghost use Rattle.bouncer_run.specs.Stopping.{begun, is_over};

/// How long clients may stay after the input ended, in milliseconds: as long as a node may take to
/// let one go, and far less than whoever ended the input waits before killing the bouncer (systemd
/// 90 s).
const LONGEST_STOP: u64 = 5_000;

/// Whether the bouncer ends.
#[derive(Clone, Copy)]
pub struct Stopping {
    /// The last moment until which clients may stay, in milliseconds, once it ends.
    until: Option<u64>,
}

impl Stopping {
    /// It goes on.
    pub fn no() -> Stopping
        ensures { result.until ≡ None }
    {
        Stopping { until: None }
    }

    /// It is to end, as of this moment. Returns whether it went on until now: if it was to end
    /// before, it stays as it is.
    pub fn begin(&mut self, ms: u64) -> bool
        ensures until { self.new.until ≡ begun ms self.old.until }
        ensures first { result ≡ is_none self.old.until }
    {
        if self.until.is_some() {
            return false;
        }
        self.until = Some(ms.saturating_add(LONGEST_STOP));
        true
    }

    /// Whether it is over at this moment: no client is left, or they may stay no longer.
    pub fn is_over(&self, ms: u64, is_empty: bool) -> bool
        ensures { result ≡ is_over self.now.until ms is_empty }
    {
        match self.until {
            Some(until) => is_empty || until <= ms,
            None => false,
        }
    }
}
