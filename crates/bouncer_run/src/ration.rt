//! News that are logged only as often as somebody would read them.
ghost use Rattle.std.specs.Prelude.{◌≡◌};
ghost use Rattle.bouncer_run.specs.Rations.{may_tell, new_ration, taken};

/// This much of one kind is logged in a minute.
// a client that connects again and again would fill the disk that the log is on
const MOST_TOLD: u64 = 10;

/// In milliseconds.
const MINUTE: u64 = 60_000;

/// How much of one kind of news was logged in a minute.
#[derive(Clone, Copy)]
pub struct Ration {
    /// When the minute began.
    since: u64,
    told: u64,
}

impl Ration {
    /// Nothing was logged.
    pub fn new() -> Ration
        ensures { result ≡ new_ration }
    {
        Ration { since: 0, told: 0 }
    }

    /// One more of them happened. Returns whether it is logged.
    pub fn take(&mut self, ms: u64) -> bool
        ensures told { result ≡ may_tell ms self.old }
        ensures left { self.new ≡ taken ms self.old }
    {
        if ms.saturating_sub(self.since) >= MINUTE {
            self.since = ms;
            self.told = 0;
        }
        if self.told >= MOST_TOLD {
            return false;
        }
        self.told += 1;
        true
    }
}
