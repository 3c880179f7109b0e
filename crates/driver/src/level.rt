//! How full a log is.
ghost use Rattle.std.specs.Prelude.{◌≡◌};
ghost use Rattle.driver.specs.Filling.{is_full, level_of, rank, words_of};

/// The last 1,000 of a log's entries are reserved for blank entries, for sessions that end, and for clients that
/// attach: so a bouncer with a full log still starts, joins, and plays all that it kept.
pub const FULL: u64 = 999_000;

/// An operator who learns it now has days left at the rate of a busy bouncer.
const NEARLY_FULL: u64 = 950_000;

/// An operator who learns it now has weeks left.
const FILLING: u64 = 800_000;

/// How full a log is, of the 1,000,000 entries that it takes.
#[derive(Clone, Copy, Debug, PartialEq, Eq)]
pub enum Level {
    Roomy,
    /// 800,000 entries.
    Filling,
    /// 950,000 entries.
    NearlyFull,
    /// 999,000 entries.
    Full,
}

impl Level {
    /// The level of a log with this many entries.
    pub fn of(last: u64) -> Level
        ensures { result ≡ level_of last }
    {
        if last >= FULL {
            Level::Full
        } else if last >= NEARLY_FULL {
            Level::NearlyFull
        } else if last >= FILLING {
            Level::Filling
        } else {
            Level::Roomy
        }
    }

    /// Its place among the levels, from 0 on.
    pub fn rank(self) -> u8
        ensures { result ≡ rank self }
    {
        match self {
            Level::Roomy => 0,
            Level::Filling => 1,
            Level::NearlyFull => 2,
            Level::Full => 3,
        }
    }

    /// Whether nothing new is taken.
    pub fn is_full(self) -> bool
        ensures { result ≡ is_full self }
    {
        match self {
            Level::Full => true,
            Level::Roomy | Level::Filling | Level::NearlyFull => false,
        }
    }

    /// What clients are sent about it.
    pub fn words(self) -> &'static [u8]
        ensures { result.now ≡ words_of self }
    {
        match self {
            Level::Roomy => b"The log has room.",
            Level::Filling => b"The log is 80 percent full.",
            Level::NearlyFull => b"The log is 95 percent full.",
            Level::Full => b"The log is full: nothing new is taken.",
        }
    }
}
