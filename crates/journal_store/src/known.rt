//! What a store knows to be on its disk.
ghost use Rattle.std.specs.Prelude.{◌≡◌};
ghost use Rattle.journal_store.specs.Serving.{after_error, is_broken};

/// What of a journal is known to be on the disk. A sync that fails may drop what was written, and a later one that
/// returns Ok does not bring that back, so what is not known is written again before a sync is believed.
#[derive(Clone, Copy, Debug, Drop, PartialEq, Eq)]
pub enum Known {
    /// All of it.
    All,
    /// All up to the closed gate, but not what follows it.
    ToGate,
    /// All except the gate, which may be open or closed.
    ButGate,
}

impl Known {
    /// Whether there was an error that nothing has mended.
    pub fn is_broken(self) -> bool
        ensures { result ≡ is_broken self }
    {
        match self {
            Known::All => false,
            Known::ToGate | Known::ButGate => true,
        }
    }

    /// What is known after an error of a call that wrote nothing else.
    pub fn after_error(self) -> Known
        ensures { result ≡ after_error self }
    {
        match self {
            Known::All | Known::ToGate => Known::ToGate,
            Known::ButGate => Known::ButGate,
        }
    }
}
