use std::alloc::AllocError;
use thiserror::Error;

/// Why a text gives no events.
#[derive(Clone, Copy, Debug, Drop, PartialEq, Eq, Error)]
pub enum EventsFault {
    /// The line of this number, from 1, is the first that is no event; neither is a last line
    /// without its end.
    #[error("BadLine({0})")]
    BadLine(u64),
    /// There was no memory.
    #[error("Memory")]
    Memory,
}

impl From<AllocError> for EventsFault {
    ghost use Rattle.std.specs.Prelude.{◌≡◌};
    ghost use Rattle.recorder.specs.declared.events_fault.EventsFault.TheVariants.{Memory};

    ghost from_gives = { λ _ e. e ≡ Memory };

    fn from(_error: AllocError) -> Self {
        EventsFault::Memory
    }
}
