//! Why a run has no text.
use std::alloc::AllocError;
use thiserror::Error;

/// Why a run has no text.
#[derive(Clone, Copy, Debug, Drop, PartialEq, Eq, Error)]
pub enum TextFault {
    #[error("out of memory")]
    Memory,
    /// A node's record has a message that no node sent.
    #[error("a message came that no node sent")]
    Stranger,
}

impl From<AllocError> for TextFault {
    ghost use Rattle.std.specs.Prelude.{◌≡◌};
    ghost use Rattle.records.specs.declared.text_fault.TextFault.TheVariants.{Memory};

    ghost from_gives = { λ _ e. e ≡ Memory };

    fn from(_: AllocError) -> Self {
        TextFault::Memory
    }
}
