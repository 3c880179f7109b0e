//! Why an input is not read whole.
use std::alloc::AllocError;
use thiserror::Error;

/// Why an input is not read whole.
#[derive(Clone, Copy, Debug, Drop, PartialEq, Eq, Error)]
pub enum ReadFault {
    /// It has more than 67,108,864 bytes.
    #[error("InputTooLong")]
    InputTooLong,
    /// It could not be read, or not within 100,000,000 reads.
    #[error("Read")]
    Read,
    /// Memory ran out.
    #[error("Memory")]
    Memory,
}

impl From<AllocError> for ReadFault {
    ghost use Rattle.std.specs.Prelude.{◌≡◌};
    ghost use Rattle.whole_input.specs.declared.read_fault.ReadFault.TheVariants.{Memory};

    ghost from_gives = { λ _ e. e ≡ Memory };

    fn from(_error: AllocError) -> Self {
        ReadFault::Memory
    }
}
