use std::alloc::AllocError;
use thiserror::Error;

/// Why a content is no line.
#[derive(Clone, Copy, Debug, PartialEq, Eq, Error)]
pub enum LineFault {
    /// The content, or its canonical spelling, has more than 511 bytes.
    #[error("a line has more than 511 bytes")]
    TooLong,
    /// The place, from 0, of the first NUL, CR or LF.
    #[error("a byte that no line may hold stands at {0}")]
    BadByte(usize),
    #[error("a line has no command")]
    NoCommand,
    #[error("a line has more than 15 parameters")]
    TooManyParameters,
    #[error("out of memory")]
    Memory,
}

impl From<AllocError> for LineFault {
    ghost use Rattle.std.specs.Prelude.{◌≡◌};
    ghost use Rattle.irc_line.specs.declared.fault.LineFault.TheVariants.{Memory};

    ghost from_gives = { λ _ e. e ≡ Memory };

    fn from(_error: AllocError) -> Self {
        LineFault::Memory
    }
}
