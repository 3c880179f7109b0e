//! Why a fold gives no output.
use std::alloc::AllocError;
use thiserror::Error;
use whole_input::ReadFault;

/// Why a fold gives no output. Lines are counted from 1.
#[derive(Clone, Copy, Debug, Drop, PartialEq, Eq, Error)]
pub enum FoldFault {
    /// The input has more than 67,108,864 bytes.
    #[error("InputTooLong")]
    InputTooLong,
    /// The input could not be read, or not within 100,000,000 reads.
    #[error("Read")]
    Read,
    /// A line is not an even number of lower-case hex digits.
    #[error("line {0}: BadHex")]
    BadHex(u64),
    /// A line's bytes are not exactly one body.
    #[error("line {0}: BadBody")]
    BadBody(u64),
    /// The output could not be written; some of it may have been.
    #[error("Write")]
    Write,
    /// Memory ran out.
    #[error("Memory")]
    Memory,
}

impl From<ReadFault> for FoldFault {
    ghost use Rattle.std.specs.Prelude.{◌≡◌};
    ghost use Rattle.fold_app.specs.Faults.{fold_fault};

    ghost from_gives = { λ fault e. e ≡ fold_fault fault };

    fn from(fault: ReadFault) -> Self {
        match fault {
            ReadFault::InputTooLong => FoldFault::InputTooLong,
            ReadFault::Read => FoldFault::Read,
            ReadFault::Memory => FoldFault::Memory,
        }
    }
}

impl From<AllocError> for FoldFault {
    ghost use Rattle.std.specs.Prelude.{◌≡◌};
    ghost use Rattle.fold_app.specs.declared.fault.FoldFault.TheVariants.{Memory};

    ghost from_gives = { λ _ e. e ≡ Memory };

    fn from(_error: AllocError) -> Self {
        FoldFault::Memory
    }
}
