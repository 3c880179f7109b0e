use std::alloc::AllocError;
use thiserror::Error;

/// Why a record file is not replayed. Lines are counted from 1, over the whole file.
#[derive(Clone, Copy, Debug, Drop, PartialEq, Eq, Error)]
pub enum ReplayFault {
    /// The first line begins with neither `RBREC01 ` nor `RBREC02 `.
    #[error("Version")]
    Version,
    /// The first line that is not what it has to be; if the file ends before the line `outputs`, the number after the
    /// last line.
    #[error("line {0}: BadEvent")]
    BadLine(u64),
    /// The file has more than 67,108,864 bytes.
    #[error("InputTooLong")]
    TooLong,
    /// Memory ran out.
    #[error("Memory")]
    Memory,
}

impl From<AllocError> for ReplayFault {
    ghost use Rattle.std.specs.Prelude.{◌≡◌};
    ghost use Rattle.records.specs.declared.replay_fault.ReplayFault.TheVariants.{Memory};

    ghost from_gives = { λ _ e. e ≡ Memory };

    fn from(_error: AllocError) -> Self {
        ReplayFault::Memory
    }
}
