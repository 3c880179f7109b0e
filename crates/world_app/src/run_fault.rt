//! Why a list of events is not run.
use recorder::EventsFault;
use std::alloc::AllocError;
use thiserror::Error;
use whole_input::ReadFault;

/// Why a list of events is not run. Lines are counted from 1.
#[derive(Clone, Copy, Debug, Drop, PartialEq, Eq, Error)]
pub enum RunFault {
    /// A group has 3, 5 or 7 nodes.
    #[error("Refused {0}")]
    Refused(u32),
    /// The input has more than 67,108,864 bytes.
    #[error("InputTooLong")]
    InputTooLong,
    /// The input could not be read, or not within 100,000,000 reads.
    #[error("Read")]
    Read,
    /// The first line that is no event.
    #[error("line {0}: BadEvent")]
    BadEvent(u64),
    /// The output could not be written; some of it may have been.
    #[error("Write")]
    Write,
    /// Memory ran out.
    #[error("Memory")]
    Memory,
}

impl From<ReadFault> for RunFault {
    ghost use Rattle.std.specs.Prelude.{◌≡◌};
    ghost use Rattle.world_app.specs.Worlds.{run_fault};

    ghost from_gives = { λ fault e. e ≡ run_fault fault };

    fn from(fault: ReadFault) -> Self {
        match fault {
            ReadFault::InputTooLong => RunFault::InputTooLong,
            ReadFault::Read => RunFault::Read,
            ReadFault::Memory => RunFault::Memory,
        }
    }
}

impl From<EventsFault> for RunFault {
    ghost use Rattle.std.specs.Prelude.{◌≡◌};
    ghost use Rattle.world_app.specs.Worlds.{events_fault};

    ghost from_gives = { λ fault e. e ≡ events_fault fault };

    fn from(fault: EventsFault) -> Self {
        match fault {
            EventsFault::BadLine(line) => RunFault::BadEvent(line),
            EventsFault::Memory => RunFault::Memory,
        }
    }
}

impl From<AllocError> for RunFault {
    ghost use Rattle.std.specs.Prelude.{◌≡◌};
    ghost use Rattle.world_app.specs.declared.run_fault.RunFault.TheVariants.{Memory};

    ghost from_gives = { λ _ e. e ≡ Memory };

    fn from(_error: AllocError) -> Self {
        RunFault::Memory
    }
}
