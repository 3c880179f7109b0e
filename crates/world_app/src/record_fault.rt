//! Why the program does not replay a record.
use records::ReplayFault;
use std::alloc::AllocError;
use thiserror::Error;
use whole_input::ReadFault;

/// Why the program does not replay a record.
#[derive(Clone, Copy, Debug, Drop, PartialEq, Eq, Error)]
pub enum RecordFault {
    /// The record could not be read, or not within 100,000,000 reads.
    #[error("Read")]
    Read,
    #[error("{0}")]
    Replay(ReplayFault),
    /// The verdict could not be written; some of it may have been.
    #[error("Write")]
    Write,
}

impl From<ReadFault> for RecordFault {
    ghost use Rattle.std.specs.Prelude.{◌≡◌};
    ghost use Rattle.world_app.specs.Replays.{record_fault};

    ghost from_gives = { λ fault e. e ≡ record_fault fault };

    fn from(fault: ReadFault) -> Self {
        match fault {
            ReadFault::InputTooLong => RecordFault::Replay(ReplayFault::TooLong),
            ReadFault::Read => RecordFault::Read,
            ReadFault::Memory => RecordFault::Replay(ReplayFault::Memory),
        }
    }
}

impl From<ReplayFault> for RecordFault {
    ghost use Rattle.std.specs.Prelude.{◌≡◌};
    ghost use Rattle.world_app.specs.declared.record_fault.RecordFault.TheVariants.{Replay};

    ghost from_gives = { λ fault e. e ≡ Replay fault };

    fn from(fault: ReplayFault) -> Self {
        RecordFault::Replay(fault)
    }
}

impl From<AllocError> for RecordFault {
    ghost use Rattle.std.specs.Prelude.{◌≡◌};
    ghost use Rattle.records.specs.declared.replay_fault.ReplayFault.TheVariants.{Memory};
    ghost use Rattle.world_app.specs.declared.record_fault.RecordFault.TheVariants.{Replay};

    ghost from_gives = { λ _ e. e ≡ Replay Memory };

    fn from(_error: AllocError) -> Self {
        RecordFault::Replay(ReplayFault::Memory)
    }
}
