//! Why a bouncer does not run, or ended early.
ghost use Rattle.std.specs.Prelude.{◌≡◌, if◌then◌else◌};
ghost use Rattle.std.specs.IoError.{error_kind};
ghost use Rattle.bouncer_run.specs.Faults.{IsFaultOfError, IsOrMemory, fault_of_loop};
ghost use Rattle.bouncer_run.specs.declared.run_fault.RunFault.TheVariants.{Memory, Store};

use crate::event_loop::LoopFault;
use std::alloc::AllocError;
use std::io;
use std::io::ErrorKind;
use thiserror::Error;
use whole_input::ReadFault;

/// Why a bouncer does not run, or ended early.
#[derive(Clone, Copy, Debug, Drop, PartialEq, Eq, Error)]
pub enum RunFault {
    /// The configuration could not be read.
    #[error("Read")]
    Read,
    /// The configuration has more than 67,108,864 bytes.
    #[error("InputTooLong")]
    InputTooLong,
    /// The configuration is not one.
    #[error("Config")]
    Config,
    /// The folder of the journals can't be made, a journal can't be made or adopted, a node does
    /// not start over it, or the journals are no longer at their paths.
    #[error("Store")]
    Store,
    /// A node can't listen at its address, or the sockets can't be waited for.
    #[error("Socket")]
    Socket,
    /// The record could not be written; some of it may have been.
    #[error("Write")]
    Write,
    #[error("Memory")]
    Memory,
}

impl RunFault {
    /// What an error of the system is: out of memory, if it is that, and else this fault.
    pub fn of_error(error: &io::Error, otherwise: RunFault) -> RunFault
        ensures kind { IsFaultOfError (error_kind error.now) otherwise result }
        ensures either { IsOrMemory otherwise result }
    {
        if error.kind() == ErrorKind::OutOfMemory {
            RunFault::Memory
        } else {
            otherwise
        }
    }

    /// What it means to the program that a folder of journals is not as it must be: out of memory,
    /// if it is that, and else the store.
    pub fn of_store(is_memory: bool) -> RunFault
        ensures kind { result ≡ (if is_memory then Memory else Store) }
        ensures either { IsOrMemory Store result }
    {
        if is_memory {
            RunFault::Memory
        } else {
            RunFault::Store
        }
    }

    /// What it means to the program that the loop ended early.
    pub fn of_loop(fault: LoopFault) -> RunFault
        ensures { result ≡ fault_of_loop fault }
    {
        match fault {
            LoopFault::Store => RunFault::Store,
            LoopFault::Socket => RunFault::Socket,
            LoopFault::Memory => RunFault::Memory,
        }
    }
}

impl From<AllocError> for RunFault {
    ghost use Rattle.std.specs.Prelude.{◌≡◌};
    ghost use Rattle.bouncer_run.specs.declared.run_fault.RunFault.TheVariants.{Memory};

    ghost from_gives = { λ _ e. e ≡ Memory };

    fn from(_: AllocError) -> Self {
        RunFault::Memory
    }
}

impl From<ReadFault> for RunFault {
    ghost use Rattle.std.specs.Prelude.{◌≡◌};
    ghost use Rattle.bouncer_run.specs.Faults.{fault_of_reading};

    ghost from_gives = { λ fault e. e ≡ fault_of_reading fault };

    fn from(fault: ReadFault) -> Self {
        match fault {
            ReadFault::InputTooLong => RunFault::InputTooLong,
            ReadFault::Read => RunFault::Read,
            ReadFault::Memory => RunFault::Memory,
        }
    }
}
