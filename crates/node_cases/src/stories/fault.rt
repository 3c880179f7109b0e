//! Why a step of a story is not taken.
use irc_line::LineFault;
use std::alloc::AllocError;

/// Why a step of a story is not taken.
#[derive(Clone, Copy, Debug, Drop, PartialEq, Eq)]
pub enum Fault {
    /// There was no memory.
    Memory,
    /// The line says no step.
    NoStep,
    /// What is told cannot be done.
    Failed,
}

impl From<AllocError> for Fault {
    fn from(_error: AllocError) -> Fault {
        Fault::Memory
    }
}

impl From<LineFault> for Fault {
    fn from(fault: LineFault) -> Fault {
        match fault {
            LineFault::Memory => Fault::Memory,
            _ => Fault::NoStep,
        }
    }
}
