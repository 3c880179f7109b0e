//! Why a file has no setup.
ghost use Rattle.std.specs.Prelude.{◌≡◌};
ghost use Rattle.store_setup.specs.declared.fault.SetupFileFault.TheVariants.{Memory};

use std::alloc::AllocError;
use thiserror::Error;

/// Why a file has no setup of a store, and what to do.
#[derive(Clone, Copy, Debug, Drop, PartialEq, Eq, Error)]
pub enum SetupFileFault {
    #[error("this is no setup of a store: move it away, and start with the configuration that the store was used with last")]
    NotASetup,
    #[error("the setup of the store is of another version: use the program that wrote it")]
    Version,
    #[error("the setup of the store is damaged: move it away, and start with the configuration that the store was used with last")]
    Damaged,
    #[error("out of memory")]
    Memory,
}

impl From<AllocError> for SetupFileFault {
    ghost from_gives = { λ _ e. e ≡ Memory };

    fn from(_error: AllocError) -> Self {
        SetupFileFault::Memory
    }
}
