ghost use Rattle.std.specs.Prelude.{◌≡◌};
ghost use Rattle.journal_store.specs.declared.disk_fault.DiskFault.TheVariants.{Memory};
ghost use Rattle.journal_store.specs.Causes.{store_fault};

use stable_store::StoreFault;
use std::alloc::AllocError;
use thiserror::Error;

/// Why a call of a disk failed.
#[derive(Clone, Copy, Debug, Drop, PartialEq, Eq, Error)]
pub enum DiskFault {
    #[error("the device failed")]
    Device,
    #[error("out of memory")]
    Memory,
}

impl From<AllocError> for DiskFault {
    ghost from_gives = { λ _ e. e ≡ Memory };

    fn from(_error: AllocError) -> Self {
        DiskFault::Memory
    }
}

impl From<DiskFault> for StoreFault {
    ghost from_gives = { λ fault e. e ≡ store_fault fault };

    fn from(fault: DiskFault) -> Self {
        match fault {
            DiskFault::Device => StoreFault::Device,
            DiskFault::Memory => StoreFault::Memory,
        }
    }
}
