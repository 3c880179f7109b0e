ghost use Rattle.std.specs.Prelude.{◌≡◌};
ghost use Rattle.stable_store.specs.declared.store_fault.StoreFault.TheVariants.{Memory};
ghost use Rattle.stable_store.specs.Faults.{fault_number};

use std::alloc::AllocError;
use thiserror::Error;

/// Why a store can't be used.
#[derive(Clone, Copy, Debug, Drop, PartialEq, Eq, Error)]
pub enum StoreFault {
    #[error("the device failed")]
    Device,
    #[error("this is no store")]
    NotAStore,
    #[error("the store is of another version")]
    Version,
    /// There is no valid record at this place, from 0.
    #[error("the store is damaged at byte {0}")]
    Damaged(u64),
    #[error("out of memory")]
    Memory,
}

impl StoreFault {
    /// Its number, from 1 to 5 in the order above.
    pub fn number(self) -> u8
        ensures { result ≡ fault_number self }
    {
        match self {
            StoreFault::Device => 1,
            StoreFault::NotAStore => 2,
            StoreFault::Version => 3,
            StoreFault::Damaged(_) => 4,
            StoreFault::Memory => 5,
        }
    }
}

impl From<AllocError> for StoreFault {
    ghost from_gives = { λ _ e. e ≡ Memory };

    fn from(_error: AllocError) -> Self {
        StoreFault::Memory
    }
}
