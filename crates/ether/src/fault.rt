//! Why a call of an ether does nothing.
use std::alloc::AllocError;
use thiserror::Error;

/// Why a call of an ether does nothing.
#[derive(Clone, Copy, Debug, Drop, PartialEq, Eq, Error)]
pub enum EtherFault {
    #[error("out of memory")]
    Memory,
    /// The pass has made 2^60 ticks.
    #[error("the pass has made 2^60 ticks")]
    Spent,
}

impl From<AllocError> for EtherFault {
    ghost use Rattle.std.specs.Prelude.{◌≡◌};
    ghost use Rattle.ether.specs.declared.fault.EtherFault.TheVariants.{Memory};

    ghost from_gives = { λ _ e. e ≡ Memory };

    fn from(_: AllocError) -> Self {
        EtherFault::Memory
    }
}
