ghost use Rattle.std.specs.Prelude.{◌≡◌};
ghost use Rattle.wire_bytes.specs.declared.wire_fault.WireFault.TheVariants.{Memory};

use std::alloc::{AllocError, AllocFailed};
use thiserror::Error;

/// Why no value was read at the front of an input.
#[derive(Clone, Copy, Debug, Drop, PartialEq, Eq, Error)]
pub enum WireFault {
    /// The input ends before a field is whole.
    #[error("the input ends within a field")]
    Short,
    /// The field whose first byte is at this place, from 0, may not have these bytes.
    #[error("the field at byte {0} is refused")]
    Bad(usize),
    #[error("out of memory")]
    Memory,
}

impl From<AllocError> for WireFault {
    ghost from_gives = { λ _ e. e ≡ Memory };

    fn from(_error: AllocError) -> Self {
        WireFault::Memory
    }
}

impl<T: Drop> From<AllocFailed<T>> for WireFault {
    ghost from_gives = { λ _ e. e ≡ Memory };

    fn from(_error: AllocFailed<T>) -> Self {
        WireFault::Memory
    }
}
