//! Why a step could not be prepared.
use crate::refusal::Refusal;
use std::alloc::AllocError;

/// Why a step could not be prepared. Nothing has changed.
#[derive(Clone, Copy, Debug, Drop, PartialEq, Eq)]
pub enum Unprepared {
    Memory,
    Refused(Refusal),
}

impl From<AllocError> for Unprepared {
    ghost use Rattle.std.specs.Prelude.{◌≡◌};
    ghost use Rattle.node_steps.specs.declared.unprepared.Unprepared.TheVariants.{Memory};

    ghost from_gives = { λ _ e. e ≡ Memory };

    fn from(_: AllocError) -> Self {
        Unprepared::Memory
    }
}
