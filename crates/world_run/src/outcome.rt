//! What comes out of an event, and why a world could not be run.
use node_steps::Refusal;
use std::alloc::AllocError;
use thiserror::Error;
use wire_bytes::Number;

/// What comes out of an event.
#[derive(Drop)]
pub enum Outcome<E, P> {
    Quiet,
    /// This place was applied, and these of its effects leave, in order.
    Left { place: Number, effects: Vec<E> },
    /// What was applied up to this place is played.
    Looked { place: Number, lines: Vec<P> },
    /// The node is unchanged.
    Refused(Refusal),
    /// There is no such node or message.
    Missing,
}

/// Why a world could not be run.
#[derive(Clone, Copy, Debug, Drop, PartialEq, Eq, Error)]
pub enum WorldFault {
    #[error("a group has 3, 5 or 7 nodes, not {0}")]
    Refused(u8),
    #[error("out of memory")]
    Memory,
}

impl From<AllocError> for WorldFault {
    ghost use Rattle.std.specs.Prelude.{◌≡◌};
    ghost use Rattle.world_run.specs.declared.outcome.WorldFault.TheVariants.{Memory};

    ghost from_gives = { λ _ e. e ≡ Memory };

    fn from(_: AllocError) -> Self {
        WorldFault::Memory
    }
}
