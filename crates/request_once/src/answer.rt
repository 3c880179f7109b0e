//! What a body brings about.
ghost use Rattle.std.specs.Prelude.{◌≡◌, IfOk};

use std::alloc::{AllocError, Global};
use wire_bytes::{Copied, Mark, Origin};

/// What a body brings about.
#[derive(Drop)]
pub enum Answer<E> {
    /// An effect of the machine below.
    Effect(E),
    /// The origin's request of this number took effect now.
    Done(Origin, u64),
    /// The request took effect before; this is the number of the origin's last request that did.
    Repeat(Origin, u64),
    /// The request came too early; this is the number that is to come next.
    Gap(Origin, u64),
    /// This mark came.
    Marked(Mark),
}

impl<E: Copied> Copied for Answer<E> {
    fn copy(&self, alloc: Global) -> Result<Self, AllocError> {
        match self {
            Answer::Effect(effect) => Ok(Answer::Effect(effect.copy(alloc)?)),
            Answer::Done(origin, number) => Ok(Answer::Done(*origin, *number)),
            Answer::Repeat(origin, number) => Ok(Answer::Repeat(*origin, *number)),
            Answer::Gap(origin, number) => Ok(Answer::Gap(*origin, *number)),
            Answer::Marked(mark) => Ok(Answer::Marked(*mark)),
        }
    }
}
