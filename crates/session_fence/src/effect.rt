//! What a command brings about where sessions follow one another.
ghost use Rattle.std.specs.Prelude.{◌≡◌, IfOk};

use irc_line::Line;
use std::alloc::{AllocError, Global};
use wire_bytes::{Copied, SessionId};

/// What a command brings about.
#[derive(Drop)]
pub enum FenceEffect<E> {
    /// An effect of the machine below.
    Inner(E),
    /// The session that was opened sends this line upstream; it joins a channel again.
    Rejoin(SessionId, Line),
}

impl<E: Copied> Copied for FenceEffect<E> {
    fn copy(&self, alloc: Global) -> Result<Self, AllocError> {
        match self {
            FenceEffect::Inner(effect) => Ok(FenceEffect::Inner(effect.copy(alloc)?)),
            FenceEffect::Rejoin(id, line) => Ok(FenceEffect::Rejoin(*id, line.copy(alloc)?)),
        }
    }
}
