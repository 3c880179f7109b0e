//! What a command brings about where lines for upstream are claimed.
ghost use Rattle.std.specs.Prelude.{◌≡◌, IfOk};

use irc_line::Line;
use std::alloc::{AllocError, Global};
use wire_bytes::{Copied, Origin, SessionId};

/// What a command brings about.
#[derive(Drop)]
pub enum ClaimsEffect<E> {
    /// An effect of the machine below.
    Inner(E),
    /// The client's line was not numbered, since too many lines wait to be claimed, and it does not go upstream.
    Busy(Origin),
    /// The session sends the line of this number upstream.
    Hand(SessionId, u64, Line),
}

impl<E: Copied> Copied for ClaimsEffect<E> {
    fn copy(&self, alloc: Global) -> Result<Self, AllocError> {
        match self {
            ClaimsEffect::Inner(effect) => Ok(ClaimsEffect::Inner(effect.copy(alloc)?)),
            ClaimsEffect::Busy(origin) => Ok(ClaimsEffect::Busy(*origin)),
            ClaimsEffect::Hand(id, number, line) => {
                Ok(ClaimsEffect::Hand(*id, *number, line.copy(alloc)?))
            }
        }
    }
}
