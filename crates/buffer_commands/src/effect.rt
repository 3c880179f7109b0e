use buffer_lines::Shown;
use irc_line::Line;
use std::alloc::{AllocError, Global};
use wire_bytes::{Copied, Origin};

/// What a command brings about.
#[derive(Drop)]
pub enum Effect {
    /// The client's connection is closed.
    Close(Origin),
    /// The client is shown a line.
    Show(Origin, Shown),
    /// A line goes upstream that the client asked for.
    Send(Origin, Line),
    /// A line goes upstream that joins a channel again.
    Rejoin(Line),
}

impl Copied for Effect {
    fn copy(&self, alloc: Global) -> Result<Self, AllocError> {
        match self {
            Effect::Close(origin) => Ok(Effect::Close(*origin)),
            Effect::Show(origin, shown) => Ok(Effect::Show(*origin, shown.copy(alloc)?)),
            Effect::Send(origin, line) => Ok(Effect::Send(*origin, line.copy(alloc)?)),
            Effect::Rejoin(line) => Ok(Effect::Rejoin(line.copy(alloc)?)),
        }
    }
}
