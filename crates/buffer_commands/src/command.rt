use crate::buffer_size::BufferSize;
use crate::channel_name::ChannelName;
use crate::wire_line::WireLine;
use irc_line::{Name, Text};
use std::alloc::{AllocError, Global};
use wire_bytes::{Copied, Moment, Number, Origin};

/// The verb of a message (RFC 2812, 3.3).
#[derive(Clone, Copy, Debug, PartialEq, Eq)]
pub enum Verb {
    Privmsg,
    Notice,
}

/// What a client requests.
#[derive(Drop)]
pub enum Action {
    /// The client is shown what comes; one with a name is first shown what the name has not seen.
    Attach(Option<Name>),
    Leave,
    /// A message to a channel or a nick.
    Say(Verb, Name, Text),
    /// Join a channel; a detached one is reattached.
    Join(ChannelName),
    /// Leave a channel; one that is not joined is dropped with what is kept of it.
    Part(ChannelName),
    /// Show the channel no longer, but keep its lines for later.
    Detach(ChannelName),
    /// Show a detached channel again.
    Reattach(ChannelName),
    /// Play back what is kept of a target.
    Play(Name),
    /// Remove all that is kept of a target.
    Clear(Name),
    /// Remove all that is kept of the channels.
    ClearChannels,
    /// Remove all that is kept of the queries.
    ClearQueries,
    /// Remove all that is kept.
    ClearAll,
    /// Let a target keep at most this many lines from now on.
    SetBuffer(Name, BufferSize),
    /// Send this line upstream as it is.
    Pass(WireLine),
}

/// What comes to the buffers.
#[derive(Drop)]
pub enum Command {
    /// A request of a client at a moment.
    Client(Origin, Moment, Action),
    /// A line that came from upstream at a moment.
    Upstream(Moment, WireLine),
    /// The runs of a node below this one are gone, with all their clients.
    NodeGone(u8, Number),
    /// There is an upstream.
    Up,
    /// There is no upstream any more.
    Down,
}

impl Copied for Action {
    fn copy(&self, alloc: Global) -> Result<Self, AllocError> {
        match self {
            Action::Attach(None) => Ok(Action::Attach(None)),
            Action::Attach(Some(id)) => Ok(Action::Attach(Some(id.copy(alloc)?))),
            Action::Leave => Ok(Action::Leave),
            Action::Say(verb, target, text) => {
                Ok(Action::Say(*verb, target.copy(alloc)?, text.copy(alloc)?))
            }
            Action::Join(channel) => Ok(Action::Join(channel.copy(alloc)?)),
            Action::Part(channel) => Ok(Action::Part(channel.copy(alloc)?)),
            Action::Detach(channel) => Ok(Action::Detach(channel.copy(alloc)?)),
            Action::Reattach(channel) => Ok(Action::Reattach(channel.copy(alloc)?)),
            Action::Play(target) => Ok(Action::Play(target.copy(alloc)?)),
            Action::Clear(target) => Ok(Action::Clear(target.copy(alloc)?)),
            Action::ClearChannels => Ok(Action::ClearChannels),
            Action::ClearQueries => Ok(Action::ClearQueries),
            Action::ClearAll => Ok(Action::ClearAll),
            Action::SetBuffer(target, size) => Ok(Action::SetBuffer(target.copy(alloc)?, *size)),
            Action::Pass(line) => Ok(Action::Pass(line.copy(alloc)?)),
        }
    }
}

impl Copied for Command {
    fn copy(&self, alloc: Global) -> Result<Self, AllocError> {
        match self {
            Command::Client(origin, at, action) => {
                Ok(Command::Client(*origin, *at, action.copy(alloc)?))
            }
            Command::Upstream(at, line) => Ok(Command::Upstream(*at, line.copy(alloc)?)),
            Command::NodeGone(node, floor) => Ok(Command::NodeGone(*node, *floor)),
            Command::Up => Ok(Command::Up),
            Command::Down => Ok(Command::Down),
        }
    }
}
