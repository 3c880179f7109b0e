//! What the machine holds.
ghost use Rattle.std.specs.Prelude.{◌≡◌, option_map, IfOk};
ghost use Rattle.irc_line.specs.Names.{fold_name};
ghost use Rattle.buffer_machine.specs.Machine.{held_of};
ghost use Rattle.buffer_machine.specs.Steps.{IsDetachedAt, IsKnownAt, beginning};
ghost use Rattle.buffer_machine.specs.Answering.{target_of_key};

use crate::client_names::Names;
use crate::clients::Clients;
use buffer_commands::Setup;
use buffer_targets::{Channels, Queries, Target};
use irc_line::Name;
use std::alloc::{AllocError, Global};

/// The own nick, the clients that are attached, in the order in which they attached, and by which names, and what is
/// kept of each channel and query.
#[derive(Drop)]
pub struct Buffers {
    pub nick: Name,
    pub clients: Clients,
    pub names: Names,
    pub channels: Channels,
    pub queries: Queries,
}

impl Buffers {
    /// What is held before any command.
    pub fn new(alloc: Global, setup: &Setup) -> Result<Buffers, AllocError>
        ensures { IfOk result (λ b. held_of b ≡ beginning setup.now) }
    {
        Ok(Buffers {
            nick: setup.nick().copy(alloc)?,
            clients: Clients::new(alloc),
            names: Names::new(alloc),
            channels: Channels::new(alloc, setup.channels(), setup.channel_size())?,
            queries: Queries::new(alloc),
        })
    }

    /// The target of a name, a channel or a query.
    pub fn target(&self, name: &Name) -> Option<&Target>
        ensures { option_map (λ t. t.now) result ≡
            target_of_key (fold_name name.now) (held_of self.now) }
    {
        match self.channels.find(name.as_bytes()) {
            None => self.queries.find(name.as_bytes()),
            Some(channel) => Some(channel.target()),
        }
    }

    /// Whether there is a channel at a place.
    pub fn is_known(&self, place: Option<usize>) -> bool
        ensures { IsKnownAt self.now.channels place result }
    {
        self.channels.at(place).is_some()
    }

    /// Whether the channel at a place is detached.
    pub fn is_detached(&self, place: Option<usize>) -> bool
        ensures { IsDetachedAt self.now.channels place result }
    {
        match self.channels.at(place) {
            None => false,
            Some(channel) => channel.is_detached(),
        }
    }
}
