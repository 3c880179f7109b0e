//! A JOIN after a PART of the same channel: clients send both at once to cycle a channel.
ghost use Rattle.std.specs.Prelude.{◌≡◌, IfOk, OnOk};
ghost use Rattle.driver.specs.Cycling.{join_line, parted_all, parted_by, reworded, turned};

use crate::client::Client;
use crate::client::channels::Channels;
use buffer_commands::{Action, ChannelName, WireLine};
use client_gate::Request;
use irc_line::{Line, Name};
use std::alloc::{AllocError, Global};

impl Client {
    /// Its requests as they go to its node. The buffers treat a channel as joined until the PART comes back, and would
    /// ignore a JOIN; so the JOIN goes to the server as a line, after the PART.
    pub(crate) fn reword(&mut self, requests: Vec<Request>) -> Result<Vec<Request>, AllocError>
        ensures told { IfOk result (λ told. told.items ≡
            reworded self.old.channels self.old.parting requests.items) }
        ensures rest { OnOk result (self.new ≡ record self.old {
          parting =
              parted_all self.old.channels self.old.parting requests.items;
        }) }
    {
        reword_all(self.alloc, &self.channels, &mut self.parting, requests)
    }
}

/// The requests of a client as they go to its node. The client has these channels open, and is parting from some.
#[tactic(auto, unfolding(crate::specs::Cycling::reworded, crate::specs::Cycling::parted_all))]
fn reword_all(
    alloc: Global,
    shown: &Channels,
    parting: &mut Channels,
    requests: Vec<Request>,
) -> Result<Vec<Request>, AllocError>
    ensures told { IfOk result (λ told. told.items ≡
        reworded shown.now parting.old requests.items) }
    ensures parting { OnOk result (parting.new ≡
        parted_all shown.now parting.old requests.items) }
{
    let mut told = Vec::with_capacity(alloc, requests.len())?;
    for request in requests {
        let Request { number, action } = request;
        let action = turn(alloc, shown, parting, action)?;
        told.push(Request { number, action })?;
    }
    Ok(told)
}

/// An action as it goes to the client's node: a JOIN of a channel that the client is parting from goes as a line.
fn turn(
    alloc: Global,
    shown: &Channels,
    parting: &mut Channels,
    action: Action,
) -> Result<Action, AllocError>
    ensures told { IfOk result (λ told. told ≡ turned shown.now parting.old action) }
    ensures parting { OnOk result (parting.new ≡ parted_by shown.now parting.old action) }
{
    match action {
        Action::Join(channel) => turn_join(alloc, shown, parting, channel),
        Action::Part(channel) => {
            note_part(shown, parting, channel.name())?;
            Ok(Action::Part(channel))
        }
        other => Ok(other),
    }
}

/// A JOIN as it goes to the client's node. The client is no longer parting from the channel.
fn turn_join(
    alloc: Global,
    shown: &Channels,
    parting: &mut Channels,
    channel: ChannelName,
) -> Result<Action, AllocError>
    ensures told { IfOk result (λ told. told ≡
        turned shown.now parting.old (Action.Join channel)) }
    ensures parting { parting.new ≡ parted_by shown.now parting.old (Action.Join channel) }
{
    let name = channel.name().as_bytes();
    let is_cycled = shown.has(name) && parting.has(name);
    parting.close(name);
    if is_cycled {
        return join(alloc, channel.name());
    }
    Ok(Action::Join(channel))
}

/// The client is parting from a channel, if it has the channel open.
fn note_part(shown: &Channels, parting: &mut Channels, channel: &Name) -> Result<(), AllocError>
    ensures { OnOk result (parting.new ≡
        parted_by shown.now parting.old (Action.Part channel.now)) }
{
    if shown.has(channel.as_bytes()) {
        parting.add(channel.as_bytes())?;
    }
    Ok(())
}

/// The line that joins a channel, to go upstream as it is.
#[tactic(auto, using(crate::proofs::Cycling::join_is_line, crate::proofs::Cycling::join_fits))]
fn join(alloc: Global, channel: &Name) -> Result<Action, AllocError>
    ensures { IfOk result (λ told. told ≡ Action.Pass (join_line channel.now)) }
{
    let line = Line::new(alloc, None, b"JOIN", &[channel.as_bytes()])?;
    match WireLine::from_line(line) {
        Some(line) => Ok(Action::Pass(line)),
        // a channel's name has at most 64 bytes
        None => unreachable!(),
    }
}
