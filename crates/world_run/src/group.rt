//! All nodes of a world, and what happens to them.
ghost use Rattle.std.specs.Prelude.{◌≡◌, IfOk};
ghost use Rattle.agreement.specs.World.{start};
ghost use Rattle.raft_log.specs.Lists.{item};
ghost use Rattle.agreement.specs.World.{sent_of};
ghost use Rattle.world_run.specs.Groups.{HasHappened, HasOwnedAt, IsGroup, nodes_in};
ghost use Rattle.world_run.specs.Told.{doing_of, told_own};

use crate::cell::Cell;
use crate::outcome::Outcome;
use crate::told::{Act, Doing, Own};
use machine_laws::Hosted;
use raft_log::{GroupSize, Message, NodeId};
use raft_node::{Described, Input as NodeInput};
use std::alloc::{AllocError, Global};
use std::mem::drop;
use wire_bytes::{Copied, Wire};
use world_events::{Event, Input};

/// The nodes, by rising number, with their setup.
#[derive(Drop)]
pub struct Group<M: Hosted> {
    pub alloc: Global,
    pub setup: M::Setup,
    pub size: GroupSize,
    pub cells: Vec<Cell<M>>,
}

impl<M: Hosted> Group<M> {
    /// A group of this size over new stores.
    pub fn start(alloc: Global, size: GroupSize, setup: &M::Setup) -> Result<Self, AllocError>
        ensures setup { IfOk result (λ g. (g.setup ≡ setup.now) × (g.size ≡ size)) }
        ensures group { IfOk result (λ g. IsGroup setup.now size g.cells.items) }
        ensures nodes { IfOk result (λ g. nodes_in g.cells.items ≡ start size) }
    {
        let mut cells = Vec::with_capacity(alloc, size.value() as usize)?;
        let mut last = 0;
        while last < size.value() {
            last += 1;
            let cell = Cell::start(alloc, NodeId::new(last), size, setup)?;
            cells.push(cell)?;
        }
        let setup = setup.copy(alloc)?;
        Ok(Group {
            alloc,
            setup,
            size,
            cells,
        })
    }

    /// An event happens.
    pub fn happen(
        &mut self,
        event: &Event<M::Command, M::Line, M::Target>,
    ) -> Result<Outcome<M::Effect, M::Played>, AllocError>
        requires { IsGroup self.old.setup self.old.size self.old.cells.items }
        ensures same { (self.new.setup ≡ self.old.setup) × (self.new.size ≡ self.old.size) }
        ensures group { IfOk result
            (λ _. IsGroup self.old.setup self.old.size self.new.cells.items) }
        ensures comes { IfOk result (HasHappened
            (⟦<M as Described>⟧.machine self.old.setup) event.now
            self.old.cells.items self.new.cells.items) }
    {
        match event {
            Event::Does(input) => match doing(self.alloc, &self.cells, input)? {
                Some(doing) => self.own(doing.node, Own::Acts(doing.act)),
                None => Ok(Outcome::Missing),
            },
            Event::Restart(node) => self.own(node.value(), Own::Restarts),
            Event::StopIn(input, after) => match doing(self.alloc, &self.cells, input)? {
                Some(doing) => self.own(doing.node, Own::Stops(doing.act, *after)),
                None => Ok(Outcome::Missing),
            },
        }
    }

    /// This happens to the node of this number.
    fn own(
        &mut self,
        node: u8,
        own: Own<M::Command, M::Line, M::Target>,
    ) -> Result<Outcome<M::Effect, M::Played>, AllocError>
        requires { IsGroup self.old.setup self.old.size self.old.cells.items }
        ensures same { (self.new.setup ≡ self.old.setup) × (self.new.size ≡ self.old.size) }
        ensures group { IfOk result
            (λ _. IsGroup self.old.setup self.old.size self.new.cells.items) }
        ensures comes { IfOk result (HasOwnedAt (⟦<M as Described>⟧.machine self.old.setup) node
            (told_own (⟦<M as Described>⟧.machine self.old.setup) own)
            self.old.cells.items self.new.cells.items) }
    {
        let place = node as usize;
        if place == 0 || place > self.cells.len() {
            drop(own);
            return Ok(Outcome::Missing);
        }
        self.cells[place - 1].own(own)
    }
}

/// What an input does, and at which node; none if there is no such message.
fn doing<M: Hosted>(
    alloc: Global,
    cells: &[Cell<M>],
    input: &Input<M::Command, M::Line, M::Target>,
) -> Result<Option<Doing<M::Command, M::Line, M::Target>>, AllocError>
    ensures { IfOk result (λ doing. doing ≡ doing_of (nodes_in cells.now) input.now) }
{
    let (node, act) = match input {
        Input::Timeout(node) => (node.value(), Act::Steps(NodeInput::Timeout)),
        Input::Beat(node) => (node.value(), Act::Steps(NodeInput::Beat)),
        Input::Deliver(sender, number) => match sent(alloc, cells, *sender, *number)? {
            Some(message) => (message.to, Act::Steps(NodeInput::Deliver(message))),
            None => return Ok(None),
        },
        Input::Ask(node, body) => (node.value(), Act::Steps(NodeInput::Ask(body.copy(alloc)?))),
        Input::Opened(node) => (node.value(), Act::Steps(NodeInput::Opened)),
        Input::Closed(node) => (node.value(), Act::Steps(NodeInput::Closed)),
        Input::Heard(node, at, line) => {
            let line = line.copy(alloc)?;
            (node.value(), Act::Steps(NodeInput::Heard(*at, line)))
        }
        Input::Claim(node) => (node.value(), Act::Steps(NodeInput::Claim)),
        Input::Apply(node) => (node.value(), Act::Steps(NodeInput::Apply)),
        Input::Look(node, from_place, target) => {
            (node.value(), Act::Looks(*from_place, target.copy(alloc)?))
        }
    };
    Ok(Some(Doing { node, act }))
}

/// The message of this number, from 1, among those that a node sent.
fn sent<M: Hosted>(
    alloc: Global,
    cells: &[Cell<M>],
    sender: NodeId,
    number: u64,
) -> Result<Option<Message<M::Command>>, AllocError>
    ensures { IfOk result (λ m. m ≡ sent_of (item (nodes_in cells.now) sender) number) }
{
    let place = sender.value() as usize;
    if place > cells.len() {
        return Ok(None);
    }
    numbered(alloc, cells[place - 1].sent(), number)
}

/// The message of this number, from 1, among these.
fn numbered<B: Wire>(
    alloc: Global,
    messages: &[Message<B>],
    number: u64,
) -> Result<Option<Message<B>>, AllocError>
    ensures { IfOk result (λ m. m ≡ item messages.now number) }
{
    if number == 0 || number > messages.len() as u64 {
        return Ok(None);
    }
    Ok(Some(messages[number as usize - 1].copy(alloc)?))
}
