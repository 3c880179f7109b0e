//! Nodes in their seats, for tests.
ghost use Rattle.std.specs.Prelude.{◌≡◌, ◌+◌, ◌++◌, IfOk, IfSome, length};
ghost use Rattle.ether.specs.Passes.{IsHeard, IsPass, IsSent, IsUnopened, view_of};
ghost use Rattle.node_cases.specs.Seats.{HasActed, HasDone, IsSeated};
ghost use Rattle.raft_node.specs.Inputs.{act_of};

use ether::{Ether, Pass};
use machine_laws::{Hosted, Machine};
use raft_log::{Message, NodeId};
use raft_node::{Described, Input, Node};
use stable_store::Stable;
use std::alloc::Global;
use std::snapshot::Snapshot;
use std::test::Fail;
use world_views::{Envelope, NodeEvent, NodeInput};

/// A node in its seat: with its pass, and how many messages it sent.
#[derive(Drop)]
pub struct Seated<M: Hosted, S: Stable<M::Command>> {
    pub pass: Pass<M::Command, M::Line, M::Target>,
    pub node: Node<M, S>,
    pub sent: u64,
}

impl<M: Hosted, S: Stable<M::Command>> Seated<M, S> {
    /// The node of this pass starts over a new store, and is opened. Gives the ticket too.
    pub fn open(
        alloc: Global,
        ether: &Ether<M>,
        pass: Pass<M::Command, M::Line, M::Target>,
        store: S,
    ) -> Result<(u64, Self), Fail>
        requires { IsPass ether.now pass × IsUnopened pass }
        ensures { IfOk result (λ r. IsSeated ether.now r.1.pass r.1.node r.1.sent) }
    {
        let mut pass = pass;
        let place = pass.node();
        if place >= 7 {
            return Err(Fail::from("no such node"));
        }
        let id = NodeId::new(place as u8 + 1);
        let node = Node::start(alloc, id, ether.size(), ether.setup(), store)?;
        let ticket = ether.opening(&mut pass, &node);
        let sent = 0;
        Ok((ticket, Seated { pass, node, sent }))
    }

    /// An event of the node. Gives its ticket, and the first message that it sends by it, if any.
    pub fn act(
        &mut self,
        ether: &Ether<M>,
        event: NodeEvent<M::Command, M::Line, M::Target>,
    ) -> Result<(u64, Option<Envelope<M::Command>>), Fail>
        requires seated { IsSeated ether.now self.old.pass self.old.node self.old.sent }
        requires heard { IsHeard (view_of self.old.pass) event }
        ensures seated { IfOk result (λ _.
            IsSeated ether.now self.new.pass self.new.node self.new.sent) }
        ensures message { IfOk result (λ r. IfSome r.1 (λ e. IsSent (view_of self.new.pass) e)) }
    {
        let Some(number) = self.sent.checked_add(1) else {
            return Err(Fail::from("too many messages"));
        };
        let (ticket, messages) = self.turn(ether, event)?;
        let mut messages = messages;
        if messages.is_empty() {
            return Ok((ticket, None));
        }
        let message = messages.swap_remove(0);
        if message.from == 0 || message.from as u64 - 1 != self.pass.node() {
            return Err(Fail::from("a message of another node"));
        }
        Ok((ticket, Some(Envelope { number, message })))
    }

    /// An event of the node. Gives its ticket, and all that it sends by it.
    fn turn(
        &mut self,
        ether: &Ether<M>,
        event: NodeEvent<M::Command, M::Line, M::Target>,
    ) -> Result<(u64, Vec<Message<M::Command>>), Fail>
        requires seated { IsSeated ether.now self.old.pass self.old.node self.old.sent }
        requires heard { IsHeard (view_of self.old.pass) event }
        ensures seated { IfOk result (λ _.
            IsSeated ether.now self.new.pass self.new.node self.new.sent) }
        ensures sends { IfOk result (λ r. (view_of self.new.pass).state.sent
            ≡ (view_of self.old.pass).state.sent ++ r.1.items) }
        ensures count { IfOk result (λ r. self.new.sent ≡ self.old.sent + length r.1.items) }
    {
        let ticket = ether.tick(&mut self.pass, Snapshot::of(&event))?;
        let messages = step(&mut self.node, event)?;
        let Some(sent) = self.sent.checked_add(messages.len() as u64) else {
            return Err(Fail::from("too many messages"));
        };
        self.sent = sent;
        Ok((ticket, messages))
    }

    /// The node posts a message, if there is one. Gives the number of the older one that it replaced.
    pub fn post(
        &mut self,
        ether: &Ether<M>,
        message: Option<Envelope<M::Command>>,
    ) -> Result<Option<u64>, Fail>
        requires seated { IsSeated ether.now self.old.pass self.old.node self.old.sent }
        requires message { IfSome message (λ e. IsSent (view_of self.old.pass) e) }
        ensures { IfOk result (λ _. IsSeated ether.now self.new.pass self.new.node self.new.sent) }
    {
        let Some(envelope) = message else {
            return Err(Fail::from("nothing to post"));
        };
        let to = envelope.message.to;
        if to < 1 || to > ether.size().value() {
            return Err(Fail::from("a message to nobody"));
        }
        Ok(match ether.post(&mut self.pass, envelope) {
            Some(older) => Some(older.number),
            None => None,
        })
    }

    /// The node takes the message that lies in the mailbox from the node at this place, and hears it.
    /// Gives the first message that it sends by it, if any.
    pub fn receive(
        &mut self,
        ether: &Ether<M>,
        from: u64,
    ) -> Result<Option<Envelope<M::Command>>, Fail>
        requires { IsSeated ether.now self.old.pass self.old.node self.old.sent }
        ensures seated { IfOk result (λ _.
            IsSeated ether.now self.new.pass self.new.node self.new.sent) }
        ensures message { IfOk result (λ r. IfSome r (λ e. IsSent (view_of self.new.pass) e)) }
    {
        if from >= ether.size().value() as u64 {
            return Err(Fail::from("no such node"));
        }
        let Some(envelope) = ether.take(&mut self.pass, from) else {
            return Err(Fail::from("nothing came"));
        };
        let (_ticket, message) = self.act(ether, NodeEvent::Does(NodeInput::Deliver(envelope)))?;
        Ok(message)
    }

    /// An event of the node, which posts the first message that it sends by it. Gives the event's ticket,
    /// and the number of the older message that it replaced.
    pub fn act_and_post(
        &mut self,
        ether: &Ether<M>,
        event: NodeEvent<M::Command, M::Line, M::Target>,
    ) -> Result<(u64, Option<u64>), Fail>
        requires seated { IsSeated ether.now self.old.pass self.old.node self.old.sent }
        requires heard { IsHeard (view_of self.old.pass) event }
        ensures { IfOk result (λ _. IsSeated ether.now self.new.pass self.new.node self.new.sent) }
    {
        let (ticket, message) = self.act(ether, event)?;
        Ok((ticket, self.post(ether, message)?))
    }

    /// A leader beats so many times, and posts what it sends to node 2. Gives how many older messages
    /// came back.
    pub fn beat(&mut self, ether: &Ether<M>, count: u64) -> Result<u64, Fail>
        requires { IsSeated ether.now self.old.pass self.old.node self.old.sent }
        ensures { IfOk result (λ _. IsSeated ether.now self.new.pass self.new.node self.new.sent) }
    {
        let mut older = 0u64;
        for round in 0..count {
            let _ = round;
            let (_ticket, replaced) = self.act_and_post(ether, NodeEvent::Does(NodeInput::Beat))?;
            if replaced.is_some() {
                older = older.wrapping_add(1);
            }
        }
        Ok(older)
    }

    /// The node hears what the node at this place asked, and posts its answer.
    pub fn answer(&mut self, ether: &Ether<M>, from: u64) -> Result<(), Fail>
        requires { IsSeated ether.now self.old.pass self.old.node self.old.sent }
        ensures { IfOk result (λ _. IsSeated ether.now self.new.pass self.new.node self.new.sent) }
    {
        let message = self.receive(ether, from)?;
        self.post(ether, message)?;
        Ok(())
    }
}

/// The node does this. Gives what it sends.
fn run<M: Hosted, S: Stable<M::Command>>(
    node: &mut Node<M, S>,
    input: Input<Message<M::Command>, M::Command, M::Line>,
) -> Result<Vec<Message<M::Command>>, Fail>
    ensures { IfOk result (λ ms. HasActed (⟦<M as Described>⟧.machine node.old.setup)
        (act_of (⟦<M as Described>⟧.machine node.old.setup) input) node.old node.new ms.items) }
{
    let output = node.step(input)?;
    Ok(output.messages)
}

/// This happens to the node: a timeout, a beat, or a message. Gives what it sends.
fn step<M: Hosted, S: Stable<M::Command>>(
    node: &mut Node<M, S>,
    event: NodeEvent<M::Command, M::Line, M::Target>,
) -> Result<Vec<Message<M::Command>>, Fail>
    ensures { IfOk result (λ ms. HasDone (⟦<M as Described>⟧.machine node.old.setup) event
        node.old node.new ms.items) }
{
    match event {
        NodeEvent::Does(NodeInput::Timeout) => run(node, Input::Timeout),
        NodeEvent::Does(NodeInput::Beat) => run(node, Input::Beat),
        NodeEvent::Does(NodeInput::Deliver(envelope)) => {
            run(node, Input::Deliver(envelope.message))
        }
        _ => Err(Fail::from("no such input here")),
    }
}
