//! Events that happen to three nodes, one behind the other.
use crate::walks::inputs::{own_step, place_of};
use crate::walks::member::{Came, Member};
use buffer_commands::WireLine;
use buffer_lines::Shown;
use irc_line::Name;
use machine_laws::{Hosted, Machine};
use raft_log::{GroupSize, Message, NodeId};
use raft_node::Input as NodeStep;
use recorder::{Words, parse_events, push_number};
use std::alloc::{AllocError, Global};
use std::test::Fail;
use world_events::{Event, Input};
use world_lines::{named_by, push_outcome};
use world_run::Outcome;

/// The events of a text happen to three nodes of this setup: what comes out of each, and what the nodes are then.
///
/// The line `K memory` stands where the event of this number was refused memory.
pub fn walk_nodes<M>(alloc: Global, setup: &M::Setup, text: &[u8]) -> Result<Vec<u8>, Fail>
where
    M: Hosted<Line = WireLine, Target = Name>,
    M::Effect: Words,
{
    let events = parse_events::<M::Command>(alloc, text)?;
    let mut members = three::<M>(alloc, setup)?;
    let mut out = Vec::new(alloc);
    let mut number = 0u64;
    for event in &events {
        number = number.wrapping_add(1);
        let came = happen(alloc, &mut members, event)?;
        push_came(&mut out, number, named_by(event), came)?;
    }
    for member in &members {
        member.push_line(&mut out)?;
    }
    Ok(out)
}

/// The nodes 1, 2 and 3.
fn three<M: Hosted>(alloc: Global, setup: &M::Setup) -> Result<Vec<Member<M>>, Fail> {
    let Some(size) = GroupSize::new(3) else {
        return Err(Fail::from("no such size"));
    };
    let mut members = Vec::new(alloc);
    for id in 1..4 {
        let member = Member::start(alloc, id, size, setup)?;
        members.push(member)?;
    }
    Ok(members)
}

/// An event happens.
fn happen<M: Hosted>(
    alloc: Global,
    members: &mut [Member<M>],
    event: &Event<M::Command, M::Line, M::Target>,
) -> Came<M::Effect> {
    let node = named_by(event).value() as u64;
    match event {
        Event::Does(Input::Deliver(_, number)) => deliver(members, node, *number),
        Event::Does(input) => step(members, node, own_step(alloc, input)?),
        Event::Restart(_) => restart(members, node),
        Event::StopIn(_, _) => Err(Fail::from("no stops here")),
    }
}

/// The message of this number, from 1, of a node comes to whom it was sent, if there is one.
fn deliver<M: Hosted>(members: &mut [Member<M>], sender: u64, number: u64) -> Came<M::Effect> {
    let sender = place_of(sender, members.len())?;
    match members[sender].message(number)? {
        Some(message) => {
            let to = message.to as u64;
            step(members, to, NodeStep::Deliver(message))
        }
        None => Ok(Some(Outcome::Missing)),
    }
}

/// An input comes to the node of this number.
fn step<M: Hosted>(
    members: &mut [Member<M>],
    node: u64,
    input: NodeStep<Message<M::Command>, M::Command, M::Line>,
) -> Came<M::Effect> {
    let node = place_of(node, members.len())?;
    members[node].step(input)
}

/// The node of this number stops, and begins its next run.
fn restart<M: Hosted>(members: &mut [Member<M>], node: u64) -> Came<M::Effect> {
    let node = place_of(node, members.len())?;
    members[node].restart()
}

/// Appends what came out of an event.
fn push_came<E: Words + Drop>(
    out: &mut Vec<u8>,
    number: u64,
    node: NodeId,
    came: Option<Outcome<E, Shown>>,
) -> Result<(), AllocError> {
    match came {
        Some(outcome) => push_outcome(out, number, node, &outcome),
        None => {
            push_number(out, number)?;
            out.extend_from_slice(b" memory\n")
        }
    }
}
