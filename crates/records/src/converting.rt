//! A node's record as one of its group.
ghost use Rattle.std.specs.Prelude.{◌≡◌, IfErr, IfNone, IfOk, IfSome, map};
ghost use Rattle.records.specs.Converting.{IsOfAStranger, IsRecordOf, IsRefused, event_of, input_of};
ghost use Rattle.records.specs.Converting.{AreOfMembers, IsInputOfAStranger, turn_of};

use crate::record::{Record, Turn};
use crate::text_fault::TextFault;
use node_cells::{NodeRecord, NodeTurn};
use raft_log::NodeId;
use std::alloc::Global;
use wire_bytes::Wire;
use world_events::{Event, Input};
use world_run::Outcome;
use world_views::{NodeEvent, NodeInput};

/// What happened to a node, as one of the events of its group: a message is named by its sender and by its number among
/// those that the sender sent. None if a message came that no node sent.
pub fn event_of<B: Wire, L, T>(node: NodeId, event: NodeEvent<B, L, T>) -> Option<Event<B, L, T>>
    ensures some { IfSome result (λ e. e ≡ event_of node event) }
    ensures none { IfNone result (IsOfAStranger event) }
{
    match event {
        NodeEvent::Does(input) => Some(Event::Does(input_of(node, input)?)),
        NodeEvent::Look(place, target) => Some(Event::Does(Input::Look(node, place, target))),
        NodeEvent::Restart => Some(Event::Restart(node)),
        NodeEvent::StopIn(input, after) => Some(Event::StopIn(input_of(node, input)?, after)),
    }
}

fn input_of<B: Wire, L, T>(node: NodeId, input: NodeInput<B, L>) -> Option<Input<B, L, T>>
    ensures some { IfSome result (λ x. x ≡ input_of node input) }
    ensures none { IfNone result (IsInputOfAStranger input) }
{
    match input {
        NodeInput::Timeout => Some(Input::Timeout(node)),
        NodeInput::Beat => Some(Input::Beat(node)),
        NodeInput::Deliver(envelope) => {
            let from = envelope.message.from;
            if from < 1 || from > 7 {
                return None;
            }
            Some(Input::Deliver(NodeId::new(from), envelope.number))
        }
        NodeInput::Ask(body) => Some(Input::Ask(node, body)),
        NodeInput::Opened => Some(Input::Opened(node)),
        NodeInput::Closed => Some(Input::Closed(node)),
        NodeInput::Heard(at, line) => Some(Input::Heard(node, at, line)),
        NodeInput::Claim => Some(Input::Claim(node)),
        NodeInput::Apply => Some(Input::Apply(node)),
    }
}

/// A turn of a node, with its ticket and with what came out of it.
fn turn_of<B: Wire, L, T, E: Drop, P: Drop>(
    node: NodeId,
    turn: NodeTurn<B, L, T, E, P>,
) -> Option<Turn<Event<B, L, T>, Outcome<E, P>>>
    ensures some { IfSome result (λ t. t ≡ turn_of node turn) }
    ensures none { IfNone result (IsOfAStranger turn.event) }
{
    let NodeTurn {
        ticket,
        event,
        outcome,
    } = turn;
    Some(Turn {
        ticket,
        event: event_of(node, event)?,
        outcome,
    })
}

/// What a node did, turn by turn, as one of its group. `Stranger` if a message came that no node sent.
pub fn record_of<B: Wire, L: Drop, T: Drop, E: Drop, P: Drop>(
    alloc: Global,
    own: NodeRecord<B, L, T, E, P>,
) -> Result<Record<Event<B, L, T>, Outcome<E, P>>, TextFault>
    ensures ok { IfOk result (IsRecordOf own) }
    ensures err { IfErr result (λ e. e ≡ TextFault.Stranger → IsRefused own) }
{
    let NodeRecord { node, turns, state } = own;
    match turns_of(alloc, node, turns) {
        Ok(turns) => Ok(Record { node, turns, state }),
        Err(fault) => Err(fault),
    }
}

/// The turns of a node, in order.
fn turns_of<B: Wire, L: Drop, T: Drop, E: Drop, P: Drop>(
    alloc: Global,
    node: NodeId,
    turns: Vec<NodeTurn<B, L, T, E, P>>,
) -> Result<Vec<Turn<Event<B, L, T>, Outcome<E, P>>>, TextFault>
    ensures ok { IfOk result (λ v. v.items ≡ map (turn_of node) turns.items) }
    ensures err { IfErr result (λ e. e ≡ TextFault.Stranger → ¬ AreOfMembers turns.items) }
{
    let mut all = Vec::new(alloc);
    if all.reserve(turns.len()).is_err() {
        return Err(TextFault::Memory);
    }
    for turn in turns {
        let Some(turn) = turn_of(node, turn) else {
            return Err(TextFault::Stranger);
        };
        if all.push(turn).is_err() {
            return Err(TextFault::Memory);
        }
    }
    Ok(all)
}
