//! What an event is, what a message is, and what an event delivers.
ghost use Rattle.std.specs.Prelude.{◌≡◌};
ghost use Rattle.world_app.specs.Kinds.{deed_of, delivery_in, delivery_of, happening_of, kind_of};

use crate::kinds::{Deed, Happening, MessageKind};
use raft_log::{Kind, NodeId};
use wire_bytes::Wire;
use world_events::{Event, Input};

/// What an event is, as far as it is drawn.
pub fn happening_of<B, L, T>(event: &Event<B, L, T>) -> Happening
    ensures { result ≡ happening_of event.now }
{
    match event {
        Event::Does(input) => Happening::Does(deed_of(input)),
        Event::Restart(_) => Happening::Restarts,
        Event::StopIn(input, after) => if *after {
            Happening::StopsAfter(deed_of(input))
        } else {
            Happening::StopsBefore(deed_of(input))
        },
    }
}

/// What an input is, as far as it is drawn.
fn deed_of<B, L, T>(input: &Input<B, L, T>) -> Deed
    ensures { result ≡ deed_of input.now }
{
    match input {
        Input::Timeout(_) => Deed::Timeout,
        Input::Beat(_) => Deed::Beat,
        Input::Deliver(_, _) => Deed::Deliver,
        Input::Ask(_, _) => Deed::Ask,
        Input::Opened(_) => Deed::Opened,
        Input::Closed(_) => Deed::Closed,
        Input::Heard(_, _, _) => Deed::Heard,
        Input::Claim(_) => Deed::Claim,
        Input::Apply(_) => Deed::Apply,
        Input::Look(_, _, _) => Deed::Look,
    }
}

/// What a message is, as far as it is drawn.
pub fn kind_of<B: Wire>(kind: &Kind<B>) -> MessageKind
    ensures { result ≡ kind_of kind.now }
{
    match kind {
        Kind::RequestVote { .. } => MessageKind::RequestVote,
        Kind::Vote { granted } => if *granted {
            MessageKind::Vote
        } else {
            MessageKind::Denial
        },
        Kind::Append(_) => MessageKind::Append,
        Kind::AppendReply { ok, .. } => if *ok {
            MessageKind::Reply
        } else {
            MessageKind::Gap
        },
        Kind::Forward(_) => MessageKind::Forward,
    }
}

/// The sender and the number of the message that an event delivers, even if the node stops.
pub fn delivery_of<B, L, T>(event: &Event<B, L, T>) -> Option<(NodeId, u64)>
    ensures { result ≡ delivery_of event.now }
{
    match event {
        Event::Does(input) => delivery_in(input),
        Event::Restart(_) => None,
        Event::StopIn(input, _) => delivery_in(input),
    }
}

/// The sender and the number of the message that an input delivers.
fn delivery_in<B, L, T>(input: &Input<B, L, T>) -> Option<(NodeId, u64)>
    ensures { result ≡ delivery_in input.now }
{
    match input {
        Input::Deliver(sender, number) => Some((*sender, *number)),
        _ => None,
    }
}
