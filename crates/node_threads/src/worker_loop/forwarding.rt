//! The request that is on its way to the leader.
ghost use Rattle.std.specs.Prelude.{◌≡◌};
ghost use Rattle.node_threads.specs.Forwarding.{after_post, asks_first, forwarded_after, is_left, is_request, request_at};

use raft_log::NodeId;
use wire_bytes::Wire;
use world_views::NodeInput;

/// Whether an input is a request.
pub fn is_request<B: Wire, L>(input: &NodeInput<B, L>) -> bool
    ensures { result ≡ is_request input.now }
{
    matches!(input, NodeInput::Ask(_))
}

/// The node to which a request was last posted, if nothing was posted to it since, after a turn
/// posted to these nodes: a request, or other messages.
pub fn forwarded_after(forwarded: Option<u8>, is_request: bool, posted_to: &[u8]) -> Option<u8>
    ensures { result ≡ forwarded_after is_request posted_to.now forwarded }
{
    let mut forwarded = forwarded;
    for node in posted_to {
        forwarded = after_post(forwarded, is_request, *node);
    }
    forwarded
}

/// The same after one message was posted.
fn after_post(forwarded: Option<u8>, is_request: bool, node: u8) -> Option<u8>
    ensures { result ≡ after_post is_request node forwarded }
{
    if is_request {
        return Some(node);
    }
    match forwarded {
        Some(to) if to == node => None,
        _ => forwarded,
    }
}

/// The leader that the node knows, if the last message posted to it is a request.
pub fn request_at(forwarded: Option<u8>, leader: Option<NodeId>) -> Option<u8>
    ensures { result ≡ request_at forwarded leader }
{
    match (forwarded, leader) {
        (Some(to), Some(leader)) if to == leader.value() => Some(to),
        _ => None,
    }
}

/// Whether the node knows a leader, and the last message posted to it is no request.
pub fn asks_first(forwarded: Option<u8>, leader: Option<NodeId>) -> bool
    ensures { result ≡ asks_first forwarded leader }
{
    match (forwarded, leader) {
        (Some(to), Some(leader)) => to != leader.value(),
        (None, Some(_)) => true,
        (_, None) => false,
    }
}

/// Whether the mailbox from the node at this place, from 0 on, belongs to the node of this number.
pub fn is_left(left: Option<u8>, place: u8) -> bool
    ensures { result ≡ is_left left place }
{
    match left {
        Some(node) => node as u64 == place as u64 + 1,
        None => false,
    }
}
