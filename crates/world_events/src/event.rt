//! What may happen to a group of nodes.
use raft_log::NodeId;
use wire_bytes::Moment;

/// What happens to one node, over bodies, lines and targets of a machine.
#[derive(Drop)]
pub enum Input<B, L, T> {
    /// It waited too long for a leader.
    Timeout(NodeId),
    /// A leader sends to all others.
    Beat(NodeId),
    /// The message of this number, from 1, among those that the node sent, reaches its receiver.
    Deliver(NodeId, u64),
    /// A client makes a request, or a node is reported gone.
    Ask(NodeId, B),
    /// The upstream session is registered.
    Opened(NodeId),
    /// The upstream session ended.
    Closed(NodeId),
    /// A line came from upstream.
    Heard(NodeId, Moment, L),
    /// The next line for upstream is claimed.
    Claim(NodeId),
    /// One entry is applied.
    Apply(NodeId),
    /// A playback is requested, at this place or later.
    Look(NodeId, u64, T),
}

/// What may happen.
#[derive(Drop)]
pub enum Event<B, L, T> {
    Does(Input<B, L, T>),
    /// The node stops, and starts from its store.
    Restart(NodeId),
    /// The node stops while this happens: what it saved is as before it, or as after it.
    StopIn(Input<B, L, T>, bool),
}
