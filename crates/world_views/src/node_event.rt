//! What happens to one node, with the message that it brings.
use crate::envelope::Envelope;
use raft_node::Input;
use wire_bytes::Wire;

/// An input of one node; a delivery holds the message with its number.
pub type NodeInput<B, L> = Input<Envelope<B>, B, L>;

/// What happens to one node, which is not named.
#[derive(Drop)]
pub enum NodeEvent<B: Wire, L, T> {
    Does(NodeInput<B, L>),
    /// A playback is asked for, at this place or later.
    Look(u64, T),
    /// The node stops, and starts from its store.
    Restart,
    /// The node stops while this happens: what it saved is as before it, or as after it.
    StopIn(NodeInput<B, L>, bool),
}
