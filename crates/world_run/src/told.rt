//! What an event does to which node.
use raft_log::Message;
use raft_node::Input;
use wire_bytes::Wire;

/// What a node does: an input, or a look from a place on.
#[derive(Drop)]
pub enum Act<B: Wire, L, T> {
    Steps(Input<Message<B>, B, L>),
    Looks(u64, T),
}

/// What happens to a node.
#[derive(Drop)]
pub enum Own<B: Wire, L, T> {
    Acts(Act<B, L, T>),
    /// It stops, and begins its next run.
    Restarts,
    /// It stops while it does this, before or after that is saved, and begins its next run.
    Stops(Act<B, L, T>, bool),
}

/// What is done, and by which node, which may not be in the group.
#[derive(Drop)]
pub struct Doing<B: Wire, L, T> {
    pub node: u8,
    pub act: Act<B, L, T>,
}
