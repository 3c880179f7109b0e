//! What a worker reports.
use crate::progress::Progress;
use crate::status::Status;
use raft_log::NodeId;
use raft_node::NodeFault;

/// What came of a round of a node's worker, with the state of the node afterwards.
#[derive(Drop)]
pub struct Report<E> {
    pub node: NodeId,
    pub status: Status,
    /// The effects, in order, except the lines that are handed out upstream: their upstream has them.
    pub effects: Vec<E>,
    pub progress: Progress,
    /// Why a turn of the round did nothing, if one did: the first such fault.
    pub fault: Option<NodeFault>,
}
