//! Why a call of a cell failed.
use raft_node::NodeFault;
use thiserror::Error;

/// Why a call of a cell failed.
#[derive(Clone, Copy, Debug, Drop, PartialEq, Eq, Error)]
pub enum CellFault {
    /// Memory ran out, and the cell is unchanged.
    #[error("out of memory")]
    Memory,
    /// The node's pass made 2^60 ticks, and the cell is unchanged.
    #[error("the node has no more turns")]
    Spent,
    /// The node's own fault.
    #[error("{0}")]
    Node(NodeFault),
}
