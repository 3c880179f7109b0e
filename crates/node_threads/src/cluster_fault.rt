//! Why a call of a cluster failed.
use node_cells::CellFault;
use raft_node::NodeFault;
use std::alloc::AllocError;
use thiserror::Error;

/// Why a call of a cluster failed.
#[derive(Clone, Copy, Debug, Drop, PartialEq, Eq, Error)]
pub enum ClusterFault {
    /// Memory ran out, or no thread can be had.
    #[error("out of memory")]
    Memory,
    /// There is no node of this number.
    #[error("there is no node {0}")]
    NoNode(u8),
    /// The node's worker is gone.
    #[error("the node's worker is gone")]
    Stopped,
    /// The node's own fault.
    #[error("{0}")]
    Node(NodeFault),
    /// The node's pass made 2^60 ticks.
    #[error("the node has no more turns")]
    Spent,
}

impl From<AllocError> for ClusterFault {
    ghost use Rattle.std.specs.Prelude.{◌≡◌};
    ghost use Rattle.node_threads.specs.declared.cluster_fault.ClusterFault.TheVariants.{Memory};

    ghost from_gives = { λ _ e. e ≡ Memory };

    fn from(_: AllocError) -> Self {
        ClusterFault::Memory
    }
}

impl From<CellFault> for ClusterFault {
    ghost use Rattle.std.specs.Prelude.{◌≡◌};
    ghost use Rattle.node_threads.specs.Faults.{from_cell};

    ghost from_gives = { λ fault e. e ≡ from_cell fault };

    fn from(fault: CellFault) -> Self {
        match fault {
            CellFault::Memory => ClusterFault::Memory,
            CellFault::Spent => ClusterFault::Spent,
            CellFault::Node(fault) => ClusterFault::Node(fault),
        }
    }
}
