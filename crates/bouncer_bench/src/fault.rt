//! Why a task was not done.
use ether::EtherFault;
use file_disk::OpenFault;
use raft_node::NodeFault;
use std::alloc::AllocError;
use thiserror::Error;

/// Why a trade did not begin, or broke off.
#[derive(Clone, Copy, Debug, Drop, Error)]
pub enum TradeFault {
    #[error("out of memory")]
    Memory,
    /// A node did not start, or there was no such node.
    #[error("a node did not start")]
    Node,
}

impl From<AllocError> for TradeFault {
    fn from(_: AllocError) -> Self {
        TradeFault::Memory
    }
}

impl From<EtherFault> for TradeFault {
    fn from(_: EtherFault) -> Self {
        TradeFault::Memory
    }
}

impl From<NodeFault> for TradeFault {
    fn from(_: NodeFault) -> Self {
        TradeFault::Node
    }
}

/// Why a task was not done.
#[derive(Debug, Drop, Error)]
pub enum BenchFault {
    #[error("{0}")]
    Trade(#[from] TradeFault),
    #[error("{0}")]
    Journal(#[from] OpenFault),
    #[error("the answer cannot be written")]
    Write,
}
