//! Why a call of a node failed.
ghost use Rattle.std.specs.Prelude.{◌≡◌, Some};
ghost use Rattle.raft_node.specs.Faults.{cause_after, cause_of, fault_number};

use node_steps::Refusal;
use stable_store::StoreFault;
use std::alloc::AllocError;
use thiserror::Error;

/// Why a node is down.
#[derive(Clone, Copy, Debug, Drop, PartialEq, Eq, Error)]
pub enum Cause {
    /// Its store failed.
    #[error("its store failed")]
    Store,
    /// Memory ran out.
    #[error("out of memory")]
    Memory,
}

impl Cause {
    /// If a store runs out of memory so does its node; each other fault of it is the store's.
    pub fn of(fault: StoreFault) -> Cause
        ensures { result ≡ cause_of fault }
    {
        match fault {
            StoreFault::Memory => Cause::Memory,
            _ => Cause::Store,
        }
    }
}

/// Why a call of a node failed.
#[derive(Clone, Copy, Debug, Drop, PartialEq, Eq, Error)]
pub enum NodeFault {
    /// The node is down until it is started again from its store.
    #[error("the node is down: {0}")]
    Down(Cause),
    /// The node is unchanged.
    #[error("the node does not do it: {0:?}")]
    Refused(Refusal),
}

impl NodeFault {
    /// Why a node is down after this fault of a restart: a refusal is its store's fault.
    pub fn cause(&self) -> Cause
        ensures { result ≡ cause_after self.now }
    {
        match self {
            NodeFault::Down(cause) => *cause,
            NodeFault::Refused(_) => Cause::Store,
        }
    }

    /// Numbered from 1 to 7, as printed.
    pub fn number(self) -> u8
        ensures { result ≡ fault_number self }
    {
        match self {
            NodeFault::Down(Cause::Store) => 1,
            NodeFault::Down(Cause::Memory) => 2,
            NodeFault::Refused(Refusal::LogFull) => 3,
            NodeFault::Refused(Refusal::TermsSpent) => 4,
            NodeFault::Refused(Refusal::NoLeader) => 5,
            NodeFault::Refused(Refusal::Behind(_)) => 6,
            NodeFault::Refused(Refusal::BadOrigin) => 7,
        }
    }
}

/// Why several inputs of a node were not processed together.
#[derive(Drop)]
pub struct Unsaved {
    /// Why the node is down.
    pub cause: Cause,
    /// What each input answers once they are saved, in order, if a save of them was tried. Else
    /// none.
    pub answers: Option<Vec<Result<(), Refusal>>>,
}

impl Unsaved {
    /// For inputs whose save was tried.
    pub fn tried(fault: NodeFault, answers: Vec<Result<(), Refusal>>) -> Unsaved
        ensures cause { result.cause ≡ cause_after fault }
        ensures answers { result.answers ≡ Some answers }
    {
        let cause = fault.cause();
        let answers = Some(answers);
        Unsaved { cause, answers }
    }
}

impl From<AllocError> for NodeFault {
    ghost use Rattle.raft_node.specs.declared.node_fault.Cause.TheVariants.{Memory};
    ghost use Rattle.raft_node.specs.declared.node_fault.NodeFault.TheVariants.{Down};

    ghost from_gives = { λ _ e. e ≡ Down Memory };

    fn from(_: AllocError) -> Self {
        NodeFault::Down(Cause::Memory)
    }
}
