ghost use Rattle.raft_log.specs.Node.{raised};
ghost use Rattle.raft_log.specs.Seen.{Becomes};

use crate::log::Log;
use crate::node_id::NodeId;
use crate::peers::Peers;
use crate::position::Position;
use wire_bytes::{Number, SessionId, Wire};

/// The upstream session that a leader holds, and the number of the next line heard in it.
#[derive(Clone, Copy)]
pub struct Live {
    pub id: SessionId,
    pub next: Number,
}

/// A node's own state except its log. Boot, term and vote are saved, with the log; all else is as at the start after a
/// restart.
#[derive(Clone, Copy)]
pub struct Standing {
    /// The run of the node.
    pub boot: Number,
    pub term: Number,
    pub vote: Option<NodeId>,
    pub position: Position,
    /// The index up to which entries are agreed, as far as the node knows.
    pub commit: Number,
    /// The index up to which entries were applied.
    pub applied: Number,
    pub peers: Peers,
    /// How many sessions this run has opened.
    pub attempts: Number,
}

/// A node's own state.
#[derive(Drop)]
pub struct NodeState<B: Wire> {
    pub standing: Standing,
    pub log: Log<B>,
}

impl<B: Wire> NodeState<B> {
    /// The standing in which a message of this term is handled. A larger term is taken, with no vote; the node becomes
    /// a follower, and a session that it led is over: section 5.1 of the Raft paper, and "All Servers" in its Figure 2.
    pub fn raised(&self, term: Number) -> Standing
        ensures { Becomes (λ s. raised s term) self.now.standing self.now.log result }
    {
        let standing = self.standing;
        if standing.term < term {
            Standing {
                term,
                vote: None,
                position: Position::Follower(None),
                ..standing
            }
        } else {
            standing
        }
    }
}
