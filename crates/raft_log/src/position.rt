ghost use Rattle.std.specs.Prelude.{◌≡◌};
ghost use Rattle.raft_log.specs.Positions.{role_of, leader_of, live_of};

use crate::node_id::NodeId;
use crate::node_state::Live;
use crate::role::Role;

/// The position of a node in its term, and what it knows in it: a follower its leader, a leader its session.
#[derive(Clone, Copy)]
pub enum Position {
    /// The known leader is the sender of the last Append of the term.
    Follower(Option<NodeId>),
    Candidate,
    /// There is no session until one is opened.
    Leader(Option<Live>),
}

impl Position {
    pub fn role(self) -> Role
        ensures { result ≡ role_of self }
    {
        match self {
            Position::Follower(_) => Role::Follower,
            Position::Candidate => Role::Candidate,
            Position::Leader(_) => Role::Leader,
        }
    }

    /// The known leader; only a follower has one.
    pub fn leader(self) -> Option<NodeId>
        ensures { result ≡ leader_of self }
    {
        match self {
            Position::Follower(leader) => leader,
            Position::Candidate => None,
            Position::Leader(_) => None,
        }
    }

    /// The session with the server; only a leader has one.
    pub fn live(self) -> Option<Live>
        ensures { result ≡ live_of self }
    {
        match self {
            Position::Follower(_) => None,
            Position::Candidate => None,
            Position::Leader(live) => live,
        }
    }
}
