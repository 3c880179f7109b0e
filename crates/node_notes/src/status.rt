//! The state of a node, for its driver.
ghost use Rattle.std.specs.Prelude.{◌≡◌};
ghost use Rattle.std.specs.Prelude.{option_map};
ghost use Rattle.raft_log.specs.Positions.{live_of};
ghost use Rattle.node_notes.specs.Notes.{leads, status_of};

use raft_log::{NodeState, Position, Role};
use raft_node::Cause;
use wire_bytes::{Number, SessionId, Wire};

/// The state of a node, as its driver has to know it.
#[derive(Clone, Copy)]
pub struct Status {
    pub role: Role,
    pub boot: Number,
    pub term: Number,
    /// The place of the last entry of its log.
    pub last: Number,
    pub commit: Number,
    pub applied: Number,
    /// The upstream session that it holds, if it leads.
    pub session: Option<SessionId>,
    /// The number of the line to be claimed next, if there is one.
    pub next_claim: Option<Number>,
    /// Why it is down, if it is.
    pub down: Option<Cause>,
}

impl Status {
    /// The status of a node in this state.
    pub fn of<B: Wire>(
        state: &NodeState<B>,
        next_claim: Option<Number>,
        down: Option<Cause>,
    ) -> Status
        ensures { result ≡ status_of state.now next_claim down }
    {
        let standing = state.standing;
        Status {
            role: standing.position.role(),
            boot: standing.boot,
            term: standing.term,
            last: state.log.len(),
            commit: standing.commit,
            applied: standing.applied,
            session: session_of(standing.position),
            next_claim,
            down,
        }
    }

    /// Whether the node leads and is up.
    pub fn leads(&self) -> bool
        ensures { result ≡ leads self.now }
    {
        match self.role {
            Role::Leader => self.down.is_none(),
            Role::Follower | Role::Candidate => false,
        }
    }
}

/// The session that a leader holds, if it does.
fn session_of(position: Position) -> Option<SessionId>
    ensures { result ≡ option_map (λ l. l.id) (live_of position) }
{
    match position.live() {
        Some(live) => Some(live.id),
        None => None,
    }
}
