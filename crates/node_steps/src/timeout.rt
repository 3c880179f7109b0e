//! What a node is about to do when it waited too long for a leader.
ghost use Rattle.std.specs.Prelude.{◌≡◌, ◌&&◌, nat_le, not};
ghost use Rattle.raft_log.specs.Node.{is_leader};
ghost use Rattle.raft_log.specs.Positions.{role_of};
ghost use Rattle.node_steps.specs.Plans.{IsPrepared, election_plan};
ghost use Rattle.wire_bytes.specs.Limits.{number_limit};

use crate::own::leads;
use crate::refusal::Refusal;
use crate::unprepared::Unprepared;
use raft_log::{Log, NodeId, Standing, Step};
use std::alloc::Global;
use wire_bytes::{LAST_NUMBER, Wire};

/// Begins an election, as `election::begin` says; a leader does nothing.
///
/// A node that does not lead is refused with `TermsSpent` in term 2^60.
pub fn on_timeout<B: Wire>(
    alloc: Global,
    standing: Standing,
    log: &Log<B>,
    id: NodeId,
) -> Result<Step<B>, Unprepared>
    ensures { IsPrepared (election_plan standing.peers.size id) standing log.now result }
{
    if is_spent(&standing) {
        return Err(Unprepared::Refused(Refusal::TermsSpent));
    }
    Ok(election::begin(alloc, standing, log, id)?)
}

/// Whether it does not lead, and no term follows.
fn is_spent(standing: &Standing) -> bool
    ensures { result ≡ (not (is_leader (role_of standing.now.position))
        && nat_le number_limit standing.now.term) }
{
    !leads(standing) && standing.term.value() >= LAST_NUMBER
}
