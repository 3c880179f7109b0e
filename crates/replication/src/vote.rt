ghost use Rattle.std.specs.Prelude.{◌≤◌, IfOk, length};
ghost use Rattle.raft_log.specs.Steps.{IsStep};
ghost use Rattle.replication.specs.Replication.{on_vote};
ghost use Rattle.wire_bytes.specs.Limits.{body_limit};

use crate::bodies::on_forward;
use raft_log::{Log, LoggedBody, NodeId, Position, Standing, Step};
use std::alloc::{AllocError, Global};
use wire_bytes::{Number, Wire};

/// Takes an answer to a request for a vote, as `election::on_vote` says. If it makes the node leader, the log gets this
/// blank body in the new term in the same step, if it has room: a leader may commit only an entry of its own term
/// (sections 5.4.2 and 8 of the Raft paper).
pub fn on_vote<B: Wire>(
    alloc: Global,
    standing: Standing,
    log: &Log<B>,
    from: NodeId,
    term: Number,
    granted: bool,
    blank: B,
) -> Result<Step<B>, AllocError>
    requires fits { B.fits blank }
    requires short { length (B.spelled blank) ≤ body_limit }
    ensures { IfOk result (IsStep
        (λ s. on_vote blank standing.peers.size s from term granted) standing log.now) }
{
    if let Position::Candidate = standing.position {
        let known = election::on_vote(standing, log, from, term, granted);
        let blank = LoggedBody::new(alloc, blank)?;
        return on_forward(alloc, known, log, blank);
    }
    Ok(Step::still(alloc, standing, log))
}
