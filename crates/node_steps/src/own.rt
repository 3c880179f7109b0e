//! What a leader is about to append of its own.
ghost use Rattle.std.specs.Prelude.{◌≡◌, ◌≤◌, length, true};
ghost use Rattle.raft_log.specs.Node.{is_leader};
ghost use Rattle.raft_log.specs.Positions.{role_of};
ghost use Rattle.node_steps.specs.Plans.{IsPrepared, own_plan};
ghost use Rattle.wire_bytes.specs.Limits.{body_limit};

use crate::refusal::Refusal;
use crate::unprepared::Unprepared;
use raft_log::{Live, Log, LoggedBody, Position, Standing, Step};
use std::alloc::Global;
use wire_bytes::{Number, Wire};

/// A leader appends a body of its own, and its session becomes this, with this many attempts made.
///
/// Refused with `LogFull` if the log takes no more entries.
pub(crate) fn append_own<B: Wire>(
    alloc: Global,
    standing: Standing,
    log: &Log<B>,
    live: Option<Live>,
    attempts: Number,
    body: B,
) -> Result<Step<B>, Unprepared>
    requires leads { is_leader (role_of standing.position) ≡ true }
    requires fits { B.fits body }
    requires short { length (B.spelled body) ≤ body_limit }
    ensures { IsPrepared (own_plan live attempts body) standing log.now result }
{
    if log.is_full() {
        return Err(Unprepared::Refused(Refusal::LogFull));
    }
    let led = Standing {
        position: Position::Leader(live),
        attempts,
        ..standing
    };
    let body = LoggedBody::new(alloc, body)?;
    Ok(replication::on_forward(alloc, led, log, body)?)
}

/// Whether a node leads.
pub(crate) fn leads(standing: &Standing) -> bool
    ensures { result ≡ is_leader (role_of standing.now.position) }
{
    match standing.position {
        Position::Leader(_) => true,
        Position::Follower(_) | Position::Candidate => false,
    }
}
