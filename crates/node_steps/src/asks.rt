//! What a node is about to do when it is asked for a body.
ghost use Rattle.std.specs.Prelude.{◌≡◌, ◌≤◌, ◌&&◌, ℕ, [], length, nat_le};
ghost use Rattle.raft_log.specs.Logs.{entry_limit};
ghost use Rattle.raft_log.specs.Node.{is_leader};
ghost use Rattle.raft_log.specs.Positions.{leader_of, role_of};
ghost use Rattle.raft_log.specs.Seen.{node_of};
ghost use Rattle.node_steps.specs.Asking.{finds_leader, is_full, may_ask};
ghost use Rattle.node_steps.specs.Plans.{IsPrepared, ask_plan};
ghost use Rattle.wire_bytes.specs.Limits.{body_limit};

use crate::own::leads;
use crate::refusal::Refusal;
use crate::unprepared::Unprepared;
use machine_laws::Source;
use raft_log::{Log, LoggedBody, NodeId, Standing, Step};
use std::alloc::Global;
use wire_bytes::Wire;

/// A client asks, a run marks, or it is known that a node is gone: a leader appends the body, another node sends it to
/// the leader that it knows. A request of a client or a run is taken only at its own node, in its own run; what only
/// the leader may bring is not taken.
///
/// Refused with `BadOrigin`, else with `NoLeader` if no leader is known, else with `LogFull` at a leader whose log
/// takes no more entries.
pub fn on_ask<B: Wire>(
    alloc: Global,
    standing: Standing,
    log: &Log<B>,
    id: NodeId,
    source: Source,
    body: B,
) -> Result<Step<B>, Unprepared>
    requires fits { B.fits body }
    requires short { length (B.spelled body) ≤ body_limit }
    ensures { IsPrepared (ask_plan id source body) standing log.now result }
{
    if !may_ask(&standing, id, source) {
        return Err(Unprepared::Refused(Refusal::BadOrigin));
    }
    if !finds_leader(&standing) {
        return Err(Unprepared::Refused(Refusal::NoLeader));
    }
    if has_no_room(&standing, log) {
        return Err(Unprepared::Refused(Refusal::LogFull));
    }
    let body = LoggedBody::new(alloc, body)?;
    Ok(replication::ask(alloc, standing, log, id, body)?)
}

/// Whether a body of this source may be asked for at this node, in this run of it.
pub fn may_ask(standing: &Standing, id: NodeId, source: Source) -> bool
    ensures { result ≡ may_ask id (node_of {B = ℕ} standing.now [] []) source }
{
    let boot = standing.boot.value();
    match source {
        Source::Client(origin) => origin.node() == id.value() && origin.boot() == boot,
        Source::Run(node, run) => node == id.value() && run == boot,
        Source::Node => true,
        Source::Leader => false,
    }
}

/// Whether a node leads, or knows who does.
fn finds_leader(standing: &Standing) -> bool
    ensures { result ≡ finds_leader (node_of {B = ℕ} standing.now [] [])
        (leader_of standing.now.position) }
{
    leads(standing) || standing.position.leader().is_some()
}

/// Whether a node leads, and its log takes no more entries.
fn has_no_room<B: Wire>(standing: &Standing, log: &Log<B>) -> bool
    ensures { result ≡ (is_leader (role_of standing.now.position)
        && nat_le entry_limit (length log.now)) }
{
    leads(standing) && log.is_full()
}
