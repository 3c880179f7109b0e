ghost use Rattle.std.specs.Prelude.{◌<◌, length, IfOk};
ghost use Rattle.raft_log.specs.Logs.{entry_limit};
ghost use Rattle.raft_log.specs.Steps.{IsStep};
ghost use Rattle.replication.specs.Replication.{appending, ask, on_forward};

use raft_log::{Entry, Kind, Log, LoggedBody, Message, NodeId, Position, Standing, Step};
use std::alloc::{AllocError, Global};
use wire_bytes::Wire;

/// A leader whose log is not full appends a body in its term, as section 5.3 of the Raft paper says; a
/// body that comes to another node is dropped.
pub fn on_forward<B: Wire>(
    alloc: Global,
    standing: Standing,
    log: &Log<B>,
    body: LoggedBody<B>,
) -> Result<Step<B>, AllocError>
    ensures { IfOk result (IsStep (λ s. on_forward s body) standing log.now) }
{
    match standing.position {
        Position::Leader(_) => {
            if log.is_full() {
                Ok(Step::still(alloc, standing, log))
            } else {
                append(alloc, standing, log, body)
            }
        }
        _ => Ok(Step::still(alloc, standing, log)),
    }
}

/// A leader appends a body; another node sends it to the leader that it knows.
pub fn ask<B: Wire>(
    alloc: Global,
    standing: Standing,
    log: &Log<B>,
    id: NodeId,
    body: LoggedBody<B>,
) -> Result<Step<B>, AllocError>
    ensures { IfOk result (IsStep (λ s. ask id s body) standing log.now) }
{
    if let Position::Leader(_) = standing.position {
        return on_forward(alloc, standing, log, body);
    }
    let term = standing.term;
    let known = standing.position.leader();
    match known {
        None => Ok(Step::still(alloc, standing, log)),
        Some(leader) => {
            let (from, to) = (id.value(), leader.value());
            let kind = Kind::Forward(body);
            Step::answering(
                alloc,
                standing,
                log,
                Message {
                    term,
                    from,
                    to,
                    kind,
                },
            )
        }
    }
}

/// Appends a body in the own term.
fn append<B: Wire>(
    alloc: Global,
    standing: Standing,
    log: &Log<B>,
    body: LoggedBody<B>,
) -> Result<Step<B>, AllocError>
    requires { length log.now < entry_limit }
    ensures { IfOk result (IsStep (λ s. appending s body) standing log.now) }
{
    let term = standing.term;
    let mut entries = Vec::with_capacity(alloc, 1)?;
    entries.push(Entry { term, body })?;
    let mut step = Step::still(alloc, standing, log);
    step.entries = entries;
    Ok(step)
}
