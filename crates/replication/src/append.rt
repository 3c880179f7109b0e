ghost use Rattle.std.specs.Prelude.{◌≡◌, ◌+◌, ◌-◌, ◌≤◌, ◌∷◌, [], false, length, drop, IfOk};
ghost use Rattle.raft_log.specs.Logs.{agrees_at, conflicts_within};
ghost use Rattle.raft_log.specs.Node.{is_leader};
ghost use Rattle.raft_log.specs.Positions.{role_of};
ghost use Rattle.raft_log.specs.Steps.{IsStep, IsSending};
ghost use Rattle.replication.specs.Replication.{on_append, accepted, appended, reply};

use raft_log::{Batch, Kind, Log, Message, NodeId, Position, Standing, Step};
use std::alloc::{AllocError, Global};
use wire_bytes::{Number, Wire};

/// Takes the entries of a leader whose term is not larger, as a receiver of AppendEntries does in Figure 2 of the Raft
/// paper (section 5.3). A smaller term is refused; else the sender is the known leader from then on.
///
/// Entries that conflict with committed ones are ignored. No node sends any.
pub fn on_append<B: Wire>(
    alloc: Global,
    standing: Standing,
    log: &Log<B>,
    id: NodeId,
    from: NodeId,
    term: Number,
    batch: Batch<B>,
) -> Result<Step<B>, AllocError>
    ensures { IfOk result (IsStep (λ s. on_append id s from term
        batch.prev_index batch.prev_term batch.entries batch.commit) standing log.now) }
{
    if term < standing.term {
        return answer(alloc, standing, log, id, from, false, Number::new(0));
    }
    if let Position::Leader(_) = standing.position {
        return Ok(Step::still(alloc, standing, log));
    }
    let follower = Standing {
        position: Position::Follower(Some(from)),
        ..standing
    };
    accept(alloc, follower, log, id, from, batch)
}

/// Takes the entries of the known leader, or refuses them.
fn accept<B: Wire>(
    alloc: Global,
    standing: Standing,
    log: &Log<B>,
    id: NodeId,
    from: NodeId,
    batch: Batch<B>,
) -> Result<Step<B>, AllocError>
    requires { is_leader (role_of standing.position) ≡ false }
    ensures { IfOk result (IsStep (λ s. accepted id s from
        batch.prev_index batch.prev_term batch.entries batch.commit) standing log.now) }
{
    let prev = batch.prev_index();
    if !log.agrees_at(prev, batch.prev_term()) {
        return answer(alloc, standing, log, id, from, false, prev);
    }
    let committed = standing.commit.value().saturating_sub(prev.value()) as usize;
    if log.conflicts_within(prev, batch.entries(), committed) {
        return Ok(Step::still(alloc, standing, log));
    }
    append(alloc, standing, log, id, from, batch)
}

/// Takes entries that follow a place of the log, and the sender's commit as far as they reach.
fn append<B: Wire>(
    alloc: Global,
    standing: Standing,
    log: &Log<B>,
    id: NodeId,
    from: NodeId,
    batch: Batch<B>,
) -> Result<Step<B>, AllocError>
    requires follows { is_leader (role_of standing.position) ≡ false }
    requires within { batch.prev_index ≤ length log.now }
    requires kept { conflicts_within (drop batch.prev_index log.now) batch.entries
        (standing.commit - batch.prev_index) ≡ false }
    ensures { IfOk result (IsStep (λ s. appended id s from
        batch.prev_index batch.entries batch.commit) standing log.now) }
{
    let prev = batch.prev_index();
    let reached = prev.value() + batch.entries().len() as u64;
    let known = batch.commit().value().min(reached);
    let commit = standing.commit.value().max(known);
    let (keep, entries) = log.repaired(prev, batch.into_entries());
    let mut taken = standing;
    taken.commit = Number::new(commit);
    let mut step = answer(alloc, taken, log, id, from, true, Number::new(reached))?;
    step.keep = keep;
    step.entries = entries;
    Ok(step)
}

/// Whether entries were taken, and up to which place.
fn answer<B: Wire>(
    alloc: Global,
    standing: Standing,
    log: &Log<B>,
    id: NodeId,
    from: NodeId,
    ok: bool,
    place: Number,
) -> Result<Step<B>, AllocError>
    ensures { IfOk result (IsSending standing log.now (reply standing.term id from ok place ∷ [])) }
{
    Step::answering(
        alloc,
        standing,
        log,
        Message {
            term: standing.term,
            from: id.value(),
            to: from.value(),
            kind: Kind::AppendReply { ok, place },
        },
    )
}
