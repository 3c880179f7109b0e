ghost use Rattle.std.specs.Prelude.{◌≡◌, [], IfOk, All, length, map};
ghost use Rattle.raft_log.specs.Lists.{others};
ghost use Rattle.raft_log.specs.Node.{is_leader};
ghost use Rattle.raft_log.specs.Positions.{role_of};
ghost use Rattle.raft_log.specs.Seen.{node_of};
ghost use Rattle.raft_log.specs.Steps.{IsStep, IsNextWithin, IsWithinLog};
ghost use Rattle.replication.specs.Replication.{append_for, beat};

use raft_log::{BATCH_LIMIT, Batch, Kind, Log, Message, NodeId, Position, Standing, Step};
use std::alloc::{AllocError, Global};
use wire_bytes::{Number, Wire};

/// A leader sends entries to each other node, by rising number, from its next place on, at most `BATCH_LIMIT`: the
/// AppendEntries of section 5.3 of the Raft paper, and its heartbeat (section 5.2). Others do nothing.
pub fn beat<B: Wire>(
    alloc: Global,
    standing: Standing,
    log: &Log<B>,
    id: NodeId,
) -> Result<Step<B>, AllocError>
    requires { IsWithinLog standing log.now }
    ensures { IfOk result (IsStep (beat standing.peers.size id) standing log.now) }
{
    if let Position::Leader(_) = standing.position {
        let messages = appends(alloc, &standing, log, id)?;
        return Ok(Step::sending(standing, log, messages));
    }
    Ok(Step::still(alloc, standing, log))
}

/// The messages of a leader to the other nodes.
fn appends<B: Wire>(
    alloc: Global,
    standing: &Standing,
    log: &Log<B>,
    id: NodeId,
) -> Result<Vec<Message<B>>, AllocError>
    requires { All (IsNextWithin (length log.now)) standing.now.peers.next }
    ensures { IfOk result (λ ms. ms.items ≡ map (append_for id (node_of standing.now log.now []))
        (others standing.now.peers.size id)) }
{
    let nodes = standing.peers.others(alloc, id)?;
    let mut all = Vec::with_capacity(alloc, nodes.len())?;
    for node in &nodes {
        all.push(append_for(standing, log, id, *node)?)?;
    }
    Ok(all)
}

/// The entries from a node's next place on, and the place before them.
fn append_for<B: Wire>(
    standing: &Standing,
    log: &Log<B>,
    id: NodeId,
    node: NodeId,
) -> Result<Message<B>, AllocError>
    requires { All (IsNextWithin (length log.now)) standing.now.peers.next }
    ensures { IfOk result (λ m. m ≡ append_for id (node_of standing.now log.now []) node) }
{
    // no entry is past place 1,000,000
    log.len();
    let next = standing.peers.next_of(node).value();
    let prev = Number::new(next.saturating_sub(1));
    let entries = log.copied_behind(prev, BATCH_LIMIT)?;
    let batch = Batch::new(prev, log.term_at(prev), entries, standing.commit);
    Ok(Message {
        term: standing.term,
        from: id.value(),
        to: node.value(),
        kind: Kind::Append(batch),
    })
}
