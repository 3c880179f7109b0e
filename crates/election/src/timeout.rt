ghost use Rattle.std.specs.Prelude.{◌≡◌, IfOk};
ghost use Rattle.raft_log.specs.Steps.{Prepares, IsSavable, KeepsWithinLog};
ghost use Rattle.election.specs.Elections.{timed_out, vote_requests};

use raft_log::{Kind, Log, Message, NodeId, Peers, Position, Standing, Step};
use std::alloc::{AllocError, Global};
use wire_bytes::{LAST_NUMBER, Number, Wire};

/// Begins an election, as a candidate does by section 5.2 of the Raft paper: the next term, a vote for itself, and a
/// request for the vote of each other node, by rising number.
///
/// A leader does nothing, and no term follows 2^60.
pub fn begin<B: Wire>(
    alloc: Global,
    standing: Standing,
    log: &Log<B>,
    id: NodeId,
) -> Result<Step<B>, AllocError>
    ensures step { IfOk result (Prepares (timed_out standing.peers.size id) standing log.now) }
    ensures savable { IfOk result (IsSavable standing log.now) }
    ensures places { IfOk result (KeepsWithinLog standing log.now) }
{
    // a timeout may come late, once the node was elected
    if let Position::Leader(_) = standing.position {
        return Ok(Step::still(alloc, standing, log));
    }
    let term = standing.term.value();
    if LAST_NUMBER <= term {
        return Ok(Step::still(alloc, standing, log));
    }
    let next = Number::new(term + 1);
    let (last_index, last_term) = log.last();
    let messages = vote_requests(alloc, standing.peers, id, next, last_index, last_term)?;
    let begun = Standing {
        term: next,
        vote: Some(id),
        position: Position::Candidate,
        peers: standing.peers.only(id),
        ..standing
    };
    Ok(Step::sending(begun, log, messages))
}

/// The messages to the other nodes, by rising number.
fn vote_requests<B: Wire>(
    alloc: Global,
    peers: Peers,
    id: NodeId,
    term: Number,
    last_index: Number,
    last_term: Number,
) -> Result<Vec<Message<B>>, AllocError>
    ensures { IfOk result (λ ms. ms.items ≡ vote_requests peers.size id term last_index last_term) }
{
    let nodes = peers.others(alloc, id)?;
    let mut all = Vec::with_capacity(alloc, nodes.len())?;
    for node in &nodes {
        let kind = Kind::RequestVote {
            last_index,
            last_term,
        };
        all.push(Message {
            term,
            from: id.value(),
            to: node.value(),
            kind,
        })?;
    }
    Ok(all)
}
