ghost use Rattle.std.specs.Prelude.{◌≡◌, [], true, IfOk};
ghost use Rattle.raft_log.specs.declared.position.Position.TheVariants.{Candidate};
ghost use Rattle.raft_log.specs.Lists.{with_item};
ghost use Rattle.raft_log.specs.Seen.{Becomes, node_of};
ghost use Rattle.raft_log.specs.Steps.{Prepares, IsSavable, IsWithinLog, KeepsWithinLog};
ghost use Rattle.election.specs.Elections.{on_request_vote, on_vote, elected, grants};

use raft_log::{Kind, Log, Message, NodeId, Position, Standing, Step};
use std::alloc::{AllocError, Global};
use wire_bytes::{Number, Wire};

/// Answers a request for a vote, of a term that is not larger than the node's own, with the node's
/// own term, as a receiver of RequestVote does in Figure 2 of the Raft paper.
///
/// Granted if the term is the node's own, it has not voted for another (section 5.2), and the candidate's log is at
/// least as up to date (section 5.4.1).
pub fn on_request_vote<B: Wire>(
    alloc: Global,
    standing: Standing,
    log: &Log<B>,
    id: NodeId,
    from: NodeId,
    term: Number,
    last_index: Number,
    last_term: Number,
) -> Result<Step<B>, AllocError>
    ensures step { IfOk result (Prepares
        (λ s. on_request_vote id s from term last_index last_term) standing log.now) }
    ensures savable { IfOk result (IsSavable standing log.now) }
    ensures places { IfOk result (KeepsWithinLog standing log.now) }
{
    let mut voted = standing;
    let granted = grants(&standing, log, from, term, last_index, last_term);
    if granted {
        voted.vote = Some(from);
    }
    Step::answering(
        alloc,
        voted,
        log,
        Message {
            term: voted.term,
            from: id.value(),
            to: from.value(),
            kind: Kind::Vote { granted },
        },
    )
}

/// Whether a candidate gets the vote.
fn grants<B: Wire>(
    standing: &Standing,
    log: &Log<B>,
    from: NodeId,
    term: Number,
    last_index: Number,
    last_term: Number,
) -> bool
    ensures { result ≡ grants (node_of standing.now log.now []) from term last_index last_term }
{
    let free = match standing.vote {
        None => true,
        Some(other) => other == from,
    };
    standing.term == term && free && log.up_to_date(last_index, last_term)
}

/// Takes an answer to a request for a vote. A majority makes a candidate the leader of its term: section
/// 5.2 of the Raft paper. It then sends to each node from the end of its log on (Figure 2).
///
/// A node is counted once, however often it answers. Nothing is sent, and nothing is saved.
pub fn on_vote<B: Wire>(
    standing: Standing,
    log: &Log<B>,
    from: NodeId,
    term: Number,
    granted: bool,
) -> Standing
    ensures step { Becomes (λ s. on_vote standing.peers.size s from term granted)
        standing log.now result }
    ensures saved { (result.boot ≡ standing.boot) × (result.term ≡ standing.term) }
    ensures commit { result.commit ≡ standing.commit }
    ensures places { IsWithinLog standing log.now → IsWithinLog result log.now }
{
    if let Position::Candidate = standing.position {
        if standing.term == term && granted {
            return counted(standing, log, from);
        }
    }
    standing
}

/// The standing with the vote of a node, leading if that makes a majority.
fn counted<B: Wire>(standing: Standing, log: &Log<B>, from: NodeId) -> Standing
    requires { standing.position ≡ Candidate }
    ensures step { Becomes
        (λ s. elected standing.peers.size (record s { voters = with_item s.voters from true }))
        standing log.now result }
    ensures saved { (result.boot ≡ standing.boot) × (result.term ≡ standing.term) }
    ensures commit { result.commit ≡ standing.commit }
    ensures places { IsWithinLog standing log.now → IsWithinLog result log.now }
{
    let peers = standing.peers.with_vote(from);
    if peers.is_elected() {
        let next = Number::new(log.len().value() + 1);
        Standing {
            position: Position::Leader(None),
            peers: peers.leading(next),
            ..standing
        }
    } else {
        Standing { peers, ..standing }
    }
}
