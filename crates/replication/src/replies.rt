ghost use Rattle.std.specs.Prelude.{◌≡◌, ◌<◌, ◌≤◌, true, length, None, IfSome};
ghost use Rattle.raft_log.specs.Node.{is_leader};
ghost use Rattle.raft_log.specs.Positions.{role_of};
ghost use Rattle.raft_log.specs.Seen.{Becomes};
ghost use Rattle.raft_log.specs.Steps.{IsStep, IsWithinLog};
ghost use Rattle.replication.specs.Replication.{on_append_reply, with_match, advanced};
ghost use Rattle.replication.specs.Replication.{stepped_back};
ghost use Rattle.replication.specs.Committed.{committed_by};

use raft_log::{Log, NodeId, Position, Standing, Step};
use std::alloc::Global;
use wire_bytes::{Number, Wire};

/// Takes the answer to an append of this term, up to a place of the log, as "Leaders" in Figure 2 of the Raft paper
/// says: taken entries raise a node's match and may commit entries; refused ones step its next place back (section
/// 5.3). Needs no memory.
pub fn on_append_reply<B: Wire>(
    alloc: Global,
    standing: Standing,
    log: &Log<B>,
    id: NodeId,
    from: NodeId,
    term: Number,
    ok: bool,
    place: Number,
) -> Step<B>
    requires { IsWithinLog standing log.now }
    ensures { IsStep (λ s. on_append_reply standing.peers.size id s from term ok place)
        standing log.now result }
{
    let known = replied(standing, log, id, from, term, ok, place);
    Step::still(alloc, known, log)
}

/// The standing after the answer.
fn replied<B: Wire>(
    standing: Standing,
    log: &Log<B>,
    id: NodeId,
    from: NodeId,
    term: Number,
    ok: bool,
    place: Number,
) -> Standing
    requires { IsWithinLog standing log.now }
    ensures step { Becomes (λ s. on_append_reply standing.peers.size id s from term ok place)
        standing log.now result }
    ensures saved { (result.boot ≡ standing.boot) × (result.term ≡ standing.term) }
    ensures commit { standing.commit ≤ result.commit }
    ensures places { IsWithinLog result log.now }
{
    if let Position::Leader(_) = standing.position {
        if standing.term == term && place <= log.len() {
            if ok {
                return taken(standing, log, id, from, place);
            }
            return refused(standing, log, from, place);
        }
    }
    standing
}

/// A node's log is the same at least up to a place, and what a majority has may be committed.
fn taken<B: Wire>(
    standing: Standing,
    log: &Log<B>,
    id: NodeId,
    from: NodeId,
    place: Number,
) -> Standing
    requires places { IsWithinLog standing log.now }
    requires leads { is_leader (role_of standing.position) ≡ true }
    requires within { place ≤ length log.now }
    ensures step { Becomes (λ s. advanced standing.peers.size id (with_match s from place))
        standing log.now result }
    ensures saved { (result.boot ≡ standing.boot) × (result.term ≡ standing.term) }
    ensures commit { standing.commit ≤ result.commit }
    ensures places { IsWithinLog result log.now }
{
    // no match is past place 1,000,000
    log.len();
    let reached = Number::new(place.value().max(standing.peers.match_of(from).value()));
    let next = Number::new(reached.value() + 1);
    let mut known = standing;
    known.peers = standing
        .peers
        .with_match(from, reached)
        .with_next(from, next);
    if let Some(commit) = commit_place(&known, log, id) {
        known.commit = commit;
        return known;
    }
    known
}

/// The place before is tried next, if that place was tried last.
fn refused<B: Wire>(standing: Standing, log: &Log<B>, from: NodeId, place: Number) -> Standing
    requires places { IsWithinLog standing log.now }
    requires within { place ≤ length log.now }
    ensures step { Becomes (λ s. stepped_back s from place) standing log.now result }
    ensures saved { (result.boot ≡ standing.boot) × (result.term ≡ standing.term) }
    ensures commit { standing.commit ≤ result.commit }
    ensures places { IsWithinLog result log.now }
{
    let mut known = standing;
    if standing.peers.next_of(from).value() == place.value() + 1 {
        known.peers = standing
            .peers
            .with_next(from, Number::new(place.value().max(1)));
    }
    known
}

/// The largest place above the commit that a majority has, this node's whole log counted, and whose entry has the
/// current term, as section 5.4.2 of the Raft paper requires; none if there is no such place.
#[tactic(auto, using(crate::proofs::Committing::place_none, crate::proofs::Committing::place_yes, crate::proofs::Committing::place_no_term, crate::proofs::Committing::place_no_majority))]
pub fn commit_place<B: Wire>(standing: &Standing, log: &Log<B>, id: NodeId) -> Option<Number>
    ensures some { IfSome result (λ place. place ≡ committed_by standing.now log.now id) }
    ensures within { IfSome result (λ place.
        (standing.now.commit < place) × (place ≤ length log.now)) }
    ensures none { result ≡ None → committed_by standing.now log.now id ≡ standing.now.commit }
{
    let last = log.len();
    let peers = standing.peers.with_match(id, last);
    let mut place = last.value();
    while standing.commit.value() < place {
        let here = Number::new(place);
        if log.term_at(here) == standing.term && peers.majority_has(here) {
            return Some(here);
        }
        place -= 1;
    }
    None
}
