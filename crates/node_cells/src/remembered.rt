//! What a node had in memory when it went down.
ghost use Rattle.std.specs.Prelude.{◌≡◌, ◌-◌, ◌↔◌, IfOk, IsTrue, min};
ghost use Rattle.raft_log.specs.Seen.{seen};
ghost use Rattle.node_cells.specs.Remembering.{Remembers, same_terms};
ghost use Rattle.node_cells.specs.Sending.{terms_of};

use raft_log::{Log, NodeId, NodeState};
use std::alloc::{AllocError, Global};
use wire_bytes::{Number, Wire};

/// What distinguishes a state from the one after a step: of the log only the terms are needed.
#[derive(Drop)]
pub struct Remembered {
    pub boot: Number,
    pub term: Number,
    pub vote: Option<NodeId>,
    pub terms: Vec<Number>,
}

impl Remembered {
    /// Remembers this state.
    pub fn of<B: Wire>(alloc: Global, state: &NodeState<B>) -> Result<Self, AllocError>
        ensures { IfOk result (λ r. Remembers r state.now) }
    {
        let standing = state.standing;
        Ok(Remembered {
            boot: standing.boot,
            term: standing.term,
            vote: standing.vote,
            terms: terms_of(alloc, &state.log)?,
        })
    }

    /// Whether a later run has the same term, vote and terms of entries.
    pub fn is_in<B: Wire>(&self, state: &NodeState<B>) -> bool
        ensures { IsTrue result ↔ (self.now.term ≡ state.now.standing.term)
            × (self.now.vote ≡ state.now.standing.vote)
            × (self.now.terms.items ≡ terms_of state.now.log) }
    {
        let standing = state.standing;
        self.term == standing.term
            && self.vote == standing.vote
            && same_terms(&self.terms, &state.log)
    }

    /// How many runs were begun between this and a later run, up to a limit.
    pub fn runs_until<B: Wire>(&self, state: &NodeState<B>, limit: u64) -> u64
        ensures { result ≡ min (state.now.standing.boot - self.now.boot - 1) limit }
    {
        let boot = state.standing.boot.value();
        boot.saturating_sub(self.boot.value())
            .saturating_sub(1)
            .min(limit)
    }
}

/// The terms of the entries of a log.
fn terms_of<B: Wire>(alloc: Global, log: &Log<B>) -> Result<Vec<Number>, AllocError>
    ensures { IfOk result (λ v. v.items ≡ terms_of log.now) }
{
    let len = log.len().value();
    let mut terms = Vec::with_capacity(alloc, len as usize)?;
    for before in 0..len {
        terms.push(log.term_at(Number::new(before + 1)))?;
    }
    Ok(terms)
}

/// Whether these are the terms of the entries of a log.
fn same_terms<B: Wire>(terms: &[Number], log: &Log<B>) -> bool
    ensures { result ≡ same_terms terms.now log.now }
{
    let len = log.len().value() as usize;
    if terms.len() != len {
        return false;
    }
    for before in 0..len {
        if log.term_at(Number::new(before as u64 + 1)) != terms[before] {
            return false;
        }
    }
    true
}
