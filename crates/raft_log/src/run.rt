ghost use Rattle.std.specs.Prelude.{◌≡◌, ◌+◌, ◌≤◌, ℕ, List, IfOk, length, map, take};
ghost use Rattle.std.specs.Prelude.{◌∷◌, [], ◌++◌, ◌<◌, IsOk, OnErr, OnOk, suc, vec_capacity, vec_len};
ghost use Rattle.raft_log.specs.Runs.{goes_on, last_run, runs_behind, term_runs};
ghost use Rattle.wire_bytes.specs.Limits.{number_limit};

use crate::entry::Entry;
use std::alloc::{AllocError, Global};
use wire_bytes::{Copied, Number, Wire};

/// Entries of one term, up to the next run or the end of the log.
#[derive(Clone, Copy)]
pub struct Run {
    /// The index of the first of them.
    pub first: Number,
    pub term: Number,
}

impl Copied for Run {
    fn copy(&self, _alloc: Global) -> Result<Self, AllocError> {
        Ok(*self)
    }
}

/// How many of the runs begin at or before an index.
pub fn begun_at(runs: &[Run], index: usize) -> usize
    ensures few { result ≤ length runs.now }
    ensures value { (terms : List ℕ) → runs.now ≡ term_runs terms
        → take result runs.now ≡ term_runs (take index terms) }
{
    runs.partition_point(|run| run.first.value() as usize <= index)
}

/// The term of the last run.
pub fn last_term(runs: &[Run]) -> Option<Number>
    ensures { result ≡ last_run runs.now }
{
    match runs.last() {
        Some(run) => Some(run.term),
        None => None,
    }
}

/// Whether an entry of a term continues a run of this one.
fn goes_on(last: Option<Number>, term: Number) -> bool
    ensures { result ≡ goes_on last term }
{
    match last {
        Some(last) => last == term,
        None => false,
    }
}

/// Adds the term of one more entry, at this index. If there is room for a run it can't fail.
pub fn add_term(runs: &mut Vec<Run>, index: Number, term: Number) -> Result<(), AllocError>
    ensures ok { (terms : List ℕ) → runs.old.items ≡ term_runs terms → index ≡ suc (length terms)
        → OnOk result (runs.new.items ≡ term_runs (terms ++ term ∷ [])) }
    ensures err { OnErr result (runs.new.items ≡ runs.old.items) }
    ensures room { vec_len runs.old < vec_capacity runs.old → IsOk result }
{
    if goes_on(last_term(runs), term) {
        return Ok(());
    }
    Ok(runs.push(Run { first: index, term })?)
}

/// The runs of entries that come after this many others, the last of which has this term.
pub fn begun_behind<B: Wire>(
    alloc: Global,
    last: Option<Number>,
    before: usize,
    entries: &[Entry<B>],
) -> Result<Vec<Run>, AllocError>
    requires { before + length entries.now ≤ number_limit }
    ensures { IfOk result (λ v. v.items
        ≡ runs_behind last before (map (λ e. e.term) entries.now)) }
{
    let mut runs = Vec::new(alloc);
    let mut last = last;
    let mut index = before;
    for entry in entries {
        index += 1;
        if last != Some(entry.term) {
            runs.push(Run {
                first: Number::new(index as u64),
                term: entry.term,
            })?;
            last = Some(entry.term);
        }
    }
    Ok(runs)
}
