//! The runs of a log.

use crate::raft::log_pairs::{no_entries, put_behind, repair};
use raft_log::{Entry, Log, LoggedBody, Run};
use std::alloc::{AllocError, Global};
use std::process::Abort;
use std::test::Fail;
use wire_bytes::Number;

/// Whether a run begins at this index, in this term.
fn is_run(runs: &[Run], at: usize, first: u64, term: u64) -> bool {
    at < runs.len() && runs[at].first.value() == first && runs[at].term.value() == term
}

/// Entries of these terms.
fn of_terms(alloc: Global, terms: &[u8]) -> Result<Vec<Entry<u8>>, AllocError> {
    let mut entries = Vec::new(alloc);
    for term in terms {
        let body = LoggedBody::new(alloc, 0)?;
        entries.push(Entry {
            term: Number::new(*term as u64),
            body,
        })?;
    }
    Ok(entries)
}

/// Of a log of terms 1, 1, 2, 2, 2, 4.
fn check_runs(rt: &impl Abort, log: &Log<u8>) {
    let runs = log.runs();
    assert!(rt; runs.len() == 3 && is_run(runs, 0, 1, 1));
    assert!(rt; is_run(runs, 1, 3, 2) && is_run(runs, 2, 6, 4));
    let fifth = Number::new(5);
    assert!(rt; fifth <= log.len() && log.term_at(fifth).value() == 2);
}

/// A run is where the term stays; a repair cuts the last one and begins another.
#[test]
fn a_repair_begins_a_run(rt: HostRuntime) -> Result<(), Fail> {
    let alloc = rt.alloc();
    let mut pair = no_entries(alloc);
    put_behind(alloc, &mut pair, 0, of_terms(alloc, &[1, 1, 2, 2, 2, 4])?)?;
    check_runs(&rt, &pair.log);
    repair(alloc, &mut pair, 3, of_terms(alloc, &[3])?)?;
    let runs = pair.log.runs();
    assert!(rt; runs.len() == 3 && is_run(runs, 0, 1, 1));
    assert!(rt; is_run(runs, 1, 3, 2) && is_run(runs, 2, 4, 3));
    assert!(rt; pair.log.len().value() == 4);
    Ok(())
}
