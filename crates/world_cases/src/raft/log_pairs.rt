//! A log beside a plain list of its entries.

use raft_log::{ENTRY_LIMIT, Entry, Log, LoggedBody, Run};
use std::alloc::{AllocError, Global};
use std::test::Fail;
use wire_bytes::{Copied, Number, copied_all};

/// Indexes at the ends of blocks.
const ENDS: [usize; 9] = [1022, 1023, 1024, 1025, 1026, 2047, 2048, 2049, 2050];

/// A log, and a plain list of what it is to hold.
#[derive(Drop)]
pub struct Pair {
    pub log: Log<u8>,
    list: Vec<Entry<u8>>,
}

/// A copy of both.
fn copied(alloc: Global, pair: &Pair) -> Result<Pair, AllocError> {
    let log = pair.log.copy(alloc)?;
    let list = copied_all(alloc, &pair.list)?;
    Ok(Pair { log, list })
}

/// The next of numbers without much order.
fn next(seed: &mut u64) -> u64 {
    *seed = seed
        .wrapping_mul(6_364_136_223_846_793_005)
        .wrapping_add(1_442_695_040_888_963_407);
    *seed >> 33
}

/// So many entries, mostly of one term.
fn some_entries(alloc: Global, seed: &mut u64, count: u64) -> Result<Vec<Entry<u8>>, AllocError> {
    let mut entries = Vec::new(alloc);
    let most = 1 + next(seed) % 6;
    for _ in 0..count {
        let other = next(seed) % 16 == 0;
        let term = Number::new(if other { 7 } else { most });
        let body = LoggedBody::new(alloc, (next(seed) % 256) as u8)?;
        entries.push(Entry { term, body })?;
    }
    Ok(entries)
}

/// How many of the entries stand behind so many of a list, up to the first of another term.
fn standing(list: &[Entry<u8>], prev: usize, entries: &[Entry<u8>]) -> usize {
    if prev > list.len() {
        return 0;
    }
    let rest = &list[prev..];
    for count in 0..entries.len() {
        if count >= rest.len() || rest[count].term != entries[count].term {
            return count;
        }
    }
    entries.len()
}

/// A list takes entries behind so many as a log does.
fn repair_list(
    list: &mut Vec<Entry<u8>>,
    prev: usize,
    mut entries: Vec<Entry<u8>>,
) -> Result<(), AllocError> {
    let count = standing(list, prev, &entries);
    if count < entries.len() && prev < list.len() + 1 && count <= list.len() - prev {
        entries.drain(..count);
        list.truncate(prev + count);
        list.append(&mut entries)?;
    }
    Ok(())
}

/// The log is repaired, and so is the list.
pub fn repair(
    alloc: Global,
    pair: &mut Pair,
    prev: usize,
    entries: Vec<Entry<u8>>,
) -> Result<(), AllocError> {
    let len = pair.log.len().value() as usize;
    if prev <= len && entries.len() <= ENTRY_LIMIT - len {
        repair_list(&mut pair.list, prev, copied_all(alloc, &entries)?)?;
        pair.log.repair(Number::new(prev as u64), entries)?;
    }
    Ok(())
}

/// These entries stand behind so many, in both.
pub fn put_behind(
    alloc: Global,
    pair: &mut Pair,
    keep: usize,
    entries: Vec<Entry<u8>>,
) -> Result<(), AllocError> {
    let len = pair.log.len().value() as usize;
    if keep <= len && entries.len() <= ENTRY_LIMIT - len {
        let mut added = copied_all(alloc, &entries)?;
        pair.list.truncate(keep);
        pair.list.append(&mut added)?;
        pair.log.put_behind(Number::new(keep as u64), entries)?;
    }
    Ok(())
}

/// An entry more, in both.
fn push(alloc: Global, pair: &mut Pair, entry: Entry<u8>) -> Result<(), AllocError> {
    if !pair.log.is_full() {
        pair.list.push(entry.copy(alloc)?)?;
        pair.log.push(entry)?;
    }
    Ok(())
}

/// A number of entries to keep: the end of a block, a few before the last, or all.
fn place(seed: &mut u64, len: usize) -> usize {
    let place = match next(seed) % 3 {
        0 => ENDS[(next(seed) % 9) as usize],
        1 => len.saturating_sub((next(seed) % 4) as usize),
        _ => len.saturating_sub((next(seed) % 300) as usize),
    };
    place.min(len)
}

/// Entries of the log behind a place, the last few of them other ones.
fn nearly_standing(
    alloc: Global,
    seed: &mut u64,
    log: &Log<u8>,
    prev: usize,
) -> Result<Vec<Entry<u8>>, AllocError> {
    let mut entries = Vec::new(alloc);
    if prev <= log.len().value() as usize {
        entries = log.copied_behind(Number::new(prev as u64), (next(seed) % 200) as usize)?;
    }
    let count = next(seed) % 40;
    let mut others = some_entries(alloc, seed, count)?;
    entries.append(&mut others)?;
    Ok(entries)
}

/// One change of some kind.
fn change(alloc: Global, seed: &mut u64, pair: &mut Pair) -> Result<(), AllocError> {
    let len = pair.list.len();
    if len > 2_300 {
        let keep = ENDS[(next(seed) % 5) as usize];
        return put_behind(alloc, pair, keep, Vec::new(alloc));
    }
    let prev = place(seed, len);
    match next(seed) % 4 {
        0 => {
            for entry in some_entries(alloc, seed, 3)? {
                push(alloc, pair, entry)?;
            }
            Ok(())
        }
        1 => {
            let count = next(seed) % 256;
            let entries = some_entries(alloc, seed, count)?;
            put_behind(alloc, pair, len, entries)
        }
        2 => {
            let count = next(seed) % 20;
            let entries = some_entries(alloc, seed, count)?;
            put_behind(alloc, pair, prev, entries)
        }
        _ => {
            let entries = nearly_standing(alloc, seed, &pair.log, prev)?;
            repair(alloc, pair, prev, entries)
        }
    }
}

/// Whether the log has the terms and the bodies of the list.
fn has_entries(log: &Log<u8>, list: &[Entry<u8>]) -> bool {
    if log.len().value() as usize != list.len() {
        return false;
    }
    for before in 0..list.len() {
        let entry = &list[before];
        let index = Number::new(before as u64 + 1);
        if log.term_at(index) != entry.term || *log.body(index).get() != *entry.body.get() {
            return false;
        }
    }
    true
}

/// Whether the log ends as the list, and agrees with it at its end in no other term.
fn has_last(log: &Log<u8>, list: &[Entry<u8>]) -> bool {
    let (index, term) = log.last();
    let want = match list.last() {
        Some(entry) => entry.term,
        None => Number::new(0),
    };
    let other = Number::new(9);
    index.value() as usize == list.len()
        && term == want
        && log.agrees_at(index, want)
        && (list.is_empty() || !log.agrees_at(index, other))
}

/// Whether copies behind a place are those of the list.
fn has_copies(log: &Log<u8>, list: &[Entry<u8>], behind: usize) -> Result<bool, AllocError> {
    if behind > list.len() || log.len().value() as usize != list.len() {
        return Ok(false);
    }
    let copied = log.copied_behind(Number::new(behind as u64), 40)?;
    let rest = &list[behind..];
    let most = rest.len().min(40);
    Ok(are_same(&copied, &rest[..most]))
}

/// Whether these are the same terms and bodies.
fn are_same(some: &[Entry<u8>], others: &[Entry<u8>]) -> bool {
    if some.len() != others.len() {
        return false;
    }
    for place in 0..some.len() {
        let (a, b) = (&some[place], &others[place]);
        if a.term != b.term || *a.body.get() != *b.body.get() {
            return false;
        }
    }
    true
}

/// Whether these are the runs of the list: one begins wherever the term is another than before it.
fn has_runs(runs: &[Run], list: &[Entry<u8>]) -> bool {
    let mut run = 0;
    for place in 0..list.len() {
        let begins = place == 0 || list[place - 1].term != list[place].term;
        if begins {
            if run >= runs.len()
                || runs[run].first.value() as usize != place + 1
                || runs[run].term != list[place].term
            {
                return false;
            }
            run += 1;
        }
    }
    run == runs.len()
}

/// Whether each answer of the log is that of the list.
fn is_same(seed: &mut u64, pair: &Pair) -> Result<bool, AllocError> {
    let behind = place(seed, pair.list.len());
    Ok(
        has_entries(&pair.log, &pair.list)
            && has_last(&pair.log, &pair.list)
            && has_copies(&pair.log, &pair.list, behind)?
            && has_runs(pair.log.runs(), &pair.list),
    )
}

/// A log without entries.
pub fn no_entries(alloc: Global) -> Pair {
    Pair {
        log: Log::new(alloc),
        list: Vec::new(alloc),
    }
}

/// Repairs, appends and copies change a log as they change a plain list, and no copy changes with it.
#[test]
fn a_log_is_the_list_of_its_entries(rt: HostRuntime) -> Result<(), Fail> {
    let alloc = rt.alloc();
    let mut seed = 1;
    let mut pair = no_entries(alloc);
    let entries = some_entries(alloc, &mut seed, 1_020)?;
    put_behind(alloc, &mut pair, 0, entries)?;
    let mut copy = copied(alloc, &pair)?;
    for count in 0..2_000u64 {
        change(alloc, &mut seed, &mut pair)?;
        assert!(rt; is_same(&mut seed, &pair)?);
        if count % 10 == 0 {
            // the copy is as it was, and goes on as the log
            assert!(rt; is_same(&mut seed, &copy)?);
            copy = copied(alloc, &pair)?;
        }
        if count % 30 == 7 {
            pair = copied(alloc, &copy)?;
        }
    }
    Ok(())
}
