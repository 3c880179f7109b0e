//! Logs and messages, by examples.
ghost use Rattle.std.specs.Prelude.{◌≡◌};

use raft_log::{Batch, Entry, Kind, Log, LoggedBody, Message, NodeId};
use std::alloc::{AllocError, Global};
use std::process::Abort;
use std::test::Fail;
use wire_bytes::{Copied, Number, Wire, WireFault};

fn entry(alloc: Global, term: u8, body: u8) -> Result<Entry<u8>, AllocError> {
    Ok(Entry {
        term: Number::new(term as u64),
        body: LoggedBody::new(alloc, body)?,
    })
}

fn place(place: u8) -> Number
    ensures { result ≡ place }
{
    Number::new(place as u64)
}

/// A log of these terms, whose bodies are 0.
fn log_of(alloc: Global, terms: &[u8]) -> Result<Log<u8>, AllocError> {
    let mut log = Log::new(alloc);
    for term in terms {
        if !log.is_full() {
            log.push(entry(alloc, *term, 0)?)?;
        }
    }
    Ok(log)
}

/// Whether a log is of these terms.
fn has_terms(log: &Log<u8>, terms: &[u64]) -> bool {
    if log.len().value() as usize != terms.len() {
        return false;
    }
    for before in 0..terms.len() {
        if log.term_at(Number::new(before as u64 + 1)).value() != terms[before] {
            return false;
        }
    }
    true
}

/// Whether a log of terms 1, 1, 2 has these terms once an entry of this term came behind a place of it.
fn is_repaired(alloc: Global, prev: u8, term: u8, terms: &[u64]) -> Result<bool, AllocError> {
    let mut log = log_of(alloc, &[1, 1, 2])?;
    let entries = vec![in alloc; entry(alloc, term, 0)?]?;
    if place(prev) <= log.len() {
        log.repair(place(prev), entries)?;
    }
    Ok(has_terms(&log, terms))
}

/// Whether it has these terms once entries of terms 3 and 4 took the place of what stood behind place 2.
fn is_replaced(alloc: Global, terms: &[u64]) -> Result<bool, AllocError> {
    let mut log = log_of(alloc, &[1, 1, 2])?;
    if place(2) <= log.len() {
        let entries = [entry(alloc, 3, 0)?, entry(alloc, 4, 0)?];
        log.replace_from(place(2), &entries)?;
    }
    Ok(has_terms(&log, terms))
}

/// An append that stands already changes nothing, a conflict goes with all behind it, a missing entry is added, and
/// what follows a place is replaced.
#[test]
fn a_log_is_repaired_and_replaced(rt: HostRuntime) -> Result<(), Fail> {
    let alloc = rt.alloc();
    assert!(rt; is_repaired(alloc, 1, 1, &[1, 1, 2])?);
    assert!(rt; is_repaired(alloc, 1, 3, &[1, 3])?);
    assert!(rt; is_repaired(alloc, 3, 2, &[1, 1, 2, 2])?);
    assert!(rt; is_replaced(alloc, &[1, 1, 3, 4])?);
    Ok(())
}

const ENTRY: &[u8] = &[0, 0, 0, 0, 0, 0, 0, 2, 0, 0, 0, 1, 7];

/// Whether the entry of term 2 and body 7 is spelled so.
fn is_spelled(alloc: Global, spelling: &[u8]) -> Result<bool, AllocError> {
    let mut out = Vec::new(alloc);
    entry(alloc, 2, 7)?.put(&mut out)?;
    Ok(out.as_slice() == spelling)
}

/// Whether this is the entry of term 2 and body 7.
fn is_it(entry: &Entry<u8>) -> bool {
    entry.term.value() == 2 && *entry.body.get() == 7
}

/// Whether it stands at the front of an input, in so many bytes.
fn is_read(alloc: Global, input: &[u8], len: usize) -> Result<bool, WireFault> {
    let (entry, read_len) = Entry::<u8>::take(alloc, input)?;
    Ok(is_it(&entry) && read_len == len)
}

fn is_copied(alloc: Global) -> Result<bool, AllocError> {
    let copy = entry(alloc, 2, 7)?.copy(alloc)?;
    Ok(is_it(&copy))
}

/// Inputs with a length of 2, whole and cut, one of 65,537, and a term past the limit, and what is wrong
/// with each.
const FAULTS: &[(&[u8], WireFault)] = &[
    (&[0, 0, 0, 0, 0, 0, 0, 2, 0, 0, 0, 2, 2], WireFault::Bad(8)),
    (&[0, 0, 0, 0, 0, 0, 0, 2, 0, 0, 0, 2], WireFault::Short),
    (&[0, 0, 0, 0, 0, 0, 0, 2, 0, 1, 0, 2], WireFault::Bad(8)),
    (
        &[0x20, 0, 0, 0, 0, 0, 0, 2, 0, 1, 0, 2, 2],
        WireFault::Bad(0),
    ),
];

/// What is wrong with an input, if no entry is at its front.
fn fault<B: Wire>(alloc: Global, input: &[u8]) -> Option<WireFault> {
    Entry::<B>::take(alloc, input).err()
}

#[test]
fn a_field_of_an_entry_is_refused_at_its_place(rt: HostRuntime) {
    let bytes = [0, 0, 0, 0, 0, 0, 0, 2, 0, 0, 0, 1, 2];
    assert!(rt; fault::<bool>(rt.alloc(), &bytes) == Some(WireFault::Bad(12)));
    for (input, want) in FAULTS {
        assert!(rt; fault::<u8>(rt.alloc(), input) == Some(*want));
    }
}

/// Of a log of terms 1, 1, 2, beside entries of terms 1, 3.
fn check_log(rt: &impl Abort, log: &Log<u8>, entries: &[Entry<u8>]) {
    assert!(rt; !log.up_to_date(place(5), Number::new(1)));
    assert!(rt; !log.up_to_date(place(2), Number::new(2)));
    assert!(rt; log.up_to_date(place(3), Number::new(2)));
    assert!(rt; log.up_to_date(place(1), Number::new(3)));
    let (index, term) = log.last();
    assert!(rt; index.value() == 3 && term.value() == 2);
    if place(2) <= log.len() && !entries.is_empty() {
        assert!(rt; log.standing(place(1), entries) == 1);
        assert!(rt; log.conflicts_within(place(1), entries, 2));
        assert!(rt; !log.conflicts_within(place(1), entries, 1));
        assert!(rt; !log.conflicts_within(place(1), &entries[..1], 2));
    }
}

/// Of a log of terms 1, 2, with which its copy agrees at place 1.
fn check_copied(rt: &impl Abort, alloc: Global, log: &Log<u8>) -> Result<(), Fail> {
    assert!(rt; log.agrees_at(place(0), Number::new(0)));
    assert!(rt; log.agrees_at(place(0), Number::new(7)));
    assert!(rt; log.agrees_at(place(2), Number::new(2)));
    assert!(rt; !log.agrees_at(place(1), Number::new(2)));
    assert!(rt; !log.agrees_at(place(3), Number::new(2)));
    let copy = log.copy(alloc)?;
    assert!(rt; copy.agrees_at(place(1), Number::new(1)));
    Ok(())
}

/// A log of two entries.
fn looked_at(alloc: Global) -> Result<Log<u8>, AllocError> {
    let mut log = Log::new(alloc);
    if !log.is_full() {
        log.push(entry(alloc, 1, 7)?)?;
    }
    if !log.is_full() {
        log.push(entry(alloc, 2, 8)?)?;
    }
    Ok(log)
}

/// Whether so many entries are copied behind a place, at most so many; none of a log without that place.
fn copies(log: &Log<u8>, behind: u8, most: usize, want: usize) -> Result<bool, AllocError> {
    if place(behind) > log.len() {
        return Ok(false);
    }
    let copied = log.copied_behind(place(behind), most)?;
    Ok(copied.len() == want)
}

fn check_looked_at(rt: &impl Abort, log: &Log<u8>) -> Result<(), Fail> {
    if place(2) <= log.len() {
        assert!(rt; *log.body(place(1)).get() == 7);
        assert!(rt; *log.body(place(2)).get() == 8);
    }
    assert!(rt; copies(log, 0, 1, 1)?);
    assert!(rt; copies(log, 1, 9, 1)?);
    assert!(rt; copies(log, 2, 1, 0)?);
    Ok(())
}

#[test]
fn logs_are_compared_copied_and_looked_at(rt: HostRuntime) -> Result<(), Fail> {
    check_log(
        &rt,
        &log_of(rt.alloc(), &[1, 1, 2])?,
        &[entry(rt.alloc(), 1, 0)?, entry(rt.alloc(), 3, 0)?],
    );
    check_copied(&rt, rt.alloc(), &log_of(rt.alloc(), &[1, 2])?)?;
    check_looked_at(&rt, &looked_at(rt.alloc())?)
}

/// An append of node 1 in term 5, of one entry behind place 3 of term 2.
fn append(alloc: Global) -> Result<Message<u8>, AllocError> {
    let entries = vec![in alloc; entry(alloc, 4, 9)?]?;
    let batch = Batch::new(Number::new(3), Number::new(2), entries, Number::new(1));
    Ok(Message {
        term: Number::new(5),
        from: 1,
        to: 2,
        kind: Kind::Append(batch),
    })
}

/// Whether this is that append.
fn is_append(message: &Message<u8>) -> bool {
    match &message.kind {
        Kind::Append(batch) => {
            message.term.value() == 5 && message.from == 1 && message.to == 2 && is_batch(batch)
        }
        _ => false,
    }
}

fn is_batch(batch: &Batch<u8>) -> bool {
    batch.prev_index().value() == 3
        && batch.prev_term().value() == 2
        && batch.commit().value() == 1
        && batch.entries().len() == 1
}

/// Whether the copy of that append is that append.
fn is_message_copied(alloc: Global) -> Result<bool, AllocError> {
    let message = append(alloc)?;
    let copy = message.copy(alloc)?;
    Ok(is_append(&copy))
}

/// An entry is its term, and its body behind a length; a message is copied with its entries.
#[test]
fn entries_are_spelled_and_messages_copied(rt: HostRuntime) -> Result<(), Fail> {
    assert!(rt; is_spelled(rt.alloc(), ENTRY)?);
    assert!(rt; is_read(rt.alloc(), ENTRY, 13)?);
    assert!(rt; is_copied(rt.alloc())?);
    assert!(rt; is_message_copied(rt.alloc())?);
    assert!(rt; NodeId::new(7).value() == 7 && NodeId::new(1) != NodeId::new(2));
    Ok(())
}
