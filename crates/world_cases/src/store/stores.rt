//! Stores, by examples.
ghost use Rattle.std.specs.Prelude.{◌≡◌, ◌≢◌, ◌≤◌, length, IfOk, OnOk};
ghost use Rattle.stable_store.specs.Stores.{IsEither, MayFollow, Serves};

use raft_log::{Entry, Log, LoggedBody};
use stable_store::{Change, MemoryStore, Saved, Stable, StoreFault};
use std::alloc::{AllocError, Global};
use std::process::Abort;
use std::test::Fail;
use wire_bytes::{Copied, Number, Wire, WireFault};

/// Boot 1, term 2, a vote for node 3, one entry that is kept, and one of term 2 that follows.
const BYTES: [u8; 40] = [
    0, 0, 0, 0, 0, 0, 0, 1, 0, 0, 0, 0, 0, 0, 0, 2, 3, 0, 0, 0, 0, 0, 0, 0, 1, 0, 1, 0, 0, 0, 0, 0,
    0, 0, 2, 0, 0, 0, 1, 7,
];

fn entry(alloc: Global, term: u8, body: u8) -> Result<Entry<u8>, AllocError> {
    Ok(Entry {
        term: Number::new(term as u64),
        body: LoggedBody::new(alloc, body)?,
    })
}

/// A change of boot 1 and term 2 that keeps so many entries, and one of term 2 that follows.
fn change(alloc: Global, vote: Option<u8>, keep: u8) -> Result<Change<u8>, AllocError>
    requires { vote ≢ Some 0 }
    ensures numbers { IfOk result (λ c. (c.boot ≡ 1) × (c.term ≡ 2)) }
    ensures vote { IfOk result (λ c. c.vote ≡ vote) }
    ensures keep { IfOk result (λ c. (c.keep ≡ keep) × (length c.entries ≡ 1)) }
{
    let entries = vec![in alloc; entry(alloc, 2, 7)?]?;
    let keep = Number::new(keep as u64);
    Ok(Change::new(Number::new(1), Number::new(2), vote, keep, entries))
}

/// Saves a change, and where that fails asks what stands.
fn settled<B: Wire, S: Stable<B>>(store: &mut S, change: &Change<B>) -> Result<(), StoreFault>
    requires serves { Serves (S.condition store.old) }
    requires follows { MayFollow (S.saved store.old) change.now }
    ensures { OnOk result (IsEither (S.saved store.old) change.now (S.saved store.new)) }
{
    if store.save(change).is_err() {
        store.again()?;
    }
    Ok(())
}

/// The spelling of a change.
fn spelled(alloc: Global, vote: Option<u8>) -> Result<Vec<u8>, AllocError>
    requires { vote ≢ Some 0 }
{
    let change = change(alloc, vote, 1)?;
    change.fits();
    let mut out = Vec::new(alloc);
    change.put(&mut out)?;
    Ok(out)
}

/// Boot, term, vote, how many entries are kept, and how many follow.
type Parts = (u64, u64, Option<u8>, u64, usize);

/// How many bytes the change at the front of an input takes, and what a copy of it says.
fn read(alloc: Global, input: &[u8]) -> Result<(usize, Parts), WireFault> {
    let (change, len) = Change::<u8>::take(alloc, input)?;
    let copy = change.copy(alloc)?;
    Ok((len, parts_of(&copy)))
}

fn parts_of(change: &Change<u8>) -> Parts {
    let (boot, term) = (change.boot().value(), change.term().value());
    (
        boot,
        term,
        change.vote(),
        change.keep().value(),
        change.entries().len(),
    )
}

#[test]
fn a_change_is_its_numbers_its_vote_and_its_entries(rt: HostRuntime) -> Result<(), Fail> {
    let bytes = spelled(rt.alloc(), Some(3))?;
    assert!(rt; bytes.as_slice() == BYTES.as_slice());
    assert!(rt; read(rt.alloc(), &BYTES) == Ok((40, (1, 2, Some(3), 1, 1))));
    Ok(())
}

#[test]
fn no_vote_is_a_zero(rt: HostRuntime) -> Result<(), Fail> {
    let mut bytes = BYTES;
    bytes[16] = 0;
    let spelled = spelled(rt.alloc(), None)?;
    assert!(rt; spelled.as_slice() == bytes.as_slice());
    assert!(rt; read(rt.alloc(), &bytes) == Ok((40, (1, 2, None, 1, 1))));
    Ok(())
}

#[test]
fn a_field_of_a_change_is_refused_at_its_place(rt: HostRuntime) {
    let alloc = rt.alloc();
    let mut bytes = BYTES;
    bytes[38] = 2;
    assert!(rt; read(alloc, &bytes) == Err(WireFault::Bad(35)));
    bytes[25] = 1;
    assert!(rt; read(alloc, &bytes) == Err(WireFault::Bad(25)));
    bytes[17] = 0x20;
    assert!(rt; read(alloc, &bytes) == Err(WireFault::Bad(17)));
    bytes[8] = 0x20;
    assert!(rt; read(alloc, &bytes) == Err(WireFault::Bad(8)));
    assert!(rt; read(alloc, &BYTES[..39]) == Err(WireFault::Short));
}

/// Boot, term, and vote or 0.
fn numbers(saved: &Saved<u8>) -> (u64, u64, u8) {
    let vote = match saved.vote {
        None => 0,
        Some(node) => node.value(),
    };
    (saved.boot.value(), saved.term.value(), vote)
}

/// The terms of the log.
fn terms(alloc: Global, saved: &Saved<u8>) -> Result<Vec<u64>, AllocError> {
    let mut terms = Vec::new(alloc);
    for before in 0..saved.log.len().value() {
        terms.push(saved.log.term_at(Number::new(before + 1)).value())?;
    }
    Ok(terms)
}

/// A store reads a boot, a term, a vote or 0, and a log of these terms.
fn check_saved(
    rt: &impl Abort,
    alloc: Global,
    store: &MemoryStore<u8>,
    wanted: (u64, u64, u8),
    terms_wanted: &[u64],
) -> Result<(), StoreFault> {
    let saved = store.read()?;
    assert!(rt; numbers(&saved) == wanted);
    let terms = terms(alloc, &saved)?;
    assert!(rt; terms.as_slice() == terms_wanted);
    Ok(())
}

/// A new store in which boot 1, term 2, a vote for node 3 and an entry are saved.
fn saved_once(alloc: Global) -> Result<MemoryStore<u8>, StoreFault> {
    let mut store = MemoryStore::new(alloc);
    let change = change(alloc, Some(3), 0)?;
    store.save(&change)?;
    Ok(store)
}

#[test]
fn a_memory_store_keeps_what_is_saved(rt: HostRuntime) -> Result<(), Fail> {
    let store = MemoryStore::new(rt.alloc());
    check_saved(&rt, rt.alloc(), &store, (0, 0, 0), &[])?;
    let mut store = saved_once(rt.alloc())?;
    store.again()?;
    check_saved(&rt, rt.alloc(), &store, (1, 2, 3), &[2])?;
    assert!(rt; store.failures() == 0);
    Ok(())
}

/// A log of the bodies 5 and 6, of term 1.
fn two_entries(alloc: Global) -> Result<Log<u8>, AllocError> {
    let mut log = Log::new(alloc);
    for body in [5, 6] {
        if !log.is_full() {
            log.push(entry(alloc, 1, body)?)?;
        }
    }
    Ok(log)
}

/// A store of boot 1, term 1 and a log of at least one entry, of which a change keeps one.
fn settled_over(alloc: Global, log: Log<u8>) -> Result<MemoryStore<u8>, StoreFault>
    requires { 1 ≤ length log }
{
    let (boot, term, vote) = (Number::new(1), Number::new(1), None);
    let saved = Saved {
        boot,
        term,
        vote,
        log,
    };
    let mut store = MemoryStore::holding(alloc, saved);
    let change = change(alloc, None, 1)?;
    settled(&mut store, &change)?;
    Ok(store)
}

#[test]
fn a_save_keeps_entries_and_adds_those_that_follow(rt: HostRuntime) -> Result<(), Fail> {
    let log = two_entries(rt.alloc())?;
    if Number::new(1) <= log.len() {
        let store = settled_over(rt.alloc(), log)?;
        check_saved(&rt, rt.alloc(), &store, (1, 2, 0), &[1, 2])?;
    }
    Ok(())
}

/// A store of what another one reads.
fn held(alloc: Global) -> Result<MemoryStore<u8>, StoreFault> {
    let first = saved_once(alloc)?;
    Ok(MemoryStore::holding(alloc, first.read()?))
}

#[test]
fn a_store_holds_what_it_is_made_of(rt: HostRuntime) -> Result<(), Fail> {
    let store = held(rt.alloc())?;
    Ok(check_saved(&rt, rt.alloc(), &store, (1, 2, 3), &[2])?)
}

#[test]
fn faults_are_numbered_from_1_to_5(rt: HostRuntime) {
    assert!(rt; StoreFault::Device.number() == 1);
    assert!(rt; StoreFault::NotAStore.number() == 2);
    assert!(rt; StoreFault::Version.number() == 3);
    assert!(rt; StoreFault::Damaged(8).number() == 4);
    assert!(rt; StoreFault::Memory.number() == 5);
}
