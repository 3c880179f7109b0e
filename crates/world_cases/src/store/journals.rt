//! Journals, by examples.
ghost use Rattle.std.specs.Prelude.{◌≡◌, ◌≢◌, ◌≤◌, length, IfOk, IsTrue, List, ℕ, []};
ghost use Rattle.journal_store.specs.Disks.{now};

use bouncer_tower::TowerBody;
use journal_store::{Disk, JournalStore, MemoryDisk, begin, may_follow};
use raft_log::{ENTRY_LIMIT, Entry, Log, LoggedBody};
use stable_store::{Change, Saved, Stable, StoreFault};
use std::alloc::{AllocError, Global};
use std::process::Abort;
use std::test::Fail;
use wire_bytes::{Number, Wire};

/// A journal of one change: boot 1, term 0, no vote, no entries.
const BOOT: [u8; 41] = [
    82, 66, 83, 84, 79, 82, 48, 50, 1, 0, 0, 0, 27, 0, 0, 0, 0, 0, 0, 0, 1, 0, 0, 0, 0, 0, 0, 0, 0,
    0, 0, 0, 0, 0, 0, 0, 0, 0, 0, 0, 0,
];

/// The same, and behind it a change of boot 1, term 1 and a vote for node 2.
const VOTE: [u8; 73] = [
    82, 66, 83, 84, 79, 82, 48, 50, 1, 0, 0, 0, 27, 0, 0, 0, 0, 0, 0, 0, 1, 0, 0, 0, 0, 0, 0, 0, 0,
    0, 0, 0, 0, 0, 0, 0, 0, 0, 0, 0, 1, 0, 0, 0, 27, 0, 0, 0, 0, 0, 0, 0, 1, 0, 0, 0, 0, 0, 0, 0,
    1, 2, 0, 0, 0, 0, 0, 0, 0, 0, 0, 0, 0,
];

/// A disk whose file has these bytes.
fn disk(alloc: Global, bytes: &[u8]) -> Result<MemoryDisk, AllocError>
    ensures honest { IfOk result (λ d. IsTrue (⟦<MemoryDisk as Disk>⟧.honest d)) }
    ensures size { IfOk result
        (λ d. (now (⟦<MemoryDisk as Disk>⟧.states d)).most ≡ length bytes.now) }
{
    Ok(MemoryDisk::new(alloc, bytes.to_vec(alloc)?))
}

/// A change that keeps so many entries, and behind them one of this body where there is one.
fn change(
    alloc: Global,
    numbers: (u64, u64),
    vote: Option<u8>,
    keep: u64,
    body: Option<u8>,
) -> Result<Change<u8>, AllocError>
    requires small { (numbers.0 ≤ 9) × (numbers.1 ≤ 9) × (keep ≤ 9) }
    requires vote { vote ≢ Some 0 }
{
    let (boot, term) = (Number::new(numbers.0), Number::new(numbers.1));
    let mut entries = Vec::with_capacity(alloc, 1)?;
    if let Some(body) = body {
        let body = LoggedBody::new(alloc, body)?;
        entries.push(Entry { term, body })?;
    }
    Ok(Change::new(boot, term, vote, Number::new(keep), entries))
}

/// Saves a change where it may follow.
fn save(
    alloc: Global,
    store: &mut JournalStore<u8, MemoryDisk>,
    numbers: (u64, u64),
    vote: Option<u8>,
    keep: u64,
    body: Option<u8>,
) -> Result<(), StoreFault>
    requires small { (numbers.0 ≤ 9) × (numbers.1 ≤ 9) × (keep ≤ 9) }
    requires vote { vote ≢ Some 0 }
{
    let change = change(alloc, numbers, vote, keep, body)?;
    let stands = store.read()?;
    if may_follow(&stands, &change) {
        store.save(&change)?;
    }
    Ok(())
}

/// A new store.
fn made(alloc: Global) -> Result<JournalStore<u8, MemoryDisk>, StoreFault> {
    JournalStore::make(alloc, disk(alloc, &[])?)
}

/// A store in which boot 1 is saved.
fn booted(alloc: Global) -> Result<JournalStore<u8, MemoryDisk>, StoreFault> {
    let mut store = made(alloc)?;
    save(alloc, &mut store, (1, 0), None, 0, None)?;
    Ok(store)
}

/// A store in which boot 1 is saved, and then a vote for node 2 in term 1.
fn voted(alloc: Global) -> Result<JournalStore<u8, MemoryDisk>, StoreFault> {
    let mut store = booted(alloc)?;
    save(alloc, &mut store, (1, 1), Some(2), 0, None)?;
    Ok(store)
}

/// What a file stands for: boot, term, vote or 0, and how many entries; or why it is refused.
fn found(alloc: Global, file: &[u8]) -> Result<(u64, u64, u8, u64), StoreFault> {
    found_of::<u8>(alloc, file)
}

/// The same of a file with bodies of this kind.
fn found_of<B: Wire>(alloc: Global, file: &[u8]) -> Result<(u64, u64, u8, u64), StoreFault> {
    let store: JournalStore<B, MemoryDisk> = JournalStore::adopt(alloc, disk(alloc, file)?)?;
    let saved = store.read()?;
    let vote = match saved.vote {
        None => 0,
        Some(node) => node.value(),
    };
    Ok((
        saved.boot.value(),
        saved.term.value(),
        vote,
        saved.log.len().value(),
    ))
}

fn check_bytes(rt: &impl Abort, told: &[u8], wanted: &[u8]) {
    assert!(rt; told == wanted);
}

/// A disk that held the beginning of a header, on which a journal was begun.
fn begun(alloc: Global) -> Result<MemoryDisk, Fail> {
    let mut begun = disk(alloc, b"RBSTOR")?;
    begin::<u8, MemoryDisk>(&mut begun)?;
    Ok(begun)
}

fn check_made(rt: &impl Abort, alloc: Global, store: &JournalStore<u8, MemoryDisk>) {
    assert!(rt; store.failures() == 0);
    check_new(rt, alloc, store.disk().bytes());
}

/// The bytes are a header and a closed gate, and stand for nothing.
fn check_new(rt: &impl Abort, alloc: Global, bytes: &[u8]) {
    check_bytes(rt, bytes, b"RBSTOR02\0");
    assert!(rt; found(alloc, bytes) == Ok((0, 0, 0, 0)));
}

/// A new journal is a header and a closed gate, and a change a record behind an open one.
#[test]
fn a_change_is_a_record_behind_an_open_gate(rt: HostRuntime) -> Result<(), Fail> {
    let alloc = rt.alloc();
    check_made(&rt, alloc, &made(alloc)?);
    check_new(&rt, alloc, begun(alloc)?.bytes());
    check_bytes(&rt, booted(alloc)?.disk().bytes(), &BOOT);
    check_bytes(&rt, voted(alloc)?.into_disk().bytes(), &VOTE);
    Ok(())
}

const OTHERS: &[(&[u8], StoreFault)] = &[
    (b"", StoreFault::NotAStore),
    (b"RBSTOR01", StoreFault::NotAStore),
    (b"RBSTOS01\0", StoreFault::NotAStore),
    (b"rbstor02\0", StoreFault::NotAStore),
    (b"RBSTOR00\0", StoreFault::Version),
    (b"RBSTOR03\0", StoreFault::Version),
    (b"RBSTOR12\0", StoreFault::Version),
    (b"RBSTOR01\x02", StoreFault::Damaged(8)),
    (b"RBSTOR02\x01", StoreFault::Damaged(8)),
];

#[test]
fn a_file_stands_for_its_records_up_to_a_closed_gate(rt: HostRuntime) {
    let alloc = rt.alloc();
    assert!(rt; found(alloc, &BOOT) == Ok((1, 0, 0, 0)));
    assert!(rt; found(alloc, &VOTE) == Ok((1, 1, 2, 0)));
    let mut file = VOTE;
    // of before clients had names
    file[7] = 49;
    assert!(rt; found(alloc, &file) == Ok((1, 1, 2, 0)));
    // any other byte than 0 opens a gate, and what follows a closed one counts for nothing
    file[8] = 3;
    assert!(rt; found(alloc, &file) == Ok((1, 1, 2, 0)));
    file[40] = 0;
    assert!(rt; found(alloc, &file) == Ok((1, 0, 0, 0)));
    file[8] = 0;
    assert!(rt; found(alloc, &file) == Ok((0, 0, 0, 0)));
    assert!(rt; found(alloc, &file[..20]) == Ok((0, 0, 0, 0)));
    // another file is no store, or of another version
    for (file, fault) in OTHERS {
        assert!(rt; found(alloc, file) == Err(*fault));
    }
}

#[test]
fn a_record_that_does_not_fit_or_follow_is_damage_at_its_gate(rt: HostRuntime) {
    let alloc = rt.alloc();
    assert!(rt; found(alloc, &BOOT[..20]) == Err(StoreFault::Damaged(8)));
    assert!(rt; found(alloc, &BOOT[..40]) == Err(StoreFault::Damaged(8)));
    assert!(rt; found(alloc, &VOTE[..60]) == Err(StoreFault::Damaged(40)));
    let mut file = BOOT;
    // one byte past the limit of a payload, and a payload that is longer than its change
    file[9] = 2;
    file[12] = 1;
    assert!(rt; found(alloc, &file) == Err(StoreFault::Damaged(8)));
    let mut file = VOTE;
    file[12] = 28;
    assert!(rt; found(alloc, &file) == Err(StoreFault::Damaged(8)));
    // a change that may not follow
    file[12] = 27;
    file[20] = 2;
    assert!(rt; found(alloc, &file) == Err(StoreFault::Damaged(40)));
    file[20] = 1;
    file[28] = 2;
    assert!(rt; found(alloc, &file) == Err(StoreFault::Damaged(40)));
    file[28] = 0;
    file[61] = 8;
    assert!(rt; found(alloc, &file) == Err(StoreFault::Damaged(40)));
    file[61] = 2;
    file[69] = 1;
    assert!(rt; found(alloc, &file) == Err(StoreFault::Damaged(40)));
}

/// The journal of these bytes, adopted or made, in which boot 1 is saved.
fn booted_on(alloc: Global, bytes: &[u8]) -> Result<JournalStore<u8, MemoryDisk>, StoreFault> {
    let mut store = JournalStore::adopt_or_make(alloc, disk(alloc, bytes)?, &Log::new(alloc))?;
    save(alloc, &mut store, (1, 0), None, 0, None)?;
    Ok(store)
}

/// An empty journal keeps its header, and any other file as short becomes a new one.
#[test]
fn a_journal_keeps_its_header(rt: HostRuntime) -> Result<(), Fail> {
    let alloc = rt.alloc();
    let mut older = BOOT;
    older[7] = 49;
    check_bytes(&rt, booted_on(alloc, b"RBSTOR01\0")?.disk().bytes(), &older);
    for file in [b"RBSTOR02\0", b"RBSTOR03\0", b"RBSTOR01\x01"] {
        check_bytes(&rt, booted_on(alloc, file)?.disk().bytes(), &BOOT);
    }
    Ok(())
}

/// A journal of the older version, of one change with one entry: a client attaches with the name `a`.
const NAMED: [u8; 91] = [
    82, 66, 83, 84, 79, 82, 48, 49, 1, 0, 0, 0, 77, 0, 0, 0, 0, 0, 0, 0, 1, 0, 0, 0, 0, 0, 0, 0, 1,
    0, 0, 0, 0, 0, 0, 0, 0, 0, 0, 1, 0, 0, 0, 0, 0, 0, 0, 1, 0, 0, 0, 38, 1, 1, 0, 0, 0, 0, 0, 0,
    0, 1, 0, 0, 0, 0, 0, 0, 0, 1, 0, 0, 0, 0, 0, 0, 0, 1, 0, 0, 0, 0, 101, 83, 241, 0, 15, 0, 1,
    97, 0,
];

#[test]
fn a_journal_of_the_older_version_takes_a_name(rt: HostRuntime) {
    assert!(rt; found_of::<TowerBody>(rt.alloc(), &NAMED) == Ok((1, 1, 0, 1)));
}

/// A store in which entries of the bodies 5 and 6 follow, of which 7 takes the place of the last.
fn with_entries(alloc: Global) -> Result<JournalStore<u8, MemoryDisk>, StoreFault> {
    let mut store = voted(alloc)?;
    save(alloc, &mut store, (1, 1), Some(2), 0, Some(5))?;
    save(alloc, &mut store, (1, 1), Some(2), 1, Some(6))?;
    save(alloc, &mut store, (1, 2), None, 1, Some(7))?;
    Ok(store)
}

/// The same, adopted again, in which boot 2 is saved.
fn booted_again(alloc: Global) -> Result<JournalStore<u8, MemoryDisk>, StoreFault> {
    let mut store = with_entries(alloc)?;
    store.again()?;
    let mut store = JournalStore::adopt(alloc, store.into_disk())?;
    save(alloc, &mut store, (2, 2), None, 2, None)?;
    Ok(store)
}

/// The term and the body of each entry.
fn entries(alloc: Global, saved: &Saved<u8>) -> Result<Vec<(u64, u8)>, AllocError> {
    let mut entries = Vec::new(alloc);
    for entry in &saved.log.copied_behind(Number::new(0), ENTRY_LIMIT)? {
        entries.push((entry.term.value(), *entry.body.get()))?;
    }
    Ok(entries)
}

#[test]
fn entries_are_kept_and_replaced(rt: HostRuntime) -> Result<(), Fail> {
    let saved = booted_again(rt.alloc())?.read()?;
    assert!(rt; (saved.boot.value(), saved.term.value()) == (2, 2));
    let entries = entries(rt.alloc(), &saved)?;
    assert!(rt; entries.as_slice() == [(1, 5), (2, 7)].as_slice());
    Ok(())
}
