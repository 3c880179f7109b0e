//! Disks that fail, by examples.
ghost use Rattle.std.specs.Prelude.{◌≡◌, ◌≢◌, ◌≤◌, IfOk};

use fault_disks::{Call, Called, Fails, FaultDisk, Unsynced};
use journal_store::{Disk, DiskFault, JournalStore, MemoryDisk, may_follow};
use stable_store::{Change, Stable, StoreFault};
use std::alloc::{AllocError, Global};
use std::process::Abort;
use std::test::Fail;
use wire_bytes::Number;

/// A journal in which nothing is saved.
const EMPTY: [u8; 9] = *b"RBSTOR02\0";

pub const IMAGES: [Unsynced; 4] = [
    Unsynced::Kept,
    Unsynced::Overwritten(0),
    Unsynced::Overwritten(1),
    Unsynced::Overwritten(255),
];

/// An empty journal on a disk of which these calls fail. To adopt it takes three calls.
pub fn empty(alloc: Global, fails: Fails) -> Result<JournalStore<u8, FaultDisk>, StoreFault> {
    let file = EMPTY.to_vec(alloc)?;
    JournalStore::adopt(alloc, FaultDisk::new(alloc, file, fails))
}

/// Saves this boot where it may follow.
pub fn save(
    alloc: Global,
    store: &mut JournalStore<u8, FaultDisk>,
    boot: u64,
) -> Result<(), StoreFault>
    requires { boot ≤ 9 }
{
    let (boot, term) = (Number::new(boot), Number::new(0));
    let change = Change::new(boot, term, None, Number::new(0), Vec::new(alloc));
    let stands = store.read()?;
    if may_follow(&stands, &change) {
        store.save(&change)?;
    }
    Ok(())
}

/// The boot that a file stands for.
pub fn found(alloc: Global, file: &[u8]) -> Result<u64, StoreFault> {
    let disk = MemoryDisk::new(alloc, file.to_vec(alloc)?);
    let store: JournalStore<u8, MemoryDisk> = JournalStore::adopt(alloc, disk)?;
    Ok(store.read()?.boot.value())
}

/// Saves the boots 1 to 3, stops at the first that fails, and tries once to serve again. Answers how many
/// were saved, and which boot a crash then leaves.
fn saved_and_left(
    alloc: Global,
    fails: Fails,
    unsynced: Unsynced,
) -> Result<(u64, u64), StoreFault> {
    let mut store = empty(alloc, fails)?;
    let mut done = 0;
    let mut failed = false;
    for boot in 1..4 {
        failed = failed || save(alloc, &mut store, boot).is_err();
        if !failed {
            done = boot;
        }
    }
    let _ = store.again();
    let file = store.into_disk().crashed(unsynced)?;
    Ok((done, found(alloc, &file)?))
}

/// The first letter of each call, in upper case where it failed.
fn letters(alloc: Global, calls: &[Called]) -> Result<Vec<u8>, AllocError> {
    let mut letters = Vec::new(alloc);
    for called in calls {
        let letter = match &called.call {
            Call::Len => b'l',
            Call::Read(_, _) => b'r',
            Call::Write(_, _) => b'w',
            Call::Sync => b's',
        };
        letters.push(if called.passed { letter } else { letter - 32 })?;
    }
    Ok(letters)
}

pub fn check_bytes(rt: &impl Abort, told: &[u8], wanted: &[u8]) {
    assert!(rt; told == wanted);
}

/// The calls were these.
pub fn check_calls(
    rt: &impl Abort,
    alloc: Global,
    calls: &[Called],
    wanted: &[u8],
) -> Result<(), AllocError> {
    let letters = letters(alloc, calls)?;
    check_bytes(rt, &letters, wanted);
    Ok(())
}

/// The place and the size of each write.
pub fn writes(alloc: Global, calls: &[Called]) -> Result<Vec<(usize, usize)>, AllocError> {
    let mut writes = Vec::new(alloc);
    for called in calls {
        if let Call::Write(place, bytes) = &called.call {
            writes.push((*place, bytes.len()))?;
        }
    }
    Ok(writes)
}

/// A record and the gate behind it were written, then its gate, however long the file was.
fn check_writes(rt: &impl Abort, alloc: Global, calls: &[Called]) -> Result<(), AllocError> {
    let writes = writes(alloc, calls)?;
    assert!(rt; writes.as_slice() == [(9, 32), (8, 1), (41, 32), (40, 1)].as_slice());
    Ok(())
}

/// A journal in which the boots 1 and 2 were saved, and which was adopted again.
fn saved_twice(alloc: Global) -> Result<JournalStore<u8, FaultDisk>, StoreFault> {
    let mut store = empty(alloc, Fails::Never)?;
    save(alloc, &mut store, 1)?;
    save(alloc, &mut store, 2)?;
    store.again()?;
    Ok(store)
}

#[test]
fn a_save_is_four_calls(rt: HostRuntime) -> Result<(), Fail> {
    let disk = saved_twice(rt.alloc())?.into_disk();
    check_calls(&rt, rt.alloc(), disk.calls(), b"slrwswswswsslr")?;
    Ok(check_writes(&rt, rt.alloc(), disk.calls())?)
}

/// The boot that a store reads.
pub fn boot(store: &JournalStore<u8, FaultDisk>) -> Result<u64, StoreFault> {
    Ok(store.read()?.boot.value())
}

/// A store on a disk of which the fifth call fails meets that error as it saves, and asks nothing from
/// then on.
fn check_broken(
    rt: &impl Abort,
    alloc: Global,
    store: &mut JournalStore<u8, FaultDisk>,
) -> Result<(), AllocError> {
    assert!(rt; save(alloc, store, 1) == Err(StoreFault::Device));
    assert!(rt; store.failures() == 1);
    assert!(rt; boot(store) == Err(StoreFault::Device));
    assert!(rt; save(alloc, store, 1) == Err(StoreFault::Device));
    check_calls(rt, alloc, store.disk().calls(), b"slrwS")
}

/// It serves again, and saves.
fn check_mended(
    rt: &impl Abort,
    alloc: Global,
    store: &mut JournalStore<u8, FaultDisk>,
) -> Result<(), StoreFault> {
    store.again()?;
    assert!(rt; boot(store)? == 0);
    save(alloc, store, 1)?;
    assert!(rt; boot(store)? == 1);
    Ok(())
}

#[test]
fn a_store_that_met_an_error_asks_nothing_until_it_serves_again(
    rt: HostRuntime,
) -> Result<(), Fail> {
    let mut store = empty(rt.alloc(), Fails::Once(4))?;
    check_broken(&rt, rt.alloc(), &mut store)?;
    Ok(check_mended(&rt, rt.alloc(), &mut store)?)
}

/// Whether boot 1 is saved where so many calls of the save pass, and which boot a crash then leaves.
fn stopped(alloc: Global, passed: usize, unsynced: Unsynced) -> Result<(bool, u64), StoreFault>
    requires { passed ≤ 4 }
{
    let mut store = empty(alloc, Fails::From(3 + passed))?;
    let saved = save(alloc, &mut store, 1).is_ok();
    let file = store.into_disk().crashed(unsynced)?;
    Ok((saved, found(alloc, &file)?))
}

#[test]
fn a_save_that_stops_leaves_what_was_before_or_after(rt: HostRuntime) -> Result<(), Fail> {
    // the boot that each kind of image stands for, by how many of the four calls passed
    let left = [
        [0, 0, 0, 0],
        [0, 0, 0, 0],
        [0, 0, 1, 1],
        [1, 0, 1, 1],
        [1, 1, 1, 1],
    ];
    for passed in 0..5 {
        for image in 0..4 {
            let outcome = stopped(rt.alloc(), passed, IMAGES[image])?;
            assert!(rt; outcome == (passed == 4, left[passed][image]));
        }
    }
    Ok(())
}

#[test]
fn whatever_call_fails_each_save_stands_or_does_not(rt: HostRuntime) -> Result<(), Fail> {
    let alloc = rt.alloc();
    // three calls to adopt, four a save, and three to serve again where no save failed
    for call in 3..19 {
        for fails in [Fails::From(call), Fails::Once(call)] {
            for unsynced in IMAGES {
                let (saved, left) = saved_and_left(alloc, fails, unsynced)?;
                assert!(rt; left == saved || (saved < 3 && left == saved + 1));
                assert!(rt; call < 15 || saved == 3);
            }
        }
    }
    Ok(())
}

#[test]
fn a_journal_that_stops_while_it_is_made_is_made_again(rt: HostRuntime) -> Result<(), Fail> {
    let alloc = rt.alloc();
    for call in [0, 1] {
        for unsynced in IMAGES {
            let mut disk = FaultDisk::new(alloc, Vec::new(alloc), Fails::Once(call));
            assert!(rt; journal_store::begin::<u8, FaultDisk>(&mut disk) == Err(DiskFault::Device));
            let file = disk.crashed(unsynced)?;
            assert!(rt; found(alloc, &file).is_err() || found(alloc, &file) == Ok(0));
            assert!(rt; file.len() <= 9);
        }
    }
    Ok(())
}

/// A crash leaves this of a disk.
pub fn check_left(
    rt: &impl Abort,
    disk: &FaultDisk,
    unsynced: Unsynced,
    wanted: &[u8],
) -> Result<(), DiskFault> {
    let file = disk.crashed(unsynced)?;
    check_bytes(rt, &file, wanted);
    Ok(())
}

/// A write that failed counts, changes nothing that is read, and may be torn by a crash.
fn check_failed(rt: &impl Abort, alloc: Global, disk: &mut FaultDisk) -> Result<(), DiskFault> {
    assert!(rt; disk.failures() == 1);
    assert!(rt; disk.len()? == 3);
    check_bytes(rt, &disk.read(alloc, 1, 9)?, b"XY");
    check_left(rt, disk, Unsynced::Kept, b"aXY")?;
    check_left(rt, disk, Unsynced::Overwritten(7), b"aX\x07\x07")
}

#[test]
fn what_is_not_synced_is_kept_or_overwritten(rt: HostRuntime) -> Result<(), Fail> {
    let file = b"abc".to_vec(rt.alloc())?;
    let mut disk = FaultDisk::new(rt.alloc(), file, Fails::Once(2));
    disk.write_at(1, b"XY")?;
    check_left(&rt, &disk, Unsynced::Kept, b"aXY")?;
    check_left(&rt, &disk, Unsynced::Overwritten(7), b"a\x07\x07")?;
    disk.sync()?;
    check_left(&rt, &disk, Unsynced::Overwritten(7), b"aXY")?;
    assert!(rt; disk.write_at(2, b"de") == Err(DiskFault::Device));
    Ok(check_failed(&rt, rt.alloc(), &mut disk)?)
}

#[test]
fn a_disk_fails_as_it_is_told(rt: HostRuntime) {
    assert!(rt; Fails::Never.passes(9));
    assert!(rt; Fails::From(2).passes(1) && !Fails::From(2).passes(3));
    assert!(rt; Fails::Once(2).passes(3) && !Fails::Once(2).passes(2));
    assert!(rt; !Fails::Both(2, 4).passes(2) && Fails::Both(2, 4).passes(3));
    assert!(rt; !Fails::Both(2, 4).passes(4));
}
