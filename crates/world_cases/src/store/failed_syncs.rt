//! What a failed sync leaves off a disk, by examples.
use crate::store::disks::{
    IMAGES, boot, check_bytes, check_calls, check_left, empty, found, save, writes,
};
use fault_disks::{Fails, FaultDisk, Unsynced};
use journal_store::{Disk, DiskFault, JournalStore};
use stable_store::{Stable, StoreFault};
use std::alloc::Global;
use std::test::Fail;

/// Boot 1 is saved over a disk of which these calls fail, and then it serves again, at the second try at the latest.
fn mended(alloc: Global, fails: Fails) -> Result<JournalStore<u8, FaultDisk>, StoreFault> {
    let mut store = empty(alloc, fails)?;
    let _ = save(alloc, &mut store, 1);
    if store.again().is_err() {
        store.again()?;
    }
    Ok(store)
}

/// Which boot stands once it serves again, and which one a crash leaves after the boots 2 and 3 were saved.
fn mended_and_left(
    alloc: Global,
    fails: Fails,
    unsynced: Unsynced,
) -> Result<(u64, u64), StoreFault> {
    let mut store = mended(alloc, fails)?;
    let stood = boot(&store)?;
    save(alloc, &mut store, 2)?;
    save(alloc, &mut store, 3)?;
    let file = store.into_disk().crashed(unsynced)?;
    Ok((stood, found(alloc, &file)?))
}

/// Which boot a crash leaves where a save fails, and then the first try to serve again.
fn left_between(alloc: Global, fails: Fails, unsynced: Unsynced) -> Result<u64, StoreFault> {
    let mut store = empty(alloc, fails)?;
    let saved = save(alloc, &mut store, 1);
    let again = store.again();
    if saved.is_ok() || again.is_ok() {
        return Err(StoreFault::Memory);
    }
    let file = store.into_disk().crashed(unsynced)?;
    found(alloc, &file)
}

/// A save of which one call fails, how many calls it takes to serve again, and the boot that stands then: the record is
/// written and synced by the calls 3 and 4, its gate by 5 and 6, and where the gate's sync failed it is read open.
const FAILED: [(usize, usize, u64); 4] = [(3, 6, 0), (4, 6, 0), (5, 5, 0), (6, 5, 1)];

#[test]
fn what_a_failed_sync_dropped_is_written_again(rt: HostRuntime) -> Result<(), Fail> {
    let alloc = rt.alloc();
    for (call, _, stands) in FAILED {
        for unsynced in IMAGES {
            let outcome = mended_and_left(alloc, Fails::Once(call), unsynced)?;
            assert!(rt; outcome == (stands, 3));
        }
    }
    Ok(())
}

#[test]
fn whatever_call_of_a_try_to_serve_again_fails_the_next_one_mends(
    rt: HostRuntime,
) -> Result<(), Fail> {
    let alloc = rt.alloc();
    for (call, calls, stands) in FAILED {
        for other in call + 1..call + calls + 1 {
            for unsynced in IMAGES {
                let fails = Fails::Both(call, other);
                assert!(rt; mended_and_left(alloc, fails, unsynced)? == (stands, 3));
                // behind a gate that is on the disk nothing counts; one that may not be is open or closed
                let left = left_between(alloc, fails, unsynced)?;
                assert!(rt; left == 0 || (call > 4 && left == 1));
            }
        }
    }
    Ok(())
}

/// What stands is written again in this order, and nothing else is.
#[test]
fn only_what_may_not_be_on_the_disk_is_written_again(rt: HostRuntime) -> Result<(), Fail> {
    let alloc = rt.alloc();
    // the record is read and written behind its gate
    let disk = mended(alloc, Fails::Once(4))?.into_disk();
    check_calls(&rt, alloc, disk.calls(), b"slrwSlrwslr")?;
    let written = writes(alloc, disk.calls())?;
    assert!(rt; written.as_slice() == [(9, 32), (9, 32)].as_slice());
    // the gate is read and written alone
    let disk = mended(alloc, Fails::Once(6))?.into_disk();
    check_calls(&rt, alloc, disk.calls(), b"slrwswSrwslr")?;
    let written = writes(alloc, disk.calls())?;
    assert!(rt; written.as_slice() == [(9, 32), (8, 1), (8, 1)].as_slice());
    Ok(())
}

/// A sync that failed drops what was written: a read gives it still, but a later sync does not bring it back.
#[test]
fn what_a_failed_sync_drops_is_lost_until_it_is_written_again(rt: HostRuntime) -> Result<(), Fail> {
    let mut disk = FaultDisk::new(rt.alloc(), b"abc".to_vec(rt.alloc())?, Fails::Once(1));
    disk.write_at(0, b"XY")?;
    assert!(rt; disk.sync() == Err(DiskFault::Device));
    check_bytes(&rt, &disk.read(rt.alloc(), 0, 3)?, b"XYc");
    disk.sync()?;
    check_left(&rt, &disk, Unsynced::Overwritten(7), b"\x07\x07c")?;
    // a write of a part does not cover it
    disk.write_at(0, b"X")?;
    disk.sync()?;
    check_left(&rt, &disk, Unsynced::Overwritten(7), b"\x07\x07c")?;
    disk.write_at(0, b"XY")?;
    disk.sync()?;
    check_left(&rt, &disk, Unsynced::Overwritten(7), b"XYc")?;
    Ok(())
}
