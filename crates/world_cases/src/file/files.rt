//! Journals over files of the system, by examples.
use crate::file::fault_file::FaultFile;
use fault_disks::{Fails, FaultDisk};
use file_disk::{FileDisk, FileJournal, OpenFault, open_journal};
use journal_store::{Disk, DiskFault, JournalStore};
use raft_log::Log;
use stable_store::{Change, Stable, StoreFault};
use std::alloc::Global;
use std::fs::{self, Permissions};
use std::os::unix::fs::{MetadataExt, PermissionsExt, symlink};
use std::process::Abort;
use std::test::Fail;
use wire_bytes::Number;

const SAVED: &str = "file_cases_saved";

const HELD: &str = "file_cases_held";

const FOUND: &str = "file_cases_found";

/// A journal of one change: boot 1, term 0, no vote, no entries.
const BOOT: [u8; 41] = [
    82, 66, 83, 84, 79, 82, 48, 50, 1, 0, 0, 0, 27, 0, 0, 0, 0, 0, 0, 0, 1, 0, 0, 0, 0, 0, 0, 0, 0,
    0, 0, 0, 0, 0, 0, 0, 0, 0, 0, 0, 0,
];

/// Saves boot 1.
fn save(alloc: Global, store: &mut FileJournal<u8>) -> Result<(), StoreFault> {
    let (boot, term) = (Number::new(1), Number::new(0));
    let change = Change::new(boot, term, None, Number::new(0), Vec::new(alloc));
    store.save(&change)
}

/// The boot in the journal of a path, or why it is not opened.
fn boot(rt: &HostRuntime, path: &str) -> Result<u64, OpenFault> {
    let store: FileJournal<u8> = open_journal(rt, rt.alloc(), path, &Log::new(rt.alloc()))?;
    Ok(store.read()?.boot.value())
}

/// The same in words, where the file has these bytes.
fn opened(rt: &HostRuntime, path: &str, bytes: &[u8]) -> Result<String, Fail> {
    fs::write(rt, path, bytes)?;
    Ok(match boot(rt, path) {
        Ok(boot) => format!(in rt.alloc(); "boot {boot}")?,
        Err(fault) => format!(in rt.alloc(); "{fault}")?,
    })
}

/// How the journal of a path is opened, or why it is not.
fn outcome(rt: &HostRuntime, path: &str) -> &'static str {
    match boot(rt, path) {
        Ok(_) => "opened",
        Err(OpenFault::InUse) => "in use",
        Err(OpenFault::NotAFile) => "not a file",
        Err(OpenFault::System(_)) => "system",
        Err(_) => "another fault",
    }
}

fn check_bytes(rt: &impl Abort, told: &[u8], wanted: &[u8]) {
    assert!(rt; told == wanted);
}

fn check_text(rt: &impl Abort, told: &str, wanted: &str) {
    assert!(rt; told == wanted);
}

/// Saves boot 1 in the journal of a path, which serves again. Answers how many calls failed.
fn saved(rt: &HostRuntime, path: &str) -> Result<u64, Fail> {
    let mut store: FileJournal<u8> = open_journal(rt, rt.alloc(), path, &Log::new(rt.alloc()))?;
    save(rt.alloc(), &mut store)?;
    store.again()?;
    Ok(store.failures())
}

#[test]
fn a_journal_over_a_file_keeps_what_is_saved(rt: HostRuntime) -> Result<(), Fail> {
    let _ = fs::remove_dir_all(&rt, SAVED);
    fs::create_dir(&rt, SAVED)?;
    let path = "file_cases_saved/node-1";
    assert!(rt; saved(&rt, path)? == 0);
    check_bytes(&rt, &fs::read(&rt, path)?, &BOOT);
    assert!(rt; boot(&rt, path)? == 1);
    fs::remove_dir_all(&rt, SAVED)?;
    Ok(())
}

/// How the journal of a path is opened while it is open.
fn opened_twice(rt: &HostRuntime, path: &str) -> Result<&'static str, Fail> {
    let store: FileJournal<u8> = open_journal(rt, rt.alloc(), path, &Log::new(rt.alloc()))?;
    let outcome = outcome(rt, path);
    drop(store);
    Ok(outcome)
}

#[test]
fn a_journal_is_opened_once(rt: HostRuntime) -> Result<(), Fail> {
    let _ = fs::remove_dir_all(&rt, HELD);
    fs::create_dir(&rt, HELD)?;
    let path = "file_cases_held/node-1";
    assert!(rt; opened_twice(&rt, path)? == "in use");
    assert!(rt; boot(&rt, path)? == 0);
    assert!(rt; outcome(&rt, HELD) == "system");
    assert!(rt; outcome(&rt, "/dev/null") == "not a file");
    assert!(rt; outcome(&rt, "file_cases_held/no/node-1") == "system");
    fs::remove_dir_all(&rt, HELD)?;
    Ok(())
}

#[test]
fn a_short_file_becomes_a_journal_and_a_longer_one_stays(rt: HostRuntime) -> Result<(), Fail> {
    let _ = fs::remove_dir_all(&rt, FOUND);
    fs::create_dir(&rt, FOUND)?;
    let path = "file_cases_found/node-1";
    check_text(&rt, &opened(&rt, path, b"")?, "boot 0");
    check_bytes(&rt, &fs::read(&rt, path)?, b"RBSTOR02\0");
    check_text(&rt, &opened(&rt, path, b"RBSTOR01\x01")?, "boot 0");
    check_bytes(&rt, &fs::read(&rt, path)?, b"RBSTOR02\0");
    // a journal of before clients had names is of the newer version once it was read
    check_text(&rt, &opened(&rt, path, b"RBSTOR01\0")?, "boot 0");
    check_bytes(&rt, &fs::read(&rt, path)?, b"RBSTOR02\0");
    let damaged = "the journal cannot be read: the store is damaged at byte 8";
    check_text(&rt, &opened(&rt, path, b"RBSTOR01\x01\0")?, damaged);
    check_bytes(&rt, &fs::read(&rt, path)?, b"RBSTOR01\x01\0");
    check_text(&rt, &opened(&rt, path, &BOOT)?, "boot 1");
    fs::remove_dir_all(&rt, FOUND)?;
    Ok(())
}

/// A disk over a file of which these calls fail.
fn disk(alloc: Global, fails: Fails) -> Result<FileDisk<FaultFile>, Fail> {
    let disk = FaultDisk::new(alloc, BOOT.to_vec(alloc)?, fails);
    Ok(FileDisk::new(FaultFile { alloc, disk }))
}

/// A read of a disk from a place on gives these bytes, where at most 6 are asked for.
fn check_read(
    rt: &impl Abort,
    alloc: Global,
    disk: &mut FileDisk<FaultFile>,
    place: usize,
    wanted: &[u8],
) -> Result<(), DiskFault> {
    let bytes = disk.read(alloc, place, 6)?;
    check_bytes(rt, &bytes, wanted);
    Ok(())
}

/// Of a disk over a file of 41 bytes the second call fails, and is counted.
fn check_disk(
    rt: &impl Abort,
    alloc: Global,
    disk: &mut FileDisk<FaultFile>,
) -> Result<(), DiskFault> {
    assert!(rt; disk.len()? == 41);
    assert!(rt; disk.sync() == Err(DiskFault::Device));
    assert!(rt; disk.failures() == 1);
    check_read(rt, alloc, disk, 0, b"RBSTOR")?;
    check_read(rt, alloc, disk, 39, b"\0\0")?;
    check_read(rt, alloc, disk, 60, b"")
}

/// The boot of the journal on a disk, and how many of its calls failed.
fn adopted(alloc: Global, disk: FileDisk<FaultFile>) -> Result<(u64, u64), StoreFault> {
    let store: JournalStore<u8, FileDisk<FaultFile>> = JournalStore::adopt_or_make(
        alloc,
        disk,
        &Log::new(alloc),
    )?;
    Ok((store.read()?.boot.value(), store.failures()))
}

#[test]
fn a_disk_over_a_file_reads_it_and_counts_what_fails(rt: HostRuntime) -> Result<(), Fail> {
    let mut failed = disk(rt.alloc(), Fails::Once(1))?;
    check_disk(&rt, rt.alloc(), &mut failed)?;
    // what that call left is not known from the file
    assert!(rt; adopted(rt.alloc(), failed) == Err(StoreFault::Device));
    assert!(rt; adopted(rt.alloc(), disk(rt.alloc(), Fails::Never)?)? == (1, 0));
    Ok(())
}

const COPIED: &str = "file_cases_copied";

/// The number by which the system knows the file of a path.
fn inode(rt: &HostRuntime, path: &str) -> Result<u64, Fail> {
    Ok(fs::metadata(rt, path)?.ino())
}

/// A journal that was there is a new file at its path once it is opened, with the bytes and the mode of the old one,
/// and a link to it stays. An empty one is the old file.
#[test]
fn a_journal_that_was_there_is_copied_as_it_is_opened(rt: HostRuntime) -> Result<(), Fail> {
    let _ = fs::remove_dir_all(&rt, COPIED);
    fs::create_dir(&rt, COPIED)?;
    let path = "file_cases_copied/node-1";
    let link = "file_cases_copied/link";
    let beside = "file_cases_copied/node-1.copy";
    check_text(&rt, &opened(&rt, path, b"")?, "boot 0");
    let empty = inode(&rt, path)?;
    assert!(rt; boot(&rt, path)? == 0);
    assert!(rt; inode(&rt, path)? == empty);
    fs::write(&rt, path, BOOT)?;
    fs::set_permissions(&rt, path, Permissions::from_mode(0o640))?;
    fs::write(&rt, beside, b"a leftover")?;
    symlink(&rt, "node-1", link)?;
    assert!(rt; boot(&rt, link)? == 1);
    assert!(rt; inode(&rt, path)? != empty);
    assert!(rt; fs::symlink_metadata(&rt, link)?.is_symlink());
    assert!(rt; fs::metadata(&rt, path)?.permissions().mode() & 0o777 == 0o640);
    assert!(rt; !fs::exists(&rt, beside)?);
    check_bytes(&rt, &fs::read(&rt, path)?, &BOOT);
    fs::remove_dir_all(&rt, COPIED)?;
    Ok(())
}
