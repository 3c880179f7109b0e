//! The journal of a path.
ghost use Rattle.std.specs.Prelude.{◌≡◌, false, IfOk};

use crate::file_disk::FileDisk;
use crate::header::{is_older, renew_header};
use crate::last_error::LastError;
use crate::open_fault::OpenFault;
use crate::system_file::SystemFile;
use journal_store::{Disk, JournalStore};
use raft_log::Log;
use stable_store::StoreFault;
use std::alloc::Global;
use std::fs::{File, Files};
use std::io;
use wire_bytes::Wire;

/// A store in a journal over a file of the system.
pub type FileJournal<B> = JournalStore<B, FileDisk<SystemFile>>;

/// The most bytes of a journal in which nothing may be saved: those of an empty one, and of a first save that a crash
/// cut off.
const MOST_NEW: u64 = 64;

/// Whether a journal's file is so short that nothing may be saved in it.
pub fn may_be_new<B: Wire>(journal: &FileJournal<B>) -> io::Result<bool> {
    Ok(journal.disk().file.len()? <= MOST_NEW)
}

/// The store in the journal of a path, which is made if it does not exist, or if it has at most 9 bytes and is refused,
/// and which is locked until the store is dropped. A journal with the header of the older version gets that of the
/// newer one, once all of it was read. Full blocks of entries that another log has at the same places are shared with
/// it in memory. If it fails, a file that it made is removed.
pub fn open_journal<B: Wire, R: Files<File = File>>(
    rt: &R,
    alloc: Global,
    path: &str,
    beside: &Log<B>,
) -> Result<FileJournal<B>, OpenFault>
    ensures { IfOk result (λ j. j.broken ≡ false) }
{
    let disk = FileDisk::open(rt, alloc, path)?;
    over(rt, alloc, path, disk, beside)
}

/// The store in the journal of a path if the file exists, as for `open_journal`: none is made. Why a call of the file
/// fails is noted in `last_error`.
pub fn open_journal_late<B: Wire, R: Files<File = File>>(
    rt: &R,
    alloc: Global,
    path: &str,
    last_error: LastError,
) -> Result<FileJournal<B>, OpenFault>
    ensures { IfOk result (λ j. j.broken ≡ false) }
{
    let disk = FileDisk::open_late(rt, alloc, path, last_error)?;
    over(rt, alloc, path, disk, &Log::new(alloc))
}

/// The store in the journal on a disk that was opened at a path.
fn over<B: Wire, R: Files<File = File>>(
    rt: &R,
    alloc: Global,
    path: &str,
    disk: FileDisk<SystemFile>,
    beside: &Log<B>,
) -> Result<FileJournal<B>, OpenFault>
    ensures { IfOk result (λ j. j.broken ≡ false) }
{
    let made = match disk.made(alloc, path) {
        Ok(made) => made,
        Err(error) => {
            disk.remove_made(rt, path);
            return Err(OpenFault::System(error));
        }
    };
    let last_error = disk.last_error().map_err(|_| StoreFault::Memory)?;
    match adopt(alloc, disk, beside) {
        Ok(journal) => Ok(journal),
        Err(fault) => {
            if let Some(made) = made {
                let _ = made.remove(rt);
            }
            Err(OpenFault::of_store(fault, last_error.get()))
        }
    }
}

/// The store on a disk, which gets the header of the newer version once all of it was read.
fn adopt<B: Wire, D: Disk>(
    alloc: Global,
    disk: D,
    beside: &Log<B>,
) -> Result<JournalStore<B, D>, StoreFault>
    ensures { IfOk result (λ j. j.broken ≡ false) }
{
    let mut disk = disk;
    if !is_older(alloc, &mut disk)? {
        return JournalStore::adopt_or_make(alloc, disk, beside);
    }
    let whole = JournalStore::adopt_or_make(alloc, disk, beside)?;
    let mut disk = whole.into_disk();
    renew_header(alloc, &mut disk)?;
    JournalStore::adopt_or_make(alloc, disk, beside)
}
