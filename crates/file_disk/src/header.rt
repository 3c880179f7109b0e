//! The header of a journal of the older version.
ghost use Rattle.std.specs.Prelude.{◌≡◌, IsTrue, IfOk, OnOk};
ghost use Rattle.journal_store.specs.Disks.{now};
ghost use Rattle.journal_store.specs.Journals.{begins};
ghost use Rattle.file_disk.specs.Headers.{AreReadAsBefore, older_header, renewed};

use journal_store::{Disk, DiskFault};
use std::alloc::Global;
use wire_bytes::Wire;

/// What a journal begins with if it was made before clients had names.
const OLDER: [u8; 8] = *b"RBSTOR01";

/// The place of the digit in which the two versions differ.
const DIGIT: usize = 7;

/// The digit of the newer version.
const NEWER: [u8; 1] = *b"2";

/// Whether the file of a disk begins with the header of the older version.
pub fn is_older<D: Disk>(alloc: Global, disk: &mut D) -> Result<bool, DiskFault>
    ensures older { IsTrue (D.honest disk.old) → IfOk result
        (λ older. older ≡ begins older_header (now (D.states disk.old)).bytes) }
    ensures same { IsTrue (D.honest disk.old) → D.states disk.new ≡ D.states disk.old }
    ensures honest { D.honest disk.new ≡ D.honest disk.old }
{
    let head = disk.read(alloc, 0, OLDER.len())?;
    Ok(head.as_slice() == OLDER.as_slice())
}

/// Replaces the header of the older version by that of the newer one, synced. From then on a program that knows only
/// the older version refuses the journal as one of another version, and never mistakes what it does not know for
/// damage. One byte is written; after a crash the disk has its old value or the new one.
pub fn renew_header<D: Disk>(alloc: Global, disk: &mut D) -> Result<(), DiskFault>
    ensures bytes { IsTrue (D.honest disk.old) → OnOk result
        ((now (D.states disk.new)).bytes ≡ renewed (now (D.states disk.old)).bytes) }
    ensures honest { D.honest disk.new ≡ D.honest disk.old }
{
    if !is_older(alloc, disk)? {
        return Ok(());
    }
    disk.write_at(DIGIT, &NEWER)?;
    disk.sync()
}

/// A journal whose header is renewed stands for what it did, or is refused as it was.
pub fn renewed_journals_are_read_alike<B: Wire>()
    ensures { AreReadAsBefore B.taken }
{}
