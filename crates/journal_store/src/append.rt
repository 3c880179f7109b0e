//! A record after the last one of a journal.
ghost use Rattle.std.specs.Prelude.{◌≡◌, ◌≤◌, ◌<◌, ◌^◌, ◌++◌, IsTrue, IfOk, IfErr, OnOk};
ghost use Rattle.std.specs.Prelude.{true, drop, length};
ghost use Rattle.std.specs.Int.{to_be_bytes, w32};
ghost use Rattle.stable_store.specs.declared.saved.Saved.{Saved};
ghost use Rattle.stable_store.specs.Changes.{spelled_change, FitsChange};
ghost use Rattle.stable_store.specs.Stores.{changed, nothing_saved, MayFollow};
ghost use Rattle.journal_store.specs.Disks.{now, Leaves, LeavesOnly};
ghost use Rattle.journal_store.specs.Journals.{staged};
ghost use Rattle.journal_store.specs.Causes.{HasCause, IsMet};
ghost use Rattle.journal_store.specs.Serving.{doubt_of, doubted, is_broken};
ghost use Rattle.journal_store.specs.Serving.{IsBeforeOrAfter, IsNew, IsSettled, IsSound};

use crate::disk::Disk;
use crate::disk_fault::DiskFault;
use crate::known::Known;
use crate::put::{put, put_behind_gate};
use stable_store::{Change, StoreFault};
use std::alloc::{AllocError, Global};
use wire_bytes::Wire;

/// The name, the version and a closed gate.
const EMPTY: [u8; 9] = *b"RBSTOR02\0";

/// How many bytes the length of a payload has.
const LENGTH_BYTES: usize = 4;

/// Writes an empty journal on a disk whose file has at most 9 bytes, synced, and syncs. Whatever a crash leaves at any
/// moment opens as an empty store or is refused, and then it can be made again.
pub fn begin<B: Wire, D: Disk>(disk: &mut D) -> Result<(), DiskFault>
    requires { IsTrue (D.honest disk.old) → (now (D.states disk.old)).most ≤ 9 }
    ensures any_moment { IsTrue (D.honest disk.old)
        → LeavesOnly (IsNew B.taken) (D.states disk.old) (D.states disk.new) }
    ensures settled { IsTrue (D.honest disk.old)
        → OnOk result (IsSettled B.taken (D.states disk.new) nothing_saved 8) }
    ensures cause { HasCause (D.failures disk.old) (D.failures disk.new) result }
    ensures honest { D.honest disk.new ≡ D.honest disk.old }
{
    put(disk, 0, &EMPTY)
}

/// Replaces the first bytes by this length.
fn set_length(bytes: &mut [u8], len: u32)
    requires { 4 ≤ length bytes.old }
    ensures { bytes.new ≡ to_be_bytes w32 len ++ drop 4 bytes.old }
{
    bytes[..LENGTH_BYTES].copy_from_slice(&len.to_be_bytes());
}

/// The length, the payload and a closed gate.
fn record<B: Wire>(alloc: Global, change: &Change<B>) -> Result<Vec<u8>, AllocError>
    ensures bytes { IfOk result (λ r. r.items ≡ staged (spelled_change B.spelled change.now)) }
    ensures fits { FitsChange B.fits B.spelled change.now }
{
    change.fits();
    let mut bytes = Vec::from_slice(alloc, &[0; LENGTH_BYTES])?;
    change.put(&mut bytes)?;
    let len = (bytes.len() - LENGTH_BYTES) as u32;
    set_length(&mut bytes, len);
    bytes.push(0)?;
    Ok(bytes)
}

/// Writes the record of a change behind the closed gate at a place, and opens the gate. Returns the place of the next
/// gate, and notes what is known of the gate at the place, and of what follows it.
pub fn append<B: Wire, D: Disk>(
    alloc: Global,
    disk: &mut D,
    known: &mut Known,
    place: usize,
    change: &Change<B>,
) -> Result<usize, StoreFault>
    requires within { IsTrue (D.honest disk.old) → place < length (now (D.states disk.old)).bytes }
    requires small { place < 2 ^ 63 }
    ensures any_moment { IsTrue (D.honest disk.old) → (s : Saved B)
        → IsSettled B.taken (D.states disk.old) s place → MayFollow s change.now
        → LeavesOnly (IsBeforeOrAfter B.taken s change.now)
        (D.states disk.old) (D.states disk.new) }
    ensures sound { IsTrue (D.honest disk.old) → (s : Saved B)
        → IsSettled B.taken (D.states disk.old) s place → MayFollow s change.now
        → IsSound B.taken (D.states disk.new) s place known.new }
    ensures broken { is_broken known.new ≡ true }
    ensures doubt { IsTrue (D.honest disk.old) → (s : Saved B)
        → IsSettled B.taken (D.states disk.old) s place → MayFollow s change.now
        → Leaves (IsBeforeOrAfter B.taken s change.now)
        (doubted (doubt_of known.new place) (now (D.states disk.new))) }
    ensures settled { IsTrue (D.honest disk.old) → (s : Saved B)
        → IsSettled B.taken (D.states disk.old) s place → MayFollow s change.now
        → IfOk result (IsSettled B.taken (D.states disk.new) (changed s change.now)) }
    ensures fault { IfErr result (IsMet (D.failures disk.old) (D.failures disk.new)) }
    ensures counts { D.failures disk.old ≤ D.failures disk.new }
    ensures passed { OnOk result (D.failures disk.new ≡ D.failures disk.old) }
    ensures honest { D.honest disk.new ≡ D.honest disk.old }
{
    *known = Known::ToGate;
    let bytes = record(alloc, change)?;
    put_behind_gate(disk, known, place, &bytes)?;
    Ok(place + bytes.len())
}
