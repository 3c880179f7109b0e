//! Writing again what a failed call may have left off the disk.
ghost use Rattle.std.specs.Prelude.{◌≡◌, ◌≤◌, ◌+◌, ◌⊎◌, IsTrue, IfOk, IfErr, OnOk, [], length};
ghost use Rattle.journal_store.specs.Disks.{now, not_covered, writing, Runs};
ghost use Rattle.journal_store.specs.Causes.{HasCause, IsMet};
ghost use Rattle.journal_store.specs.Serving.{rewriting, IsKnown, IsSettled, StandsFor};

use crate::adopt::read_anew;
use crate::disk::Disk;
use crate::disk_fault::DiskFault;
use crate::known::Known;
use stable_store::{Saved, StoreFault};
use std::alloc::Global;
use wire_bytes::Wire;

/// Makes sure that all of a journal is on its disk, and reads what it stands for, and where its closed gate is.
///
/// What may not be on the disk is written again as it is read, and synced. If the gate were written again while what
/// follows it may be anything, a crash could leave it open; if what follows it were written again while the gate may be
/// open, the record there could be torn. So only what may not be on the disk is written.
pub fn mend<B: Wire, D: Disk>(
    alloc: Global,
    disk: &mut D,
    known: Known,
    gate: usize,
) -> Result<(Saved<B>, usize), StoreFault>
    requires { IsTrue (D.honest disk.old)
        → IsKnown B.taken (D.states disk.old) gate known }
    ensures runs { IsTrue (D.honest disk.old)
        → Runs (rewriting known gate (now (D.states disk.old)))
        (D.states disk.old) (D.states disk.new) }
    ensures settled { IsTrue (D.honest disk.old)
        → IfOk result (λ r. IsSettled B.taken (D.states disk.new) r.0 r.1) }
    ensures found { IsTrue (D.honest disk.old)
        → IfOk result (λ r. StandsFor B.taken r.0 (now (D.states disk.old)).bytes) }
    ensures fault { IsTrue (D.honest disk.old)
        → IfErr result (IsMet (D.failures disk.old) (D.failures disk.new)) }
    ensures honest { D.honest disk.new ≡ D.honest disk.old }
    ensures counts { D.failures disk.old ≤ D.failures disk.new }
    ensures passed { OnOk result (D.failures disk.new ≡ D.failures disk.old) }
{
    write_again::<B, D>(alloc, disk, known, gate)?;
    read_anew(alloc, disk)
}

/// Writes again what may not be on the disk, as it is read.
fn write_again<B: Wire, D: Disk>(
    alloc: Global,
    disk: &mut D,
    known: Known,
    gate: usize,
) -> Result<(), DiskFault>
    requires { IsTrue (D.honest disk.old)
        → IsKnown B.taken (D.states disk.old) gate known }
    ensures runs { IsTrue (D.honest disk.old)
        → Runs (rewriting known gate (now (D.states disk.old)))
        (D.states disk.old) (D.states disk.new) }
    ensures same { IsTrue (D.honest disk.old)
        → OnOk result ((now (D.states disk.new)).bytes ≡ (now (D.states disk.old)).bytes) }
    ensures covered { IsTrue (D.honest disk.old)
        → OnOk result ((now (D.states disk.new)).left ≡ []) }
    ensures cause { HasCause (D.failures disk.old) (D.failures disk.new) result }
    ensures honest { D.honest disk.new ≡ D.honest disk.old }
{
    match known {
        Known::All => Ok(()),
        Known::ToGate => {
            let len = disk.len()?;
            let behind = gate.saturating_add(1);
            rewrite(alloc, disk, behind, len.saturating_sub(behind))
        }
        Known::ButGate => rewrite(alloc, disk, gate, 1),
    }
}

/// Writes this many bytes from a place on over themselves.
fn rewrite<D: Disk>(alloc: Global, disk: &mut D, place: usize, size: usize) -> Result<(), DiskFault>
    requires { IsTrue (D.honest disk.old)
        → place + size ≤ length (now (D.states disk.old)).bytes }
    ensures runs { IsTrue (D.honest disk.old)
        → Runs (writing place size (now (D.states disk.old)))
        (D.states disk.old) (D.states disk.new) }
    ensures same { IsTrue (D.honest disk.old)
        → OnOk result ((now (D.states disk.new)).bytes ≡ (now (D.states disk.old)).bytes) }
    ensures left { IsTrue (D.honest disk.old)
        → let old = now (D.states disk.old) in
        OnOk result ((now (D.states disk.new)).left
        ≡ not_covered place size (length old.bytes) old.left) }
    ensures cause { HasCause (D.failures disk.old) (D.failures disk.new) result }
    ensures honest { D.honest disk.new ≡ D.honest disk.old }
{
    let bytes = disk.read(alloc, place, size)?;
    disk.write_at(place, &bytes)
}
