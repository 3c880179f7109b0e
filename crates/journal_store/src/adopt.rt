//! Reading again what a disk holds.
ghost use Rattle.std.specs.Prelude.{◌≡◌, ◌≤◌, ◌⊎◌, IsTrue, IfOk, IfErr, OnOk, []};
ghost use Rattle.stable_store.specs.Stores.{HasRisen};
ghost use Rattle.journal_store.specs.Disks.{now, settled_at, Runs};
ghost use Rattle.journal_store.specs.Causes.{HasCause, IsMet};
ghost use Rattle.journal_store.specs.Serving.{IsRefusedAs, IsSettled, StandsFor};

use crate::disk::Disk;
use crate::disk_fault::DiskFault;
use crate::find::find;
use raft_log::Log;
use stable_store::{Saved, StoreFault};
use std::alloc::Global;
use wire_bytes::Wire;

/// Accepts only a disk of which no call failed: the file does not show what a failed call left off the disk.
pub fn check_unfailed<D: Disk>(disk: &D) -> Result<(), StoreFault>
    ensures ok { OnOk result (D.failures disk.now ≡ 0) }
    ensures settled { IsTrue (D.honest disk.now)
        → OnOk result ((now (D.states disk.now)).left ≡ []) }
    ensures err { IfErr result (λ e. e ≡ StoreFault.Device) }
{
    if disk.failures() != 0 {
        return Err(StoreFault::Device);
    }
    Ok(())
}

/// Syncs a disk and reads what its file stands for, and where its closed gate is. What is read is on the disk, if no
/// failed sync left anything.
pub fn read_anew<B: Wire, D: Disk>(
    alloc: Global,
    disk: &mut D,
) -> Result<(Saved<B>, usize), StoreFault>
    ensures runs { IsTrue (D.honest disk.old)
        → Runs (now (D.states disk.old)) (D.states disk.old) (D.states disk.new) }
    ensures settled { IsTrue (D.honest disk.old) → (now (D.states disk.old)).left ≡ []
        → IfOk result (λ r. IsSettled B.taken (D.states disk.new) r.0 r.1) }
    ensures found { IsTrue (D.honest disk.old)
        → IfOk result (λ r. StandsFor B.taken r.0 (now (D.states disk.old)).bytes) }
    ensures fault { IsTrue (D.honest disk.old) → IfErr result
        (λ e. IsMet (D.failures disk.old) (D.failures disk.new) e
        ⊎ IsRefusedAs B.taken (now (D.states disk.old)).bytes e) }
    ensures honest { D.honest disk.new ≡ D.honest disk.old }
    ensures counts { D.failures disk.old ≤ D.failures disk.new }
    ensures passed { OnOk result (D.failures disk.new ≡ D.failures disk.old) }
{
    let file = read_whole(alloc, disk)?;
    let nothing = Log::new(alloc);
    find(alloc, &file, &nothing)
}

/// Syncs a disk and reads its file. What is read is on the disk, if no failed sync left anything.
pub fn read_whole<D: Disk>(alloc: Global, disk: &mut D) -> Result<Vec<u8>, DiskFault>
    ensures runs { IsTrue (D.honest disk.old)
        → Runs (now (D.states disk.old)) (D.states disk.old) (D.states disk.new) }
    ensures settled { IsTrue (D.honest disk.old) → (now (D.states disk.old)).left ≡ []
        → IfOk result (λ v. now (D.states disk.new) ≡ settled_at v.items) }
    ensures read { IsTrue (D.honest disk.old)
        → IfOk result (λ v. v.items ≡ (now (D.states disk.old)).bytes) }
    ensures cause { HasCause (D.failures disk.old) (D.failures disk.new) result }
    ensures honest { D.honest disk.new ≡ D.honest disk.old }
{
    // what is read must stay, whatever a crash leaves later
    disk.sync()?;
    let len = disk.len()?;
    disk.read(alloc, 0, len)
}
