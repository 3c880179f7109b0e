//! A write and the sync after it.
ghost use Rattle.std.specs.Prelude.{◌≡◌, ◌≤◌, ◌<◌, ◌^◌, IsTrue, OnOk, true, [], ◌∷◌, length};
ghost use Rattle.journal_store.specs.Disks.{now, not_covered, writing, written_over};
ghost use Rattle.journal_store.specs.Disks.{Gated, IsGated, IsPut, Runs};
ghost use Rattle.journal_store.specs.Causes.{HasCause};
ghost use Rattle.journal_store.specs.Serving.{is_broken};

use crate::disk::Disk;
use crate::disk_fault::DiskFault;
use crate::known::Known;

/// Writes bytes and syncs. All is synced then, if the write covers what failed syncs left.
pub fn put<D: Disk>(disk: &mut D, place: usize, bytes: &[u8]) -> Result<(), DiskFault>
    requires { IsTrue (D.honest disk.old) → place ≤ length (now (D.states disk.old)).bytes }
    ensures runs { IsTrue (D.honest disk.old)
        → Runs (writing place (length bytes.now) (now (D.states disk.old)))
        (D.states disk.old) (D.states disk.new) }
    ensures written { IsTrue (D.honest disk.old) → OnOk result ((now (D.states disk.new)).bytes
        ≡ written_over (now (D.states disk.old)).bytes place bytes.now) }
    ensures settled { IsTrue (D.honest disk.old)
        → let file = written_over (now (D.states disk.old)).bytes place bytes.now in
        not_covered place (length bytes.now) (length file) (now (D.states disk.old)).left ≡ []
        → OnOk result (IsPut place bytes.now (D.states disk.old) (D.states disk.new)) }
    ensures cause { HasCause (D.failures disk.old) (D.failures disk.new) result }
    ensures honest { D.honest disk.new ≡ D.honest disk.old }
{
    disk.write_at(place, bytes)?;
    disk.sync()
}

/// Writes bytes behind the gate at a place and syncs; then opens the gate and syncs. If the gate were opened before the
/// bytes are synced, a crash could leave an open gate with no record after it. Notes what is known to be on the disk,
/// up to the gate that is opened.
pub fn put_behind_gate<D: Disk>(
    disk: &mut D,
    known: &mut Known,
    place: usize,
    bytes: &[u8],
) -> Result<(), DiskFault>
    requires within { IsTrue (D.honest disk.old) → place < length (now (D.states disk.old)).bytes }
    requires small { place < 2 ^ 63 }
    ensures moments { IsTrue (D.honest disk.old) → (now (D.states disk.old)).left ≡ []
        → Gated place bytes.now (D.states disk.old) (D.states disk.new) known.new }
    ensures broken { is_broken known.new ≡ true }
    ensures settled { IsTrue (D.honest disk.old) → (now (D.states disk.old)).left ≡ []
        → OnOk result (IsGated place bytes.now (D.states disk.old) (D.states disk.new)) }
    ensures cause { HasCause (D.failures disk.old) (D.failures disk.new) result }
    ensures honest { D.honest disk.new ≡ D.honest disk.old }
{
    *known = Known::ToGate;
    put(disk, place + 1, bytes)?;
    *known = Known::ButGate;
    put(disk, place, &[1])
}
