//! The laws of a disk with one file.
ghost use Rattle.std.specs.Prelude.{◌≡◌, ◌≤◌, ◌<◌, ◌^◌, Bool, ℕ, List, IsTrue, IfOk, OnOk};
ghost use Rattle.std.specs.Prelude.{length, take, drop, []};
ghost use Rattle.journal_store.specs.Disks.{DiskState, IsImage, IsSynced, IsWritten, Runs};
ghost use Rattle.journal_store.specs.Disks.{now, writing};
ghost use Rattle.journal_store.specs.Causes.{HasCause};

use crate::disk_fault::DiskFault;
use std::alloc::Global;

/// A disk with one file.
///
/// Its laws hold if it is honest. A call that fails may have done any part of its work. What a crash may leave is known
/// for each moment of a call, not only for its end. A sync that fails may drop what it should have written, though a
/// read still gives it: no later sync brings it back, but a write that covers it does.
pub trait Disk: Drop {
    /// Whether it keeps what is written to it, which no call changes.
    ghost honest: { Self → Bool };

    /// The state at each moment so far, the newest first.
    ghost states: { Self → List DiskState };

    /// How many calls failed, a count that stays at the greatest u64.
    ghost failures: { Self → ℕ };

    /// How many bytes the file has, below 2^63.
    fn len(&mut self) -> Result<usize, DiskFault>
        ensures len { IsTrue (honest self.old)
            → IfOk result (λ n. n ≡ length (now (states self.old)).bytes) }
        ensures limit { IsTrue (honest self.old) → IfOk result (λ n. n < 2 ^ 63) }
        ensures same { IsTrue (honest self.old) → states self.new ≡ states self.old }
        ensures cause { HasCause (failures self.old) (failures self.new) result }
        ensures honest { honest self.new ≡ honest self.old };

    /// This many bytes from a place on, or as many as there are.
    fn read(&mut self, alloc: Global, place: usize, len: usize) -> Result<Vec<u8>, DiskFault>
        ensures bytes { IsTrue (honest self.old) → IfOk result
            (λ v. v.items ≡ take len (drop place (now (states self.old)).bytes)) }
        ensures same { IsTrue (honest self.old) → states self.new ≡ states self.old }
        ensures cause { HasCause (failures self.old) (failures self.new) result }
        ensures honest { honest self.new ≡ honest self.old };

    /// Writes bytes from a place on, over those that are there and past the end. Until a sync a crash may leave
    /// anything in their place.
    fn write_at(&mut self, place: usize, bytes: &[u8]) -> Result<(), DiskFault>
        requires { IsTrue (honest self.old) → place ≤ length (now (states self.old)).bytes }
        ensures runs { IsTrue (honest self.old)
            → Runs (writing place (length bytes.now) (now (states self.old)))
            (states self.old) (states self.new) }
        ensures written { IsTrue (honest self.old)
            → OnOk result (IsWritten place bytes.now (states self.old) (states self.new)) }
        ensures cause { HasCause (failures self.old) (failures self.new) result }
        ensures honest { honest self.new ≡ honest self.old };

    /// After Ok a crash leaves what was written since the last call of sync and, if no failed one left anything, all
    /// that a read gives.
    fn sync(&mut self) -> Result<(), DiskFault>
        ensures runs { IsTrue (honest self.old)
            → Runs (now (states self.old)) (states self.old) (states self.new) }
        ensures synced { IsTrue (honest self.old)
            → OnOk result (IsSynced (states self.old) (states self.new)) }
        ensures cause { HasCause (failures self.old) (failures self.new) result }
        ensures honest { honest self.new ≡ honest self.old };

    /// How many calls failed. If none did, no sync has left anything.
    fn failures(&self) -> u64
        ensures count { result ≡ failures self.now }
        ensures unfailed { IsTrue (honest self.now) → result ≡ 0
            → (now (states self.now)).left ≡ [] };

    /// A crash may leave what a read gives.
    ghost reads_as: { (disk : Self) → IsTrue (honest disk)
        → IsImage (now (states disk)) (now (states disk)).bytes };
}
