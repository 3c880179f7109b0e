//! The laws of an open file.
ghost use Rattle.std.specs.Prelude.{◌≡◌, ◌≤◌, ◌<◌, ◌^◌, Bool, List, IsTrue, IfOk, OnOk};
ghost use Rattle.std.specs.Prelude.{length, take, drop};
ghost use Rattle.journal_store.specs.Disks.{DiskState, IsImage, IsSynced, IsWritten, Runs};
ghost use Rattle.journal_store.specs.Disks.{now, writing};

use std::io;

/// An open file, as a disk uses it.
///
/// Its laws hold if it is honest. A call that fails may have done any part of its work. A sync that fails may drop what
/// it should have written, as `Disk` says.
pub trait DiskFile: Drop {
    /// Whether it keeps what is written to it, which no call changes.
    ghost honest: { Self → Bool };

    /// The state at each moment so far, the newest first.
    ghost states: { Self → List DiskState };

    /// How many bytes it has, below 2^63.
    fn size(&mut self) -> io::Result<u64>
        ensures size { IsTrue (honest self.old)
            → IfOk result (λ n. n ≡ length (now (states self.old)).bytes) }
        ensures limit { IsTrue (honest self.old) → IfOk result (λ n. n < 2 ^ 63) }
        ensures same { IsTrue (honest self.old) → states self.new ≡ states self.old }
        ensures honest { honest self.new ≡ honest self.old };

    /// Fills a buffer with the bytes from a place on. An error if there are not as many.
    fn fill(&mut self, place: u64, buffer: &mut [u8]) -> io::Result<()>
        ensures bytes { IsTrue (honest self.old) → OnOk result
            (buffer.new ≡ take (length buffer.old) (drop place (now (states self.old)).bytes)) }
        ensures same { IsTrue (honest self.old) → states self.new ≡ states self.old }
        ensures honest { honest self.new ≡ honest self.old };

    /// Writes all of these bytes from a place on, over those that are there and past the end. Until a sync a crash may
    /// leave anything in their place.
    fn write(&mut self, place: u64, bytes: &[u8]) -> io::Result<()>
        requires { IsTrue (honest self.old) → place ≤ length (now (states self.old)).bytes }
        ensures runs { IsTrue (honest self.old)
            → Runs (writing place (length bytes.now) (now (states self.old)))
            (states self.old) (states self.new) }
        ensures written { IsTrue (honest self.old)
            → OnOk result (IsWritten place bytes.now (states self.old) (states self.new)) }
        ensures honest { honest self.new ≡ honest self.old };

    /// After Ok a crash leaves what was written since the last call of sync and, if no failed one left anything, all
    /// that a read gives.
    fn sync(&mut self) -> io::Result<()>
        ensures runs { IsTrue (honest self.old)
            → Runs (now (states self.old)) (states self.old) (states self.new) }
        ensures synced { IsTrue (honest self.old)
            → OnOk result (IsSynced (states self.old) (states self.new)) }
        ensures honest { honest self.new ≡ honest self.old };

    /// A crash may leave what a read gives.
    ghost reads_as: { (file : Self) → IsTrue (honest file)
        → IsImage (now (states file)) (now (states file)).bytes };
}
