//! A file for tests, which fails as it is told.
ghost use Rattle.std.specs.Prelude.{◌≡◌};

use fault_disks::FaultDisk;
use file_disk::DiskFile;
use journal_store::Disk;
use std::alloc::Global;
use std::io;

/// A file that is as honest as a disk in memory.
#[derive(Drop)]
pub struct FaultFile {
    pub alloc: Global,
    pub disk: FaultDisk,
}

impl DiskFile for FaultFile {
    ghost use Rattle.std.specs.Prelude.{true};
    ghost use Rattle.fault_disks.specs.Calls.{moments};
    ghost use Rattle.fault_disks.specs.CallLaws.{own_image};

    ghost honest = { λ _. true };

    ghost states = { λ f. moments f.disk };

    fn size(&mut self) -> io::Result<u64> {
        match self.disk.len() {
            Ok(len) => Ok(len as u64),
            Err(_) => Err(io::ErrorKind::Other.into()),
        }
    }

    fn fill(&mut self, place: u64, buffer: &mut [u8]) -> io::Result<()> {
        let Ok(bytes) = self.disk.read(self.alloc, place as usize, buffer.len()) else {
            return Err(io::ErrorKind::Other.into());
        };
        if bytes.len() != buffer.len() {
            return Err(io::ErrorKind::UnexpectedEof.into());
        }
        buffer.copy_from_slice(&bytes);
        Ok(())
    }

    fn write(&mut self, place: u64, bytes: &[u8]) -> io::Result<()> {
        match self.disk.write_at(place as usize, bytes) {
            Ok(()) => Ok(()),
            Err(_) => Err(io::ErrorKind::Other.into()),
        }
    }

    fn sync(&mut self) -> io::Result<()> {
        match self.disk.sync() {
            Ok(()) => Ok(()),
            Err(_) => Err(io::ErrorKind::Other.into()),
        }
    }

    ghost reads_as = { λ f h. own_image f.disk.first f.disk.calls };
}
