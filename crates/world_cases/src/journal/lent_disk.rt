//! A disk that is lent to a store.
ghost use Rattle.std.specs.Prelude.{◌≡◌};

use fault_disks::FaultDisk;
use journal_store::{Disk, DiskFault};
use std::alloc::Global;

/// A disk that is lent, so that it can be looked at once its store is gone.
#[derive(Drop)]
pub struct LentDisk<'a> {
    pub disk: &'a mut FaultDisk,
}

impl<'a> Disk for LentDisk<'a> {
    ghost use Rattle.std.specs.Prelude.{true};
    ghost use Rattle.fault_disks.specs.Calls.{failed, moments};
    ghost use Rattle.fault_disks.specs.CallLaws.{own_image};

    ghost honest = { λ _. true };

    ghost states = { λ d. moments d.disk.now };

    ghost failures = { λ d. failed d.disk.now.calls };

    fn len(&mut self) -> Result<usize, DiskFault> {
        self.disk.len()
    }

    fn read(&mut self, alloc: Global, place: usize, len: usize) -> Result<Vec<u8>, DiskFault> {
        self.disk.read(alloc, place, len)
    }

    fn write_at(&mut self, place: usize, bytes: &[u8]) -> Result<(), DiskFault> {
        self.disk.write_at(place, bytes)
    }

    fn sync(&mut self) -> Result<(), DiskFault> {
        self.disk.sync()
    }

    fn failures(&self) -> u64 {
        self.disk.failures()
    }

    ghost reads_as = { λ d h. own_image d.disk.now.first d.disk.now.calls };
}
