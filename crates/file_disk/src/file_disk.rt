//! A disk over an open file.
ghost use Rattle.std.specs.Prelude.{◌≡◌, ◌≢◌, IsTrue, []};
ghost use Rattle.journal_store.specs.Causes.{HasCause};
ghost use Rattle.journal_store.specs.Disks.{now};
ghost use Rattle.journal_store.specs.declared.disk_fault.DiskFault.TheVariants.{Device};

use crate::disk_file::DiskFile;
use journal_store::{Disk, DiskFault};
use std::alloc::Global;
use std::marker::Model;

/// A disk over an open file, which counts the calls of the file that fail. It is honest if its file is.
#[derive(Drop)]
pub struct FileDisk<F: DiskFile> {
    pub(crate) file: F,
    pub(crate) failures: u64,
}

impl<F: DiskFile> Model for FileDisk<F> {
    ghost use Rattle.std.specs.Prelude.{◌≡◌, IsTrue, []};
    ghost use Rattle.journal_store.specs.Disks.{now};
    ghost use Rattle.file_disk.specs.Counted.{Counted};

    ghost Value = { Counted F };

    ghost view = { λ d. record { file = d.file; failures = d.failures } };

    ghost invariant = { λ d. IsTrue (F.honest d.file) → d.failures ≡ 0
        → (now (F.states d.file)).left ≡ [] };
}

impl<F: DiskFile> FileDisk<F> {
    /// A disk over a file, of which no call has failed.
    pub fn new(file: F) -> Self
        requires { IsTrue (F.honest file) → (now (F.states file)).left ≡ [] }
        ensures file { result.file ≡ file }
        ensures failures { result.failures ≡ 0 }
    {
        FileDisk { file, failures: 0 }
    }
}

/// Counts a call that failed, and returns its fault.
fn failed<T>(failures: &mut u64) -> Result<T, DiskFault>
    ensures answer { result ≡ Err Device }
    ensures cause { HasCause failures.old failures.new result }
    ensures counted { failures.new ≢ 0 }
{
    if *failures < u64::MAX {
        *failures += 1;
    }
    Err(DiskFault::Device)
}

impl<F: DiskFile> Disk for FileDisk<F> {
    ghost honest = { λ d. F.honest d.file };

    ghost states = { λ d. F.states d.file };

    ghost failures = { λ d. d.failures };

    fn len(&mut self) -> Result<usize, DiskFault> {
        match self.file.size() {
            Ok(size) => Ok(size as usize),
            Err(_) => failed(&mut self.failures),
        }
    }

    fn read(&mut self, alloc: Global, place: usize, len: usize) -> Result<Vec<u8>, DiskFault> {
        let size = self.len()?;
        let start = place.min(size);
        let mut bytes = vec![in alloc; 0u8; len.min(size - start)]?;
        match self.file.fill(start as u64, &mut bytes) {
            Ok(()) => Ok(bytes),
            Err(_) => failed(&mut self.failures),
        }
    }

    fn write_at(&mut self, place: usize, bytes: &[u8]) -> Result<(), DiskFault> {
        match self.file.write(place as u64, bytes) {
            Ok(()) => Ok(()),
            Err(_) => failed(&mut self.failures),
        }
    }

    fn sync(&mut self) -> Result<(), DiskFault> {
        match self.file.sync() {
            Ok(()) => Ok(()),
            Err(_) => failed(&mut self.failures),
        }
    }

    fn failures(&self) -> u64 {
        self.failures
    }

    ghost reads_as = { λ d h. F.reads_as d.file h };
}
