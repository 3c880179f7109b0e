//! A disk in memory, on which each call takes effect at once.
ghost use Rattle.std.specs.Prelude.{◌≡◌, ◌≤◌, ◌∷◌, true, length, IfOk, OnOk, OnErr, IsTrue};
ghost use Rattle.journal_store.specs.Disks.{now, settled_at, written_over};
ghost use Rattle.journal_store.specs.Pasts.{had};

use crate::disk::Disk;
use crate::disk_fault::DiskFault;
use std::alloc::{AllocError, Global};

/// A disk in memory, which lives as long as the program does. It keeps what its file held before each write, so it is
/// for tests and for short files.
#[derive(Drop)]
pub struct MemoryDisk {
    alloc: Global,
    bytes: Vec<u8>,
    /// What the file held before each write, the last one last.
    past: Vec<Vec<u8>>,
}

impl MemoryDisk {
    /// A disk whose file has these bytes.
    pub fn new(alloc: Global, bytes: Vec<u8>) -> Self
        ensures honest { IsTrue (⟦<MemoryDisk as Disk>⟧.honest result) }
        ensures value { now (⟦<MemoryDisk as Disk>⟧.states result) ≡ settled_at bytes.items }
    {
        MemoryDisk {
            alloc,
            bytes,
            past: Vec::new(alloc),
        }
    }

    /// What its file holds.
    pub fn bytes(&self) -> &[u8]
        ensures { result.now ≡ (now (⟦<MemoryDisk as Disk>⟧.states self.now)).bytes }
    {
        self.bytes.as_slice()
    }
}

/// The bytes with others written over them from a place on.
fn over(alloc: Global, old: &[u8], place: usize, bytes: &[u8]) -> Result<Vec<u8>, AllocError>
    requires { place ≤ length old.now }
    ensures { IfOk result (λ v. v.items ≡ written_over old.now place bytes.now) }
{
    let mut next = old[..place].to_vec(alloc)?;
    next.extend_from_slice(bytes)?;
    if bytes.len() < old.len() - place {
        next.extend_from_slice(&old[place + bytes.len()..])?;
    }
    Ok(next)
}

/// Replaces the bytes by others, and keeps the old ones.
fn replace(
    alloc: Global,
    bytes: &mut Vec<u8>,
    past: &mut Vec<Vec<u8>>,
    next: Vec<u8>,
) -> Result<(), AllocError>
    ensures ok { OnOk result (bytes.new.items ≡ next.items) }
    ensures err { OnErr result (bytes.new.items ≡ bytes.old.items) }
    ensures past { OnOk result (had past.new.items
        ≡ settled_at bytes.old.items ∷ had past.old.items) }
    ensures past_err { OnErr result (past.new.items ≡ past.old.items) }
{
    past.push(bytes.to_vec(alloc)?)?;
    *bytes = next;
    Ok(())
}

impl Disk for MemoryDisk {
    ghost use Rattle.std.specs.Prelude.{true};
    ghost use Rattle.journal_store.specs.DiskLaws.{own_image};

    ghost honest = { λ _. true };

    ghost states = { λ d. settled_at d.bytes.items ∷ had d.past.items };

    ghost failures = { λ _. 0 };

    fn len(&mut self) -> Result<usize, DiskFault> {
        Ok(self.bytes.len())
    }

    fn read(&mut self, alloc: Global, place: usize, len: usize) -> Result<Vec<u8>, DiskFault> {
        let start = place.min(self.bytes.len());
        let (_, rest) = self.bytes.as_slice().split_at(start);
        let (part, _) = rest.split_at(len.min(rest.len()));
        Ok(part.to_vec(alloc)?)
    }

    fn write_at(&mut self, place: usize, bytes: &[u8]) -> Result<(), DiskFault> {
        let next = over(self.alloc, &self.bytes, place, bytes)?;
        replace(self.alloc, &mut self.bytes, &mut self.past, next)?;
        Ok(())
    }

    fn sync(&mut self) -> Result<(), DiskFault> {
        Ok(())
    }

    fn failures(&self) -> u64 {
        0
    }

    ghost reads_as = { λ d h. own_image d.bytes.items };
}
