//! A disk in memory that fails as planned.
ghost use Rattle.std.specs.Prelude.{◌≡◌, ◌≤◌, [], length, IfOk, IfErr};
ghost use Rattle.journal_store.specs.Disks.{now, IsImage};
ghost use Rattle.fault_disks.specs.Calls.{failed, moments, IsCalled};
ghost use Rattle.fault_disks.specs.Images.{left_by};

use crate::call::{Call, Called};
use crate::crash::{Unsynced, left_by};
use crate::fails::Fails;
use crate::state::{State, replayed};
use journal_store::{Disk, DiskFault};
use std::alloc::{AllocError, Global};
use std::marker::Model;

/// What is written at once must be shorter, and must be below this.
// so that a file ends below 2^63, as the laws of a disk say
const LIMIT: usize = 1 << 62;

/// A disk in memory that keeps a record of its calls, from which its state follows. It is honest: a call that fails
/// says so. A write that fails changes nothing that is read, but a crash may tear its place. A sync that fails drops
/// what was written since the last one: a read still gives it, but a crash may leave anything there, also after a later
/// sync that passed, until a write covers it. Any other call that fails does nothing. Each call goes over the whole
/// record.
#[derive(Drop)]
pub struct FaultDisk {
    alloc: Global,
    first: Vec<u8>,
    calls: Vec<Called>,
    fails: Fails,
}

impl Model for FaultDisk {
    ghost use Rattle.fault_disks.specs.Calls.{Recorded};

    ghost Value = { Recorded };

    ghost view = { λ d. record { first = d.first.items; calls = d.calls.items; fails = d.fails } };
}

impl FaultDisk {
    /// A disk whose file has these bytes, synced, and whose calls fail as this says.
    pub fn new(alloc: Global, file: Vec<u8>, fails: Fails) -> Self
        ensures { result ≡ record { first = file.items; calls = []; fails = fails } }
    {
        FaultDisk {
            alloc,
            first: file,
            calls: Vec::new(alloc),
            fails,
        }
    }

    /// Its calls so far, the first one first.
    pub fn calls(&self) -> &[Called]
        ensures { result.now ≡ self.now.calls }
    {
        self.calls.as_slice()
    }

    /// The file that a crash at this moment leaves.
    pub fn crashed(&self, unsynced: Unsynced) -> Result<Vec<u8>, DiskFault>
        ensures value { IfOk result (λ v. v.items ≡ left_by unsynced (now (moments self.now))) }
        ensures image { IfOk result (λ v. IsImage (now (moments self.now)) v.items) }
        ensures memory { IfErr result (λ e. e ≡ DiskFault.Memory) }
    {
        Ok(left_by(self.alloc, self.state()?, unsynced)?)
    }

    /// The state that its calls have led to.
    fn state(&self) -> Result<State, DiskFault>
        ensures ok { IfOk result (λ s. s ≡ now (moments self.now)) }
        ensures memory { IfErr result (λ e. e ≡ DiskFault.Memory) }
    {
        let first = State::settled(self.alloc, self.first.to_vec(self.alloc)?);
        replayed(self.alloc, first, &self.calls)
    }

    /// Records a call, which passes or fails.
    fn record(&mut self, call: Call) -> Result<(), DiskFault>
        ensures { IsCalled result call self.old self.new }
    {
        let passed = self.fails.passes(self.calls.len());
        if self.calls.push(Called { call, passed }).is_err() {
            return Err(DiskFault::Memory);
        }
        if passed {
            Ok(())
        } else {
            Err(DiskFault::Device)
        }
    }
}

impl Disk for FaultDisk {
    ghost use Rattle.std.specs.Prelude.{true};
    ghost use Rattle.fault_disks.specs.Calls.{failed, moments};
    ghost use Rattle.fault_disks.specs.CallLaws.{own_image};

    ghost honest = { λ _. true };

    ghost states = { moments };

    ghost failures = { λ d. failed d.calls };

    fn len(&mut self) -> Result<usize, DiskFault> {
        let state = self.state()?;
        self.record(Call::Len)?;
        Ok(state.bytes.len())
    }

    fn read(&mut self, alloc: Global, place: usize, len: usize) -> Result<Vec<u8>, DiskFault> {
        let state = self.state()?;
        let start = place.min(state.bytes.len());
        let (_, rest) = state.bytes.as_slice().split_at(start);
        let (part, _) = rest.split_at(len.min(rest.len()));
        let part = part.to_vec(alloc)?;
        self.record(Call::Read(place, len))?;
        Ok(part)
    }

    fn write_at(&mut self, place: usize, bytes: &[u8]) -> Result<(), DiskFault> {
        if place >= LIMIT || bytes.len() >= LIMIT {
            return Err(DiskFault::Memory);
        }
        let bytes = bytes.to_vec(self.alloc)?;
        self.record(Call::Write(place, bytes))
    }

    fn sync(&mut self) -> Result<(), DiskFault> {
        self.record(Call::Sync)
    }

    fn failures(&self) -> u64 {
        failed(&self.calls)
    }

    ghost reads_as = { λ d h. own_image d.first d.calls };
}

/// How many of these calls failed.
fn failed(calls: &[Called]) -> u64
    ensures value { result ≡ failed calls.now }
    ensures few { result ≤ length calls.now }
{
    match calls {
        [] => 0,
        [first, rest @ ..] => {
            let behind = failed(rest);
            if first.passed { behind } else { behind + 1 }
        }
    }
}
