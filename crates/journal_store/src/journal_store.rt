//! A store in a journal on a disk.
ghost use Rattle.std.specs.Prelude.{◌≡◌, ◌≤◌, ◌⊎◌, false, IsTrue, IfOk, IfErr};
ghost use Rattle.stable_store.specs.Stores.{nothing_saved};
ghost use Rattle.journal_store.specs.Disks.{now, Leaves, LeavesOnly, Runs};
ghost use Rattle.journal_store.specs.Opening.{IsKept, IsOpened, IsUnreadable};
ghost use Rattle.journal_store.specs.Serving.{IsFound, IsNew, IsRefused, StandsFor};

use crate::adopt::{check_unfailed, read_anew, read_whole};
use crate::append::{append, begin};
use crate::disk::Disk;
use crate::find::{find, follow, may_follow, nothing};
use crate::known::Known;
use crate::mend::mend;
use raft_log::Log;
use stable_store::{Change, Saved, Stable, StoreFault};
use std::alloc::Global;
use std::marker::Model;
use wire_bytes::{Copied, Number, Wire};

/// The closed gate of a journal lies below this, since an honest disk's file is shorter.
const END_LIMIT: usize = 1 << 63;

/// The length of a journal in which nothing is saved.
const EMPTY_LEN: usize = 9;

/// A store in a journal on a disk. It is honest if its disk is.
#[derive(Drop)]
pub struct JournalStore<B: Wire, D: Disk> {
    alloc: Global,
    disk: D,
    /// What the store holds, as far as is known.
    saved: Saved<B>,
    /// The place of the closed gate.
    end: usize,
    /// What of the journal is known to be on the disk.
    known: Known,
}

impl<B: Wire, D: Disk> Model for JournalStore<B, D> {
    ghost use Rattle.std.specs.Prelude.{IsTrue};
    ghost use Rattle.journal_store.specs.Serving.{IsSound, Journal, doubt_of, is_broken};

    ghost Value = { Journal B D };

    ghost view = { λ j. record {
      disk = j.disk;
      saved = j.saved;
      broken = is_broken j.known;
      doubt = doubt_of j.known j.end;
    } };

    ghost invariant = { λ j. IsTrue (D.honest j.disk)
        → IsSound B.taken (D.states j.disk) j.saved j.end j.known };
}

impl<B: Wire, D: Disk> JournalStore<B, D> {
    /// A new store on a disk whose file has at most 9 bytes, synced. If it fails or stops, the file opens as an empty
    /// store or is refused, and the disk is dropped.
    pub fn make(alloc: Global, disk: D) -> Result<Self, StoreFault>
        requires { IsTrue (D.honest disk) → (now (D.states disk)).most ≤ 9 }
        ensures saved { IfOk result (λ j. (j.saved ≡ nothing_saved) × (j.broken ≡ false)) }
        ensures any_moment { IsTrue (D.honest disk) → IfOk result
            (λ j. LeavesOnly (IsNew B.taken) (D.states disk) (D.states j.disk)) }
        ensures fault { IfErr result (λ e. (e ≡ StoreFault.Device) ⊎ (e ≡ StoreFault.Memory)) }
        ensures honest { IfOk result (λ j. D.honest j.disk ≡ D.honest disk) }
    {
        let mut disk = disk;
        begin::<B, D>(&mut disk)?;
        Ok(JournalStore {
            alloc,
            disk,
            saved: nothing(alloc),
            end: 8,
            known: Known::All,
        })
    }

    /// A store of what the file of a disk stands for, once it is synced. `NotAStore`, `Version`, or `Damaged` with the
    /// place of the gate, if the file says so. `Device` if a call of the disk failed before: the file does not show
    /// what that left off the disk. If it fails the disk is dropped.
    pub fn adopt(alloc: Global, disk: D) -> Result<Self, StoreFault>
        ensures found { IsTrue (D.honest disk)
            → IfOk result (λ j. IsFound B.taken (now (D.states disk)) j.saved) }
        ensures serves { IfOk result (λ j. j.broken ≡ false) }
        ensures unfailed { IfOk result (λ _. D.failures disk ≡ 0) }
        ensures runs { IsTrue (D.honest disk) → IfOk result
            (λ j. Runs (now (D.states disk)) (D.states disk) (D.states j.disk)) }
        ensures fault { IsTrue (D.honest disk) → IfErr result
            (λ e. (e ≡ StoreFault.Device) ⊎ ((e ≡ StoreFault.Memory)
            ⊎ IsRefused B.taken (now (D.states disk)) e)) }
        ensures honest { IfOk result (λ j. D.honest j.disk ≡ D.honest disk) }
    {
        check_unfailed(&disk)?;
        let mut disk = disk;
        let (saved, end) = read_anew(alloc, &mut disk)?;
        Ok(JournalStore {
            alloc,
            disk,
            saved,
            end,
            known: Known::All,
        })
    }

    /// A store of what the file of a disk stands for, or a new one if the file is refused and has at most 9 bytes, in
    /// which nothing can be saved; an empty journal of either version is therefore adopted. `Device` if a call of the
    /// disk failed before, as for `adopt`. If it fails the disk is dropped. Full blocks of entries that another log has
    /// at the same places are shared with it in memory.
    pub fn adopt_or_make(alloc: Global, disk: D, beside: &Log<B>) -> Result<Self, StoreFault>
        ensures opened { IsTrue (D.honest disk)
            → IfOk result (λ j. IsOpened B.taken (now (D.states disk)) j.saved) }
        ensures any_moment { IsTrue (D.honest disk) → IfOk result
            (λ j. LeavesOnly (IsKept B.taken (now (D.states disk)))
            (D.states disk) (D.states j.disk)) }
        ensures serves { IfOk result (λ j. j.broken ≡ false) }
        ensures unfailed { IfOk result (λ _. D.failures disk ≡ 0) }
        ensures fault { IsTrue (D.honest disk) → IfErr result
            (λ e. (e ≡ StoreFault.Device) ⊎ ((e ≡ StoreFault.Memory)
            ⊎ IsUnreadable B.taken (now (D.states disk)) e)) }
        ensures honest { IfOk result (λ j. D.honest j.disk ≡ D.honest disk) }
    {
        check_unfailed(&disk)?;
        let mut disk = disk;
        let file = read_whole(alloc, &mut disk)?;
        match find(alloc, &file, beside) {
            Ok((saved, end)) => Ok(JournalStore {
                alloc,
                disk,
                saved,
                end,
                known: Known::All,
            }),
            Err(StoreFault::Memory) => Err(StoreFault::Memory),
            Err(fault) => if file.len() <= EMPTY_LEN {
                Self::make(alloc, disk)
            } else {
                Err(fault)
            },
        }
    }

    /// Its disk. If nothing is to be mended, whatever a crash now leaves stands for what is saved.
    pub fn disk(&self) -> &D
        ensures value { result.now ≡ self.now.disk }
        ensures sound { IsTrue (D.honest self.now.disk) → self.now.broken ≡ false
            → Leaves (StandsFor B.taken self.now.saved) (now (D.states self.now.disk)) }
    {
        &self.disk
    }

    /// The run that is saved.
    pub fn boot(&self) -> Number
        ensures { result ≡ self.now.saved.boot }
    {
        self.saved.boot
    }

    /// The entries that are saved.
    pub fn log(&self) -> &Log<B>
        ensures { result.now ≡ self.now.saved.log }
    {
        &self.saved.log
    }

    /// Returns the disk, with its file as it is.
    pub fn into_disk(self) -> D
        ensures { result ≡ self.disk }
    {
        self.disk
    }
}

/// Device is returned after a failed call of the disk, and after any error until `again` returns Ok.
impl<B: Wire, D: Disk> Stable<B> for JournalStore<B, D> {
    ghost use Rattle.std.specs.Prelude.{◌≡◌, false, true, IsTrue, IfErr, OnErr, OnOk};
    ghost use Rattle.stable_store.specs.Stores.{IsAllowed, IsDone, MayBecome, MayFollow, Serves};
    ghost use Rattle.stable_store.specs.Stores.{MayStandAfter, MayStandStill};
    ghost use Rattle.journal_store.specs.Disks.{now, LeavesOnly};
    ghost use Rattle.journal_store.specs.Serving.{condition, may_stand};
    ghost use Rattle.journal_store.specs.Serving.{IsBeforeOrAfter, StandsForAny};
    ghost use Rattle.journal_store.specs.DiskLaws.{sure_of};

    ghost saved = { λ j. j.saved };

    ghost may_stand = { may_stand B.taken D.states };

    ghost condition = { condition D.honest D.failures };

    fn read(&self) -> Result<Saved<B>, StoreFault> {
        if self.known.is_broken() {
            return Err(StoreFault::Device);
        }
        Ok(self.saved.copy(self.alloc)?)
    }

    /// Two writes, each followed by a sync. Whatever a crash leaves at any moment of the call stands for what was saved
    /// before it or for what is saved after it. A store that is to be mended does not call its disk.
    fn save(&mut self, change: &Change<B>) -> Result<(), StoreFault>
        requires { Serves (condition D.honest D.failures self.old)
            → MayFollow self.old.saved change.now }
        ensures any_moment { IsTrue (D.honest self.old.disk) → self.old.broken ≡ false
            → LeavesOnly (IsBeforeOrAfter B.taken self.old.saved change.now)
            (D.states self.old.disk) (D.states self.new.disk) }
        ensures idle { self.old.broken ≡ true → D.states self.new.disk ≡ D.states self.old.disk }
        ensures ok { IsTrue (D.honest self.old.disk) → OnOk result
            (IsDone (may_stand B.taken D.states self.old) change.now self.new.saved) }
        ensures err { IsTrue (D.honest self.old.disk)
            → OnErr result (self.new.saved ≡ self.old.saved) }
        ensures stands { IsTrue (D.honest self.old.disk)
            → MayStandAfter (may_stand B.taken D.states self.old) change.now
            (may_stand B.taken D.states self.new) }
        ensures fault { IfErr result (IsAllowed (condition D.honest D.failures self.old)
            (condition D.honest D.failures self.new)) }
        ensures condition { MayBecome result (condition D.honest D.failures self.old)
            (condition D.honest D.failures self.new) }
    {
        // nothing is known of a disk that is not honest, so what an honest one guarantees is checked
        if self.known.is_broken() || self.end >= END_LIMIT || !may_follow(&self.saved, change) {
            return Err(StoreFault::Device);
        }
        self.end = append(
            self.alloc,
            &mut self.disk,
            &mut self.known,
            self.end,
            change,
        )?;
        // the new gate is on the disk, closed, and the change must still be made in memory
        self.known = Known::ToGate;
        follow(&mut self.saved, change)?;
        self.known = Known::All;
        Ok(())
    }

    /// Writes again, as it is read, what a failed call may have left off the disk, and reads the file again once it is
    /// synced. Whatever a crash leaves at any moment of the call stands for one of the states that were possible before
    /// it.
    fn again(&mut self) -> Result<(), StoreFault>
        ensures any_moment { IsTrue (D.honest self.old.disk)
            → LeavesOnly (StandsForAny B.taken (may_stand B.taken D.states self.old))
            (D.states self.old.disk) (D.states self.new.disk) }
        ensures ok { IsTrue (D.honest self.old.disk)
            → OnOk result (may_stand B.taken D.states self.old self.new.saved) }
        ensures err { IsTrue (D.honest self.old.disk)
            → OnErr result (self.new.saved ≡ self.old.saved) }
        ensures stands { IsTrue (D.honest self.old.disk)
            → MayStandStill (may_stand B.taken D.states self.old)
            (may_stand B.taken D.states self.new) }
        ensures fault { IfErr result (IsAllowed (condition D.honest D.failures self.old)
            (condition D.honest D.failures self.new)) }
        ensures condition { MayBecome result (condition D.honest D.failures self.old)
            (condition D.honest D.failures self.new) }
    {
        let known = self.known;
        self.known = known.after_error();
        let (saved, end) = mend(self.alloc, &mut self.disk, known, self.end)?;
        self.saved = saved;
        self.end = end;
        self.known = Known::All;
        Ok(())
    }

    fn failures(&self) -> u64 {
        self.disk.failures()
    }

    ghost sure = { λ j v c. sure_of B.taken (D.states j.disk) j.saved j.broken j.doubt v c.1 };
}
