//! The state of a journal, from the bytes of its file.
ghost use Rattle.std.specs.Prelude.{◌≡◌, ◌≢◌, Err, IfErr, IfOk, IsTrue, Ok};
ghost use Rattle.journal_store.specs.Disks.{now};
ghost use Rattle.journal_store.specs.Journals.{found};
ghost use Rattle.journal_store.specs.Payloads.{payloads};
ghost use Rattle.stable_store.specs.Stores.{nothing_saved};
ghost use Rattle.journal_folder.specs.Contents.{IsContent, IsLoss, IsNoContent};

use crate::loss::Loss;
use crate::standing::Journal;
use bouncer_tower::TowerBody;
use file_disk::OpenFault;
use journal_store::{Disk, DiskFault, JournalStore, MemoryDisk};
use raft_log::Log;
use stable_store::{Saved, Stable, StoreFault};
use std::alloc::Global;
use wire_bytes::{Number, Wire};

/// The length of a journal in which nothing is saved: its header and a closed gate.
pub const EMPTY_LEN: usize = 9;

/// The state of the journal whose file has these bytes. One that is no longer than an empty journal holds nothing,
/// whatever its bytes are, since a first start may have been killed while it made it. One of another version is no
/// loss: a later program wrote it. Full blocks of entries that another log has at the same places are shared with it in
/// memory.
pub fn journal_of(
    alloc: Global,
    bytes: Vec<u8>,
    beside: &Log<TowerBody>,
) -> Result<Journal, StoreFault>
    ensures content { IfOk result (IsContent (⟦<TowerBody as Wire>⟧.taken) bytes.items) }
    ensures fault { IfErr result (IsNoContent (⟦<TowerBody as Wire>⟧.taken) bytes.items) }
{
    let is_short = bytes.len() <= EMPTY_LEN;
    match saved_in(alloc, bytes) {
        Ok(saved) => {
            let mut saved = saved;
            saved.log.share(0, beside)?;
            Ok(Journal::Whole(saved))
        }
        Err(StoreFault::Memory | StoreFault::Device) => Err(StoreFault::Memory),
        Err(_) if is_short => Ok(Journal::Whole(nothing(alloc))),
        Err(StoreFault::NotAStore) => Ok(Journal::Lost(Loss::NotAStore)),
        Err(StoreFault::Damaged(place)) => Ok(Journal::Lost(Loss::Damaged(place))),
        Err(StoreFault::Version) => Err(StoreFault::Version),
    }
}

/// Whether a journal that is refused for this reason is lost.
pub fn is_lost(fault: &OpenFault) -> bool
    ensures { IsTrue result → IsLoss fault.now }
{
    match fault {
        OpenFault::Store(StoreFault::NotAStore | StoreFault::Damaged(_)) => true,
        OpenFault::InUse | OpenFault::NotAFile | OpenFault::System(_) => false,
        OpenFault::Store(StoreFault::Device | StoreFault::Version | StoreFault::Memory) => false,
    }
}

/// The state that a journal stands for.
fn saved_in<B: Wire>(alloc: Global, bytes: Vec<u8>) -> Result<Saved<B>, StoreFault>
    ensures found { IfOk result
        (λ saved. found (payloads B.taken) nothing_saved bytes.items ≡ Ok saved) }
    ensures fault { IfErr result (λ e. e ≢ StoreFault.Memory
        → found (payloads B.taken) nothing_saved bytes.items ≡ Err e) }
{
    let disk = MemoryDisk::new(alloc, bytes);
    match JournalStore::<B, MemoryDisk>::adopt(alloc, disk) {
        Ok(store) => match store.read() {
            Ok(saved) => Ok(saved),
            Err(_) => Err(StoreFault::Memory),
        },
        Err(fault) => Err(refusal(fault)),
    }
}

/// Why a disk in memory is refused, on which a call fails only if memory runs out.
fn refusal(fault: StoreFault) -> StoreFault
    ensures { result ≢ StoreFault.Memory → (result ≡ fault) × (fault ≢ StoreFault.Device) }
{
    match fault {
        StoreFault::Device => StoreFault::Memory,
        other => other,
    }
}

/// The state of a new journal.
fn nothing<B: Wire>(alloc: Global) -> Saved<B>
    ensures { result ≡ nothing_saved }
{
    Saved {
        boot: Number::new(0),
        term: Number::new(0),
        vote: None,
        log: Log::new(alloc),
    }
}

/// The bytes of a disk's file, synced: what is read must stay, whatever a crash leaves later.
pub fn bytes_of<D: Disk>(alloc: Global, disk: &mut D) -> Result<Vec<u8>, DiskFault>
    ensures { IsTrue (D.honest disk.old)
        → IfOk result (λ bytes. bytes.items ≡ (now (D.states disk.old)).bytes) }
{
    disk.sync()?;
    let len = disk.len()?;
    disk.read(alloc, 0, len)
}
