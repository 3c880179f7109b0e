//! A log that is saved in a new store.
ghost use Rattle.std.specs.Prelude.{◌≡◌, ◌≢◌, ◌≤◌, ◌<◌, ◌++◌, false, IsTrue, IfErr, OnOk, Some, length, map, take};
ghost use Rattle.std.specs.List.{All};
ghost use Rattle.raft_log.specs.Batches.{batch_limit};
ghost use Rattle.stable_store.specs.Changes.{change};
ghost use Rattle.stable_store.specs.Stores.{IsHonest, MayFollow, Serves, nothing_saved};
ghost use Rattle.journal_folder.specs.Losses.{is_nothing};
ghost use Rattle.journal_folder.specs.Saving.{all_begun_anew, begun_anew};

use raft_log::{BATCH_LIMIT, Entry, Log};
use stable_store::{Change, Saved, Stable, StoreFault};
use std::alloc::Global;
use wire_bytes::{Number, Wire};

/// The node for which all nodes of a group have voted in the term of a renewal.
const LEADER: u8 = 1;

/// The store of a group that is not saved, from 0, and why.
#[derive(Debug, Drop)]
pub struct Unsaved {
    pub index: usize,
    pub fault: StoreFault,
}

/// Saves a log in the new stores of a group, node 1's first, in this term, after a run of each node.
pub fn save_group<B: Wire, S: Stable<B>>(
    alloc: Global,
    stores: &mut [S],
    boots: &[Number],
    term: Number,
    log: &Log<B>,
) -> Result<(), Unsaved>
    requires { length stores.old ≡ length boots.now }
    ensures saved { All (λ store. IsHonest (S.condition store)) stores.old → OnOk result
        (map S.saved stores.new ≡ all_begun_anew boots.now term log.now) }
    ensures count { length stores.new ≡ length stores.old }
    ensures place { IfErr result (λ unsaved. unsaved.index < length stores.old) }
{
    for index in 0..boots.len() {
        match save_log(alloc, &mut stores[index], boots[index], term, log) {
            Ok(()) => {}
            Err(fault) => return Err(Unsaved { index, fault }),
        }
    }
    Ok(())
}

/// Saves a log in a new store, after these runs and in this term, with a vote for node 1. `NotAStore` if the store is
/// not empty.
pub fn save_log<B: Wire, S: Stable<B>>(
    alloc: Global,
    store: &mut S,
    boot: Number,
    term: Number,
    log: &Log<B>,
) -> Result<(), StoreFault>
    ensures saved { IsHonest (S.condition store.old)
        → OnOk result (S.saved store.new ≡ begun_anew boot term log.now) }
    ensures refused { IsHonest (S.condition store.old) → IfErr result
        (λ e. e ≡ StoreFault.NotAStore → S.saved store.old ≢ nothing_saved) }
{
    if !is_nothing(&store.read()?) {
        return Err(StoreFault::NotAStore);
    }
    let none = Number::new(0);
    save_more(store, boot, term, none, Vec::new(alloc))?;
    for block in 0..log.len().value() / BATCH_LIMIT as u64 + 1 {
        let kept = Number::new(block * BATCH_LIMIT as u64);
        let entries = log.copied_behind(kept, BATCH_LIMIT)?;
        save_more(store, boot, term, kept, entries)?;
    }
    Ok(())
}

/// Saves more entries, after this many that are kept.
fn save_more<B: Wire, S: Stable<B>>(
    store: &mut S,
    boot: Number,
    term: Number,
    kept: Number,
    entries: Vec<Entry<B>>,
) -> Result<(), StoreFault>
    requires few { length entries.items ≤ batch_limit }
    requires follows { Serves (S.condition store.old)
        → MayFollow (S.saved store.old) (change boot term (Some 1) kept entries.items) }
    ensures honest { (S.condition store.new).honest ≡ (S.condition store.old).honest }
    ensures serves { IsHonest (S.condition store.old)
        → OnOk result (Serves (S.condition store.new)) }
    ensures saved { Serves (S.condition store.old) → OnOk result (S.saved store.new
        ≡ begun_anew boot term (take kept (S.saved store.old).log ++ entries.items)) }
    ensures fault { IsHonest (S.condition store.old)
        → IfErr result (λ e. e ≢ StoreFault.NotAStore) }
{
    store.save(&Change::new(boot, term, Some(LEADER), kept, entries))
}

/// Whether nothing is saved.
pub fn is_nothing<B: Wire>(saved: &Saved<B>) -> bool
    ensures value { result ≡ is_nothing saved.now }
    ensures nothing { IsTrue result → saved.now ≡ nothing_saved }
    ensures something { result ≡ false → saved.now ≢ nothing_saved }
{
    let is_new = saved.boot.value() == 0 && saved.term.value() == 0;
    is_new && saved.vote.is_none() && saved.log.len().value() == 0
}
