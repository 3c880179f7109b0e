//! What the next start will do with the store in some folders. Nothing is written, and no lock is taken.
ghost use Rattle.std.specs.Prelude.{◌≡◌, ◌<◌, ◌≤◌, ◌∷◌, ◌++◌, [], IfOk, OnOk, length, map};
ghost use Rattle.raft_log.specs.Peers.{IsGroupSize};
ghost use Rattle.store_setup.specs.Changes.{IsOf};
ghost use Rattle.journal_folder.specs.Holding.{StandsForSome};
ghost use Rattle.journal_folder.specs.Settling.{IsComing};
ghost use Rattle.wire_bytes.specs.Limits.{node_limit};

use crate::adopting::first_log;
use crate::changed_keys::ChangedKeys;
use crate::coming::{Coming, Foretold};
use crate::counting::most_entries;
use crate::fault::RenewFault;
use crate::folders::folder_of;
use crate::journal_bytes::journal_of;
use crate::loss::Loss;
use crate::nodes::nodes_of;
use crate::placing::folders_in_use;
use crate::renewing::{plan_for, short_plan};
use crate::standing::{Journal, NodeJournal, Standing, stand_for};
use crate::store::{Next, find, next_of, size_of, store_of};
use bouncer_config::Config;
use bouncer_tower::TowerBody;
use file_disk::OpenFault;
use raft_log::{GroupSize, Log, NodeId};
use run_plan::journal_path;
use stable_store::Saved;
use std::alloc::{AllocError, Global};
use std::fs;
use std::fs::Files;
use std::io::ErrorKind;
use store_setup::StoreSetup;

/// What the next start of a configuration's bouncer will do with its store, or why it will be refused. Nothing is
/// changed, and a bouncer that runs is not disturbed.
pub fn foretold<R: Files + AllocGlobal>(
    rt: &R,
    folders: &[String],
    config: &Config,
    renew_at: u64,
) -> Result<Foretold, RenewFault>
    requires some { 1 ≤ length folders.now }
    requires nodes { IsGroupSize (length config.now.listen.items) }
    ensures { IfOk result (λ told.
        IsComing config.now.setup (length config.now.listen.items) renew_at told.coming) }
{
    let alloc = rt.alloc();
    let used = folders_in_use(rt, folders)?;
    let found = find(rt, &used)?;
    let next = next_of(alloc, &found, &config.setup, size_of(config))?;
    let store = store_of(alloc, found, &config.setup)?;
    if next == Next::Make {
        return Ok(Foretold::of_none(alloc));
    }
    let standing = read_group(rt, &used, store.nodes)?;
    let coming = coming_of(alloc, config, next, &store, &standing, renew_at)?;
    Foretold::of(alloc, coming, &store, &standing.saved)
}

/// What will be done with a store whose journals have these states, and of which these are lost, as far as memory
/// allows.
fn coming_of(
    alloc: Global,
    config: &Config,
    next: Next,
    store: &StoreSetup,
    standing: &Standing,
    renew_at: u64,
) -> Result<Coming, RenewFault>
    requires nodes { IsGroupSize (length config.now.listen.items) }
    requires next { next ≡ Next.BeginAnew
        → IsOf store.now config.now.setup (length config.now.listen.items) → ⊥ }
    requires stands { StandsForSome store.now.nodes standing.now }
    requires first { 1 ≤ length standing.now.saved.items }
    requires few { length standing.now.saved.items ≤ node_limit }
    ensures { IfOk result
        (IsComing config.now.setup (length config.now.listen.items) renew_at) }
{
    let Standing { saved: group, lost } = standing;
    let keys = ChangedKeys::of(alloc, store, config)?;
    if !lost.is_none() {
        let lost = lost.again(alloc)?;
        return match plan_for(alloc, config, &[], store, group) {
            Ok(_plan) => Ok(Coming::Lost(lost, keys)),
            Err(fault) => Err(fault.for_loss(lost)),
        };
    }
    match next {
        Next::Make | Next::Describe => Ok(Coming::Describe),
        Next::GoOn => coming_length(alloc, config, store, group, renew_at),
        Next::BeginAnew => match plan_for(alloc, config, &[], store, group) {
            Ok(_plan) => Ok(Coming::Changed(keys)),
            Err(fault) => Err(fault.for_change(keys)),
        },
    }
}

/// What will be done with a store that goes on, unless its log is too long.
fn coming_length(
    alloc: Global,
    config: &Config,
    store: &StoreSetup,
    group: &[Saved<TowerBody>],
    renew_at: u64,
) -> Result<Coming, RenewFault>
    requires nodes { IsGroupSize (length config.now.listen.items) }
    requires first { 1 ≤ length group.now }
    requires few { length group.now ≤ node_limit }
    ensures { IfOk result
        (IsComing config.now.setup (length config.now.listen.items) renew_at) }
{
    if renew_at == 0 || most_entries(group).value() <= renew_at {
        return Ok(Coming::Same);
    }
    match short_plan(alloc, config, store, group, renew_at) {
        Ok(plan) => Ok(Coming::Long(plan.before)),
        Err(fault) if fault.is_of_log() => Ok(Coming::StaysLong(fault)),
        Err(fault) => Err(fault),
    }
}

/// The states of the journals in the folders of a group of this size.
fn read_group<R: Files + AllocGlobal>(
    rt: &R,
    folders: &[String],
    size: GroupSize,
) -> Result<Standing, RenewFault>
    requires { 1 ≤ length folders.now }
    ensures stands { IfOk result (StandsForSome size) }
    ensures count { IfOk result (λ standing. length standing.saved.items ≡ size) }
{
    let alloc = rt.alloc();
    let mut journals = Vec::new(alloc);
    let nodes = nodes_of(alloc, size)?;
    for node in &nodes {
        let journal = read_journal(rt, folder_of(folders, *node), *node, &journals)?;
        add(&mut journals, journal)?;
    }
    let standing = stand_for(alloc, folders, &journals)?;
    Ok(standing)
}

/// Adds one more journal.
#[tactic(auto, using(crate::proofs::Numbered::pushed))]
fn add(journals: &mut Vec<NodeJournal>, journal: NodeJournal) -> Result<(), AllocError>
    ensures { OnOk result (map (λ first. first.node) journals.new.items
        ≡ map (λ first. first.node) journals.old.items ++ journal.node ∷ []) }
{
    journals.push(journal)?;
    Ok(())
}

/// The state of the journal of a node. Full blocks of entries that the first log of these also has are shared with it
/// in memory.
fn read_journal<R: Files + AllocGlobal>(
    rt: &R,
    folder: &str,
    node: NodeId,
    journals: &[NodeJournal],
) -> Result<NodeJournal, RenewFault>
    ensures { IfOk result (λ read. read.node ≡ node) }
{
    let alloc = rt.alloc();
    let path = journal_path(alloc, folder, node)?;
    let none = Log::new(alloc);
    let beside = match first_log(journals) {
        Some(log) => log,
        None => &none,
    };
    match fs::read(rt, path.as_str()) {
        Ok(bytes) => match journal_of(alloc, bytes, beside) {
            Ok(journal) => Ok(NodeJournal { node, journal }),
            Err(fault) => Err(RenewFault::of_journal(path, OpenFault::Store(fault))),
        },
        Err(error) if error.kind() == ErrorKind::NotFound => {
            let journal = Journal::Lost(Loss::Missing);
            Ok(NodeJournal { node, journal })
        }
        Err(error) => Err(RenewFault::of_journal(path, OpenFault::System(error))),
    }
}
