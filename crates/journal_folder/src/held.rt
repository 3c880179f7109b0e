//! A store that no other program changes.
ghost use Rattle.std.specs.Prelude.{◌≡◌, ◌≤◌, IfErr, IfOk, length};
ghost use Rattle.journal_folder.specs.Faults.{IsOfFiles, IsOfHolding};
ghost use Rattle.journal_folder.specs.Holding.{StandsForSome};
ghost use Rattle.wire_bytes.specs.Limits.{node_limit};

use crate::adopting::Group;
use crate::fault::RenewFault;
use crate::folders::folder_of;
use crate::store::{find, store_of};
use crate::store_file::setup_path;
use bouncer_config::Config;
use raft_log::NodeId;
use std::fs::{File, Files};
use store_setup::StoreSetup;

/// A store, and the states of its journals, which stay locked.
#[derive(Drop)]
pub struct Held {
    pub store: StoreSetup,
    pub group: Group,
}

/// The store in the folders of a configuration, more than half of whose journals are whole. What it records about
/// itself is read again after the locks, since another program may have renewed its log before.
pub fn hold<R: Files<File = File> + AllocGlobal>(
    rt: &R,
    folders: &[String],
    config: &Config,
) -> Result<Held, RenewFault>
    requires { 1 ≤ length folders.now }
    ensures stands { IfOk result
        (λ held. StandsForSome held.store.nodes held.group.standing) }
    ensures count { IfOk result
        (λ held. length held.group.standing.saved.items ≡ held.store.nodes) }
    ensures some { IfOk result (λ held. 1 ≤ length held.group.standing.saved.items) }
    ensures few { IfOk result (λ held. length held.group.standing.saved.items ≤ node_limit) }
    ensures fault { IfErr result IsOfHolding }
{
    let nodes = store_in(rt, folders, config)?.nodes;
    let group = Group::adopt(rt, folders, nodes)?;
    let store = store_in(rt, folders, config)?;
    if store.nodes.value() != nodes.value() {
        return Err(RenewFault::Busy(setup_path(rt.alloc(), folder_of(folders, NodeId::new(1)))?));
    }
    Ok(Held { store, group })
}

/// What the store in the folders of a configuration is assumed to be.
fn store_in<R: Files + AllocGlobal>(
    rt: &R,
    folders: &[String],
    config: &Config,
) -> Result<StoreSetup, RenewFault>
    requires { 1 ≤ length folders.now }
    ensures { IfErr result IsOfFiles }
{
    let found = find(rt, folders)?;
    Ok(store_of(rt.alloc(), found, &config.setup)?)
}
