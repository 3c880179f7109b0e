//! The store in some folders: what it records about itself, or what it is assumed to be.
ghost use Rattle.std.specs.Prelude.{◌≡◌, ◌≤◌, IfErr, IfOk, length};
ghost use Rattle.raft_log.specs.Peers.{IsGroupSize};
ghost use Rattle.journal_folder.specs.Faults.{IsOfFiles};
ghost use Rattle.journal_folder.specs.Stores.{IsNext, holding, next_of_before, store_of};
ghost use Rattle.wire_bytes.specs.Limits.{node_limit};

use crate::fault::RenewFault;
use crate::folders::folder_of;
use crate::mixed::Mixed;
use crate::nodes::all_nodes;
use crate::store_file::{Described, first_described, read_setup, setup_path};
use bouncer_config::Config;
use buffer_commands::Setup;
use raft_log::{GroupSize, NodeId};
use run_plan::journal_path;
use std::alloc::{AllocError, Global};
use std::fs;
use std::fs::Files;
use store_setup::{StoreSetup, changed, spell};
use wire_bytes::Number;

/// What is in the folders of a store.
#[derive(Drop)]
pub struct Found {
    /// What the store records about itself, if it does.
    pub store: Option<StoreSetup>,
    /// The greatest number of a node whose journal is there, 0 if there is none.
    pub journals: u8,
}

/// What a start does with a folder.
#[derive(Clone, Copy, Debug, PartialEq, Eq)]
pub enum Next {
    /// It has no journal: its store is new.
    Make,
    /// Its store is from before stores recorded what they are, and has as many nodes as the configuration.
    Describe,
    /// Its store has the configuration's setup and number of nodes.
    GoOn,
    /// Its log has another setup or another number of nodes.
    BeginAnew,
}

/// How many nodes a configuration has.
pub fn size_of(config: &Config) -> GroupSize
    requires { IsGroupSize (length config.now.listen.items) }
    ensures { result ≡ length config.now.listen.items }
{
    let Some(size) = GroupSize::new(config.listen.len() as u8) else {
        unreachable!();
    };
    size
}

/// What is in the folders of a store. `Mixed` if they do not belong to one.
pub fn find<R: Files + AllocGlobal>(rt: &R, folders: &[String]) -> Result<Found, RenewFault>
    requires { 1 ≤ length folders.now }
    ensures limit { IfOk result (λ found. found.journals ≤ node_limit) }
    ensures fault { IfErr result IsOfFiles }
{
    let mut journals = 0u8;
    for node in &all_nodes(rt.alloc())? {
        if is_in_place(rt, folders, *node)? {
            journals = node.value();
        }
    }
    // if there are no journals, each folder is described again
    let store = if journals == 0 {
        first_store(rt, folders)?
    } else {
        store_in_all(rt, folders)?
    };
    Ok(Found { store, journals })
}

/// Whether a node's journal is in its folder. `Mixed` if it is in another one.
fn is_in_place<R: Files + AllocGlobal>(
    rt: &R,
    folders: &[String],
    node: NodeId,
) -> Result<bool, RenewFault>
    requires { 1 ≤ length folders.now }
    ensures { IfErr result IsOfFiles }
{
    let alloc = rt.alloc();
    let own = folder_of(folders, node);
    for folder in folders {
        let other = folder.as_str();
        if other != own && is_there(rt, other, node)? {
            return Err(RenewFault::Mixed(Mixed::Misplaced(
                journal_path(alloc, other, node)?,
                String::from_str(alloc, own)?,
            )));
        }
    }
    is_there(rt, own, node)
}

/// What the store records about itself in the first of these folders in which it does.
fn first_store<R: Files + AllocGlobal>(
    rt: &R,
    folders: &[String],
) -> Result<Option<StoreSetup>, RenewFault>
    ensures { IfErr result IsOfFiles }
{
    match first_described(rt, folders)? {
        Some(described) => Ok(Some(described.store)),
        None => Ok(None),
    }
}

/// What the store in these folders records about itself, if it does. `Mixed` if two of them differ, or if one with a
/// journal records nothing while another one does.
fn store_in_all<R: Files + AllocGlobal>(
    rt: &R,
    folders: &[String],
) -> Result<Option<StoreSetup>, RenewFault>
    ensures { IfErr result IsOfFiles }
{
    let alloc = rt.alloc();
    let Some(Described { path, store }) = first_described(rt, folders)? else {
        return Ok(None);
    };
    let spelled = spell(alloc, &store)?;
    for folder in folders {
        let other = setup_path(alloc, folder.as_str())?;
        if other.as_str() == path.as_str() {
            continue;
        }
        match read_setup(rt, folder.as_str())? {
            Some(setup) if *spell(alloc, &setup)? == *spelled => {}
            Some(_) => return Err(RenewFault::Mixed(Mixed::Differ(path, other))),
            None if has_journal(rt, folder.as_str())? => {
                return Err(RenewFault::Mixed(Mixed::Undescribed(other, path)));
            }
            None => {}
        }
    }
    Ok(Some(store))
}

/// Whether a folder has a journal of any node.
fn has_journal<R: Files + AllocGlobal>(rt: &R, folder: &str) -> Result<bool, RenewFault>
    ensures { IfErr result IsOfFiles }
{
    for node in &all_nodes(rt.alloc())? {
        if is_there(rt, folder, *node)? {
            return Ok(true);
        }
    }
    Ok(false)
}

/// Whether a folder has a node's journal.
pub fn is_there<R: Files + AllocGlobal>(
    rt: &R,
    folder: &str,
    node: NodeId,
) -> Result<bool, RenewFault>
    ensures { IfErr result IsOfFiles }
{
    let path = journal_path(rt.alloc(), folder, node)?;
    match fs::exists(rt, path.as_str()) {
        Ok(is_there) => Ok(is_there),
        Err(error) => Err(RenewFault::Unread(path, error)),
    }
}

/// What a start does with what was found in the folder of a configuration that has this setup and this many nodes.
pub fn next_of(
    alloc: Global,
    found: &Found,
    setup: &Setup,
    nodes: GroupSize,
) -> Result<Next, AllocError>
    requires { found.now.journals ≤ node_limit }
    ensures { IfOk result (IsNext found.now setup.now nodes) }
{
    if found.journals == 0 {
        return Ok(Next::Make);
    }
    match &found.store {
        None => Ok(next_of_before(found.journals, nodes)),
        Some(store) => {
            if changed(alloc, store, setup, nodes)?.is_empty() {
                Ok(Next::GoOn)
            } else {
                Ok(Next::BeginAnew)
            }
        }
    }
}

/// The same for a store that records nothing about itself.
fn next_of_before(journals: u8, nodes: GroupSize) -> Next
    requires { journals ≤ node_limit }
    ensures { result ≡ next_of_before journals nodes }
{
    if holding(journals) == nodes {
        Next::Describe
    } else {
        Next::BeginAnew
    }
}

/// What the store that was found is assumed to be: what it records about itself; or one with the present setup and as
/// many nodes as its journals need.
pub fn store_of(alloc: Global, found: Found, setup: &Setup) -> Result<StoreSetup, AllocError>
    requires { found.journals ≤ node_limit }
    ensures { IfOk result (λ store. store ≡ store_of found setup.now) }
{
    match found.store {
        Some(store) => Ok(store),
        None => StoreSetup::of(alloc, holding(found.journals), Number::new(0), None, setup),
    }
}

/// The smallest group that has a node of this number.
fn holding(number: u8) -> GroupSize
    requires { number ≤ node_limit }
    ensures { result ≡ holding number }
{
    let size = match number {
        0..=3 => 3,
        4..=5 => 5,
        _ => 7,
    };
    GroupSize::new(size).unwrap()
}
