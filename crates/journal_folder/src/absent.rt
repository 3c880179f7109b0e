//! A store of which the folders of some nodes cannot be opened.
ghost use Rattle.std.specs.Prelude.{◌≤◌, IfErr, IfOk, IfSome, length};
ghost use Rattle.raft_log.specs.Peers.{IsGroupSize};
ghost use Rattle.journal_folder.specs.Absent.{GoesOn};
ghost use Rattle.journal_folder.specs.Faults.{IsOfFiles};

use crate::fault::RenewFault;
use crate::folders::folder_of;
use crate::looking::is_longer;
use crate::mixed::Mixed;
use crate::store::size_of;
use crate::store_file::{read_setup, setup_path};
use bouncer_config::Config;
use raft_log::NodeId;
use std::alloc::Global;
use std::fs::Files;
use store_setup::{changed, spell};

/// What the store in the folders of these nodes records about itself, byte by byte, if it goes on as it is under a
/// configuration without the others: each of these folders records the same, no key was changed, and something is saved
/// in each of their journals. `Mixed` if two of the folders differ.
pub fn goes_on<R: Files + AllocGlobal>(
    rt: &R,
    folders: &[String],
    nodes: &[NodeId],
    config: &Config,
) -> Result<Option<Vec<u8>>, RenewFault>
    requires some { 1 ≤ length folders.now }
    requires group { IsGroupSize (length config.now.listen.items) }
    ensures goes_on { IfOk result (λ told. IfSome told (λ bytes.
        GoesOn config.now.setup (length config.now.listen.items) bytes.items)) }
    ensures fault { IfErr result IsOfFiles }
{
    let [first, others @ ..] = nodes else {
        return Ok(None);
    };
    let Some(bytes) = goes_on_at(rt, folder_of(folders, *first), *first, config)? else {
        return Ok(None);
    };
    for node in others {
        match goes_on_at(rt, folder_of(folders, *node), *node, config)? {
            Some(other) if *other == *bytes => {}
            Some(_) => return Err(differ(rt.alloc(), folders, *first, *node)?),
            None => return Ok(None),
        }
    }
    Ok(Some(bytes))
}

/// The same for one folder, which has the journal of a node.
fn goes_on_at<R: Files + AllocGlobal>(
    rt: &R,
    folder: &str,
    node: NodeId,
    config: &Config,
) -> Result<Option<Vec<u8>>, RenewFault>
    requires group { IsGroupSize (length config.now.listen.items) }
    ensures goes_on { IfOk result (λ told. IfSome told (λ bytes.
        GoesOn config.now.setup (length config.now.listen.items) bytes.items)) }
    ensures fault { IfErr result IsOfFiles }
{
    let alloc = rt.alloc();
    let Some(store) = read_setup(rt, folder)? else {
        return Ok(None);
    };
    let is_same = changed(alloc, &store, &config.setup, size_of(config))?.is_empty();
    if !is_same || !is_longer(rt, folder, node)? {
        return Ok(None);
    }
    Ok(Some(spell(alloc, &store)?))
}

/// The fault that the folders of two nodes record different things about their store.
fn differ(
    alloc: Global,
    folders: &[String],
    one: NodeId,
    other: NodeId,
) -> Result<RenewFault, RenewFault>
    requires { 1 ≤ length folders.now }
    ensures ok { IfOk result IsOfFiles }
    ensures err { IfErr result IsOfFiles }
{
    let one = setup_path(alloc, folder_of(folders, one))?;
    let other = setup_path(alloc, folder_of(folders, other))?;
    Ok(RenewFault::Mixed(Mixed::Differ(one, other)))
}
