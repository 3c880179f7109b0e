//! The journals of a bouncer's nodes.
ghost use Rattle.std.specs.Prelude.{◌≡◌, ◌≤◌, None, length, map, option_map, IfErr, IfOk};
ghost use Rattle.std.specs.List.{All};
ghost use Rattle.raft_log.specs.Peers.{IsGroupSize};
ghost use Rattle.journal_folder.specs.Runs.{first_of_group};
ghost use Rattle.bouncer_run.specs.Faults.{IsOrMemory};
ghost use Rattle.bouncer_run.specs.Opened.{Serves};

use crate::absent::{Absent, absent_in, is_absent, tell_absent, tell_refused};
use crate::made::Made;
use crate::opening::{Unopened, open_all};
use crate::run_fault::RunFault;
use crate::settling::{finish, finish_without, take};
use crate::system::System;
use bouncer_config::Config;
use bouncer_tower::TowerBody;
use file_disk::FileJournal;
use journal_folder::{goes_on, settle, settle_by_reading};
use raft_log::{GroupSize, NodeId};
use std::alloc::{AllocError, Global};
use std::fs::File;
use std::rt::Runtime;
use wire_bytes::MOST_NODES;

/// The journals of all nodes, node 1's first.
#[derive(Drop)]
pub struct NodeJournals {
    /// Those that are open.
    pub opened: Vec<Option<FileJournal<TowerBody>>>,
    /// The nodes whose journals are not open, and why.
    pub absent: Vec<Absent>,
    /// What the store says about itself, byte by byte, if a journal is not open.
    pub setup: Vec<u8>,
}

/// A journal for each node, node 1's first, in the folder that the configuration names, or in one
/// for each, which are made if they are not there. A renewal that was decided is finished first.
/// Then the store is made to fit the configuration's setup and number of nodes: its log is begun
/// anew if it was of another setup or number of nodes, or if some of its journals are lost or older
/// copies. The folders and files that are made are noted. If there are no journals, a line was
/// written to standard error that names the folder or the file and says why.
///
/// A journal that the system does not open is left out, if more than half of the journals are there
/// and their store goes on as it is; a line was written that says why.
pub fn journals<R: System>(
    rt: &R,
    config: &Config,
    size: GroupSize,
    made: &mut Made,
) -> Result<NodeJournals, RunFault>
    requires group { IsGroupSize (length config.now.listen.items) }
    requires folders { 1 ≤ length config.now.store.items }
    ensures count { IfOk result (λ journals. length journals.opened.items ≡ size) }
    ensures serve { IfOk result (λ journals. All (Serves (λ j. j.broken)) journals.opened.items) }
    ensures none_is_older { IfOk result (λ journals.
        first_of_group (map (option_map (λ j. j.saved)) journals.opened.items) ≡ None) }
    ensures fault { IfErr result (IsOrMemory RunFault.Store) }
{
    let alloc = rt.alloc();
    let mut absent = absent_in(rt, config.store.as_slice(), size, made)?;
    if absent.is_empty() {
        match whole(rt, config, size, made) {
            Ok(opened) => {
                let setup = Vec::new(alloc);
                return Ok(NodeJournals {
                    opened,
                    absent,
                    setup,
                });
            }
            Err(Unopened::Absent(one)) => absent.push(one).map_err(|_| RunFault::Memory)?,
            Err(unopened) => return Err(unopened.told(rt)),
        }
    }
    without(rt, config, size, made, absent)
}

/// The journals of all nodes, each of which is open.
fn whole<R: System>(
    rt: &R,
    config: &Config,
    size: GroupSize,
    made: &mut Made,
) -> Result<Vec<Option<FileJournal<TowerBody>>>, Unopened>
    requires group { IsGroupSize (length config.now.listen.items) }
    requires folders { 1 ≤ length config.now.store.items }
    ensures count { IfOk result (λ opened. length opened.items ≡ size) }
    ensures serve { IfOk result (λ opened. All (Serves (λ j. j.broken)) opened.items) }
    ensures none_is_older { IfOk result (λ opened.
        first_of_group (map (option_map (λ j. j.saved)) opened.items) ≡ None) }
{
    let folders = config.store.as_slice();
    finish(rt, folders)?;
    let settled = settle(rt, folders, config, config.renew_at as u64);
    take(rt, config, settled, made)?;
    let unopened = match open_all(rt, folders, size, &[], made) {
        Ok(opened) => return Ok(opened),
        Err(unopened) => unopened,
    };
    if !unopened.is_lost() {
        return Err(unopened);
    }
    // what was opened is released by now, so that all journals may be locked and read
    let settled = settle_by_reading(rt, folders, config, config.renew_at as u64);
    take(rt, config, settled, made)?;
    open_all(rt, folders, size, &[], made)
}

/// The journals of all nodes except some that the system does not open, and others that turn out
/// so.
fn without<R: System>(
    rt: &R,
    config: &Config,
    size: GroupSize,
    made: &mut Made,
    absent: Vec<Absent>,
) -> Result<NodeJournals, RunFault>
    requires group { IsGroupSize (length config.now.listen.items) }
    requires folders { 1 ≤ length config.now.store.items }
    ensures count { IfOk result (λ journals. length journals.opened.items ≡ size) }
    ensures serve { IfOk result (λ journals. All (Serves (λ j. j.broken)) journals.opened.items) }
    ensures none_is_older { IfOk result (λ journals.
        first_of_group (map (option_map (λ j. j.saved)) journals.opened.items) ≡ None) }
    ensures fault { IfErr result (IsOrMemory RunFault.Store) }
{
    let folders = config.store.as_slice();
    finish_without(rt, folders, size, &absent)?;
    let mut absent = absent;
    for _ in 0..MOST_NODES {
        let Some(setup) = goes_on_without(rt, config, size, &absent)? else {
            break;
        };
        match open_all(rt, folders, size, &absent, made) {
            Ok(opened) => {
                tell_absent(rt, &absent);
                return Ok(NodeJournals {
                    opened,
                    absent,
                    setup,
                });
            }
            Err(Unopened::Absent(one)) => absent.push(one).map_err(|_| RunFault::Memory)?,
            Err(unopened) => return Err(unopened.told(rt)),
        }
    }
    tell_refused(rt, &absent, size);
    Err(RunFault::Store)
}

/// What the store says about itself, if the journals of more than half of the nodes may be opened,
/// and it goes on as it is; else `None`. On a fault of the store, a line was written that says why.
pub fn goes_on_without<R: Runtime<File = File> + AllocGlobal>(
    rt: &R,
    config: &Config,
    size: GroupSize,
    absent: &[Absent],
) -> Result<Option<Vec<u8>>, RunFault>
    requires group { IsGroupSize (length config.now.listen.items) }
    requires folders { 1 ≤ length config.now.store.items }
    ensures { IfErr result (IsOrMemory RunFault.Store) }
{
    let there = nodes_there(rt.alloc(), size, absent)?;
    if there.len() <= size.value() as usize / 2 {
        return Ok(None);
    }
    match goes_on(rt, config.store.as_slice(), &there, config) {
        Ok(setup) => Ok(setup),
        Err(fault) => {
            let _ = eprintln!(rt; "{fault}");
            Err(RunFault::of_store(fault.is_memory()))
        }
    }
}

/// The nodes of a group that are not absent.
fn nodes_there(
    alloc: Global,
    size: GroupSize,
    absent: &[Absent],
) -> Result<Vec<NodeId>, AllocError> {
    let mut there = Vec::new(alloc);
    for index in 0..size.value() {
        let node = NodeId::new(index + 1);
        if !is_absent(absent, node) {
            there.push(node)?;
        }
    }
    Ok(there)
}
