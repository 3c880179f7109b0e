//! The locks of a folder's journals.
ghost use Rattle.std.specs.Prelude.{◌≡◌, ◌∷◌, ◌++◌, [], IfOk, OnOk, length, map};
ghost use Rattle.std.specs.List.{All};
ghost use Rattle.journal_folder.specs.Nodes.{AreOfAllNodes, all_nodes};

use crate::folder_fault::FolderFault;
use crate::nodes::all_nodes;
use crate::paths::Paths;
use file_disk::{FileDisk, OpenFault, SystemFile};
use raft_log::NodeId;
use run_plan::journal_path;
use std::alloc::AllocError;
use std::fs::{File, Files};
use std::io::ErrorKind;

/// The journal of a node, locked until this is dropped, if it exists. No other program opens it until then.
#[derive(Drop)]
pub struct NodeLock {
    pub node: NodeId,
    pub disk: Option<FileDisk<SystemFile>>,
}

/// The journals of a folder and of the renewed one beside it, each locked until this is dropped.
#[derive(Drop)]
pub struct FolderLocks {
    pub old: Vec<NodeLock>,
    pub renewed: Vec<NodeLock>,
}

/// Locks those of each of these folders, for each node that a group may have.
pub fn lock_folders<R: Files<File = File> + AllocGlobal>(
    rt: &R,
    all: &[Paths],
) -> Result<Vec<FolderLocks>, FolderFault>
    ensures count { IfOk result (λ locks. length locks.items ≡ length all.now) }
    ensures nodes { IfOk result (λ locks. All AreOfAllNodes locks.items) }
{
    let mut locks = Vec::new(rt.alloc());
    for paths in all {
        let old = lock_journals(rt, paths.folder.as_str())?;
        let renewed = lock_journals(rt, paths.renewed.as_str())?;
        locks
            .push(FolderLocks { old, renewed })
            .map_err(|_| FolderFault::Memory)?;
    }
    Ok(locks)
}

/// Locks the journals of these folders, for each node that a group may have, so that no bouncer runs with them.
pub fn lock_all<R: Files<File = File> + AllocGlobal>(
    rt: &R,
    folders: &[String],
) -> Result<Vec<Vec<NodeLock>>, FolderFault>
    ensures count { IfOk result (λ locks. length locks.items ≡ length folders.now) }
    ensures nodes { IfOk result (λ locks. All
        (λ of_one. map (λ lock. lock.node) of_one.items ≡ all_nodes) locks.items) }
{
    let mut locks = Vec::new(rt.alloc());
    for folder in folders {
        let of_one = lock_journals(rt, folder.as_str())?;
        locks.push(of_one).map_err(|_| FolderFault::Memory)?;
    }
    Ok(locks)
}

/// Locks the journals of a folder, for each node that a group may have, so that no bouncer runs with them.
pub fn lock_journals<R: Files<File = File> + AllocGlobal>(
    rt: &R,
    folder: &str,
) -> Result<Vec<NodeLock>, FolderFault>
    ensures { IfOk result (λ locks. map (λ lock. lock.node) locks.items ≡ all_nodes) }
{
    let alloc = rt.alloc();
    let mut locks = Vec::new(alloc);
    let nodes = all_nodes(alloc)?;
    for node in &nodes {
        let lock = lock_journal(rt, folder, *node)?;
        add(&mut locks, lock)?;
    }
    Ok(locks)
}

/// Adds one more lock.
#[tactic(auto, using(crate::proofs::Numbered::pushed))]
fn add(locks: &mut Vec<NodeLock>, lock: NodeLock) -> Result<(), AllocError>
    ensures { OnOk result (map (λ lock. lock.node) locks.new.items
        ≡ map (λ lock. lock.node) locks.old.items ++ lock.node ∷ []) }
{
    locks.push(lock)?;
    Ok(())
}

/// Locks the journal of a node in a folder.
pub fn lock_journal<R: Files<File = File> + AllocGlobal>(
    rt: &R,
    folder: &str,
    node: NodeId,
) -> Result<NodeLock, FolderFault>
    ensures { IfOk result (λ lock. lock.node ≡ node) }
{
    let alloc = rt.alloc();
    let path = journal_path(alloc, folder, node)?;
    let disk = match FileDisk::open_existing(rt, alloc, path.as_str()) {
        Ok(disk) => Some(disk),
        Err(OpenFault::System(error)) if error.kind() == ErrorKind::NotFound => None,
        Err(fault) => return Err(FolderFault::Journal(path, fault)),
    };
    Ok(NodeLock { node, disk })
}

/// Whether none of these journals exists.
pub fn are_missing(locks: &[NodeLock]) -> bool {
    locks.iter().all(|lock| lock.disk.is_none())
}
