//! New journals in folders of their own.
ghost use Rattle.std.specs.Prelude.{◌≡◌, ◌≤◌, ◌∷◌, ◌++◌, ◌+◌, [], IfErr, IfOk, OnOk, length, take};
ghost use Rattle.journal_folder.specs.Faults.{IsOfFiles};
ghost use Rattle.journal_folder.specs.Nodes.{all_nodes};

use crate::fault::RenewFault;
use crate::folder::make_folder;
use crate::folder_fault::FolderFault;
use crate::folders::folder_of;
use crate::nodes::nodes_of;
use crate::planning::Plan;
use crate::saving::save_group;
use crate::store_file::describe;
use bouncer_tower::TowerBody;
use file_disk::{FileJournal, MadeFile, OpenFault, open_journal};
use raft_log::{GroupSize, Log, NodeId};
use run_plan::journal_path;
use stable_store::StoreFault;
use std::fs;
use std::fs::{File, Files};
use std::io::ErrorKind;
use store_setup::StoreSetup;

/// Makes new journals in folders of their own, synced, each locked until it is dropped: for each node of a group, as
/// planned. What was in the folders is removed first. The store records what it is before a journal is made.
pub fn make_journals<R: Files<File = File> + AllocGlobal>(
    rt: &R,
    folders: &[String],
    plan: &Plan,
    store: &StoreSetup,
) -> Result<Opened, RenewFault>
    requires some { 1 ≤ length folders.now }
    requires boots { length plan.now.boots.items ≡ store.now.nodes }
    ensures nodes { IfOk result
        (λ opened. opened.nodes.items ≡ take store.now.nodes all_nodes) }
    ensures fault { IfErr result IsOfFiles }
{
    let alloc = rt.alloc();
    let _described = make_folders(rt, folders, store)?;
    let mut opened = Opened::of_nodes(rt, folders, store.nodes)?;
    match save_group(
        alloc,
        &mut opened.journals,
        &plan.boots,
        plan.term,
        &plan.renewal.log,
    ) {
        Ok(()) => Ok(opened),
        Err(unsaved) => {
            let node = opened.nodes[unsaved.index];
            let path = journal_path(alloc, folder_of(folders, node), node)?;
            Err(unwritten(&opened.journals[unsaved.index], path, unsaved.fault))
        }
    }
}

/// Makes these folders again, and in each of them the store records what it is.
fn make_folders<R: Files<File = File> + AllocGlobal>(
    rt: &R,
    folders: &[String],
    store: &StoreSetup,
) -> Result<Vec<MadeFile>, RenewFault>
    ensures count { IfOk result (λ described. length described.items ≡ length folders.now) }
    ensures fault { IfErr result IsOfFiles }
{
    let alloc = rt.alloc();
    let mut described = Vec::new(alloc);
    for folder in folders {
        let folder = folder.as_str();
        remove(rt, folder)?;
        if let Err(error) = make_folder(rt, folder) {
            return Err(RenewFault::from(FolderFault::of_system(alloc, folder, error)));
        }
        let file = describe(rt, folder, store)?;
        described.push(file).map_err(|_| RenewFault::Memory)?;
    }
    Ok(described)
}

/// New journals of some nodes, each locked until it is dropped.
#[derive(Drop)]
pub struct Opened {
    /// Their nodes, in their order.
    pub nodes: Vec<NodeId>,
    pub journals: Vec<FileJournal<TowerBody>>,
}

impl Opened {
    /// Those of a group of this size, in folders that record what the store is.
    fn of_nodes<R: Files<File = File> + AllocGlobal>(
        rt: &R,
        folders: &[String],
        size: GroupSize,
    ) -> Result<Opened, RenewFault>
        requires { 1 ≤ length folders.now }
        ensures nodes { IfOk result (λ opened. opened.nodes.items ≡ take size all_nodes) }
        ensures count { IfOk result (λ opened. length opened.journals.items ≡ size) }
        ensures places { IfOk result (λ opened. length opened.nodes.items ≡ size) }
        ensures fault { IfErr result IsOfFiles }
    {
        let alloc = rt.alloc();
        let mut opened = Opened {
            nodes: Vec::new(alloc),
            journals: Vec::new(alloc),
        };
        let nodes = nodes_of(alloc, size)?;
        for node in &nodes {
            opened.add(rt, folder_of(folders, *node), *node)?;
        }
        Ok(opened)
    }

    /// Makes the journal of one more node.
    fn add<R: Files<File = File> + AllocGlobal>(
        &mut self,
        rt: &R,
        folder: &str,
        node: NodeId,
    ) -> Result<(), RenewFault>
        ensures nodes { OnOk result (self.new.nodes.items ≡ self.old.nodes.items ++ node ∷ []) }
        ensures count { OnOk result
            (length self.new.journals.items ≡ length self.old.journals.items + 1) }
        ensures places { OnOk result
            (length self.new.nodes.items ≡ length self.old.nodes.items + 1) }
        ensures fault { IfErr result IsOfFiles }
    {
        let alloc = rt.alloc();
        let path = journal_path(alloc, folder, node)?;
        match open_journal(rt, alloc, path.as_str(), &Log::new(alloc)) {
            Ok(journal) => self.journals.push(journal).map_err(|_| RenewFault::Memory)?,
            Err(fault) => return Err(RenewFault::of_journal(path, fault)),
        }
        self.nodes.push(node).map_err(|_| RenewFault::Memory)
    }
}

/// Removes a folder and what is in it.
pub fn remove<R: Files + AllocGlobal>(rt: &R, folder: &str) -> Result<(), RenewFault>
    ensures { IfErr result IsOfFiles }
{
    match fs::remove_dir_all(rt, folder) {
        Ok(()) => Ok(()),
        Err(error) if error.kind() == ErrorKind::NotFound => Ok(()),
        Err(error) => Err(RenewFault::from(FolderFault::of_system(rt.alloc(), folder, error))),
    }
}

/// Why a journal is not written, with the system's error if there is one.
fn unwritten(journal: &FileJournal<TowerBody>, path: String, fault: StoreFault) -> RenewFault
    ensures { IsOfFiles result }
{
    match journal.disk().last_error() {
        Ok(last) => match last.get() {
            Some(error) => RenewFault::System(path, error),
            None => RenewFault::of_journal(path, OpenFault::Store(fault)),
        },
        Err(_) => RenewFault::Memory,
    }
}
