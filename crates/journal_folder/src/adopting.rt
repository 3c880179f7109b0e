//! What is saved in the journals of a store, which stay locked.
ghost use Rattle.std.specs.Prelude.{◌≡◌, ◌≤◌, ◌∷◌, ◌++◌, [], IfErr, IfOk, OnOk, length, map, take};
ghost use Rattle.journal_folder.specs.Faults.{IsOfFiles, IsOfHolding};
ghost use Rattle.journal_folder.specs.Holding.{StandsForSome};
ghost use Rattle.journal_folder.specs.Nodes.{all_nodes};

use crate::fault::RenewFault;
use crate::folders::folder_of;
use crate::journal_bytes::{bytes_of, journal_of};
use crate::locking::{NodeLock, lock_journal};
use crate::loss::Loss;
use crate::nodes::nodes_of;
use crate::standing::{Journal, NodeJournal, Standing, stand_for};
use bouncer_tower::TowerBody;
use file_disk::{FileDisk, OpenFault, SystemFile};
use raft_log::{GroupSize, Log, NodeId};
use run_plan::journal_path;
use stable_store::StoreFault;
use std::alloc::{AllocError, Global};
use std::fs::{File, Files};

/// The journals of a group, as far as they exist.
#[derive(Drop)]
pub struct Group {
    /// Their states.
    pub standing: Standing,
    /// No other program opens them as long as these exist.
    pub locks: Vec<NodeLock>,
}

impl Group {
    /// The journals in the folders of a group of this size, more than half of which must be whole. None is made or
    /// written.
    pub fn adopt<R: Files<File = File> + AllocGlobal>(
        rt: &R,
        folders: &[String],
        size: GroupSize,
    ) -> Result<Group, RenewFault>
        requires { 1 ≤ length folders.now }
        ensures stands { IfOk result (λ group. StandsForSome size group.standing) }
        ensures count { IfOk result (λ group. length group.standing.saved.items ≡ size) }
        ensures locks { IfOk result
            (λ group. map (λ lock. lock.node) group.locks.items ≡ take size all_nodes) }
        ensures fault { IfErr result IsOfHolding }
    {
        let alloc = rt.alloc();
        let mut gathered = Gathered {
            journals: Vec::new(alloc),
            locks: Vec::new(alloc),
        };
        let nodes = nodes_of(alloc, size)?;
        for node in &nodes {
            gathered.add(rt, folder_of(folders, *node), *node)?;
        }
        let Gathered { journals, locks } = gathered;
        let standing = stand_for(alloc, folders, &journals)?;
        Ok(Group { standing, locks })
    }
}

/// The states of some nodes' journals, each of which is locked if it exists.
#[derive(Drop)]
struct Gathered {
    journals: Vec<NodeJournal>,
    locks: Vec<NodeLock>,
}

impl Gathered {
    /// Adds the journal of one more node.
    fn add<R: Files<File = File> + AllocGlobal>(
        &mut self,
        rt: &R,
        folder: &str,
        node: NodeId,
    ) -> Result<(), RenewFault>
        ensures journals { OnOk result (map (λ first. first.node) self.new.journals.items
            ≡ map (λ first. first.node) self.old.journals.items ++ node ∷ []) }
        ensures locks { OnOk result (map (λ lock. lock.node) self.new.locks.items
            ≡ map (λ lock. lock.node) self.old.locks.items ++ node ∷ []) }
        ensures fault { IfErr result IsOfFiles }
    {
        let alloc = rt.alloc();
        let mut lock = lock_journal(rt, folder, node)?;
        let none = Log::new(alloc);
        let beside = match first_log(&self.journals) {
            Some(log) => log,
            None => &none,
        };
        let journal = match read_locked(alloc, &mut lock.disk, beside) {
            Ok(journal) => journal,
            Err(fault) => {
                return Err(RenewFault::of_journal(journal_path(alloc, folder, node)?, fault));
            }
        };
        self.push(NodeJournal { node, journal }, lock)?;
        Ok(())
    }

    /// Adds one more journal, and its lock.
    #[tactic(auto, using(crate::proofs::Numbered::pushed))]
    fn push(&mut self, journal: NodeJournal, lock: NodeLock) -> Result<(), AllocError>
        ensures journals { OnOk result (map (λ first. first.node) self.new.journals.items
            ≡ map (λ first. first.node) self.old.journals.items ++ journal.node ∷ []) }
        ensures locks { OnOk result (map (λ lock. lock.node) self.new.locks.items
            ≡ map (λ lock. lock.node) self.old.locks.items ++ lock.node ∷ []) }
    {
        self.journals.push(journal)?;
        self.locks.push(lock)?;
        Ok(())
    }
}

/// The first log of these journals.
pub fn first_log(journals: &[NodeJournal]) -> Option<&Log<TowerBody>> {
    match journals {
        [] => None,
        [first, others @ ..] => match &first.journal {
            Journal::Whole(saved) => Some(&saved.log),
            Journal::Lost(_) => first_log(others),
        },
    }
}

/// The state of a journal that is locked.
fn read_locked(
    alloc: Global,
    disk: &mut Option<FileDisk<SystemFile>>,
    beside: &Log<TowerBody>,
) -> Result<Journal, OpenFault> {
    match disk {
        None => Ok(Journal::Lost(Loss::Missing)),
        Some(disk) => read_disk(alloc, disk, beside),
    }
}

/// The state of the journal on a disk.
fn read_disk(
    alloc: Global,
    disk: &mut FileDisk<SystemFile>,
    beside: &Log<TowerBody>,
) -> Result<Journal, OpenFault> {
    let last_error = disk.last_error().map_err(|_| StoreFault::Memory)?;
    match bytes_of(alloc, disk) {
        Ok(bytes) => Ok(journal_of(alloc, bytes, beside)?),
        Err(fault) => Err(OpenFault::of_store(StoreFault::from(fault), last_error.get())),
    }
}
