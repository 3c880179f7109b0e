//! Journals that are opened.
ghost use Rattle.std.specs.Prelude.{◌≡◌, None, false, length, map, option_map, IfOk};
ghost use Rattle.std.specs.List.{All};
ghost use Rattle.journal_folder.specs.Runs.{first_of_group};
ghost use Rattle.bouncer_run.specs.Faults.{IsFaultOfOpening, IsOrMemory};
ghost use Rattle.bouncer_run.specs.Opened.{Serves, unopened_by};
ghost use Rattle.bouncer_run.specs.declared.opening.Unopened.TheVariants.{Memory};

use crate::absent::{Absent, is_absent};
use crate::made::Made;
use crate::run_fault::RunFault;
use crate::system::System;
use bouncer_config::folder_of;
use bouncer_tower::TowerBody;
use file_disk::{FileJournal, OpenFault, open_journal};
use journal_folder::{Loss, first_older, is_lost};
use raft_log::{GroupSize, Log, NodeId};
use run_plan::journal_path;
use stable_store::StoreFault;
use std::alloc::AllocError;
use std::io::ErrorKind;

/// A journal for each of this many nodes in these folders, except the absent ones, node 1's first;
/// none is older than their logs show.
pub fn open_all<R: System>(
    rt: &R,
    folders: &[String],
    size: GroupSize,
    absent: &[Absent],
    made: &mut Made,
) -> Result<Vec<Option<FileJournal<TowerBody>>>, Unopened>
    ensures count { IfOk result (λ opened. length opened.items ≡ size) }
    ensures serve { IfOk result (λ opened. All (Serves (λ j. j.broken)) opened.items) }
    ensures none_is_older { IfOk result (λ opened.
        first_of_group (map (option_map (λ j. j.saved)) opened.items) ≡ None) }
{
    let alloc = rt.alloc();
    let mut opened: Vec<Option<FileJournal<TowerBody>>> = Vec::new(alloc);
    for index in 0..size.value() {
        let node = NodeId::new(index + 1);
        let journal = open(rt, folders, node, absent, &opened, made)?;
        opened.push(journal).map_err(|_| Unopened::Memory)?;
    }
    match first_older(&opened) {
        None => Ok(opened),
        Some(node) => Err(Unopened::Older(journal_path(alloc, folder_of(folders, node), node)?)),
    }
}

/// The journal of a node in these folders, unless the node is absent.
fn open<R: System>(
    rt: &R,
    folders: &[String],
    node: NodeId,
    absent: &[Absent],
    opened: &[Option<FileJournal<TowerBody>>],
    made: &mut Made,
) -> Result<Option<FileJournal<TowerBody>>, Unopened>
    ensures serves { IfOk result (Serves (λ j. j.broken)) }
{
    if is_absent(absent, node) {
        return Ok(None);
    }
    let path = journal_path(rt.alloc(), folder_of(folders, node), node)?;
    match open_beside(rt, path.as_str(), opened, made) {
        Ok(journal) => Ok(Some(journal)),
        Err(OpenFault::System(error)) if error.kind() != ErrorKind::OutOfMemory => {
            Err(Unopened::Absent(Absent { node, path, error }))
        }
        Err(fault) => Err(Unopened::Journal(path, fault)),
    }
}

/// The journal in the file of a path. What the log of the first open journal of these also has is
/// shared with it in memory.
fn open_beside<R: System>(
    rt: &R,
    path: &str,
    opened: &[Option<FileJournal<TowerBody>>],
    made: &mut Made,
) -> Result<FileJournal<TowerBody>, OpenFault>
    ensures serves { IfOk result (λ j. j.broken ≡ false) }
{
    match first_open(opened) {
        None => open_at(rt, path, &Log::new(rt.alloc()), made),
        Some(first) => open_at(rt, path, first.log(), made),
    }
}

/// The first of these journals that is open.
fn first_open(opened: &[Option<FileJournal<TowerBody>>]) -> Option<&FileJournal<TowerBody>> {
    match opened {
        [] => None,
        [Some(first), ..] => Some(first),
        [None, others @ ..] => first_open(others),
    }
}

/// The journal in the file of a path. What another log also has is shared with it in memory. A file
/// that is made is noted.
fn open_at<R: System>(
    rt: &R,
    path: &str,
    beside: &Log<TowerBody>,
    made: &mut Made,
) -> Result<FileJournal<TowerBody>, OpenFault>
    ensures serves { IfOk result (λ j. j.broken ≡ false) }
{
    let journal = open_journal(rt, rt.alloc(), path, beside)?;
    match journal.disk().made(rt.alloc(), path) {
        Ok(None) => {}
        Ok(Some(file)) => {
            if made.add(file).is_err() {
                return Err(OpenFault::Store(StoreFault::Memory));
            }
        }
        Err(error) => {
            journal.disk().remove_made(rt, path);
            return Err(OpenFault::System(error));
        }
    }
    Ok(journal)
}

/// Why a journal is not opened.
#[derive(Drop)]
pub enum Unopened {
    /// The system does not open it.
    Absent(Absent),
    /// The journal of this path is refused.
    Journal(String, OpenFault),
    /// The journal of this path is older than the others' logs show.
    Older(String),
    /// The store is not as it must be, which was logged.
    Told,
    Memory,
}

impl Unopened {
    /// Whether its file holds no journal that counts, so that it may be made from the others.
    pub fn is_lost(&self) -> bool {
        match self {
            Unopened::Journal(_, fault) => is_lost(fault),
            Unopened::Older(_) => true,
            Unopened::Absent(_) | Unopened::Told | Unopened::Memory => false,
        }
    }

    /// What it means to the program. A line was written to standard error that names the file and
    /// says why.
    pub fn told<R: System>(&self, rt: &R) -> RunFault
        ensures { IsOrMemory RunFault.Store result }
    {
        match self {
            Unopened::Absent(absent) => {
                let (path, error) = (&absent.path, &absent.error);
                let _ = eprintln!(rt; "{path}: {error}");
                RunFault::Store
            }
            Unopened::Journal(path, fault) => {
                let _ = eprintln!(rt; "{path}: {fault}");
                fault_of(fault)
            }
            Unopened::Older(path) => {
                let loss = Loss::Older;
                let _ = eprintln!(rt; "{path} {loss}");
                RunFault::Store
            }
            Unopened::Told => RunFault::Store,
            Unopened::Memory => RunFault::Memory,
        }
    }
}

impl From<RunFault> for Unopened {
    ghost use Rattle.std.specs.Prelude.{◌≡◌};
    ghost use Rattle.bouncer_run.specs.Opened.{unopened_by};

    ghost from_gives = { λ fault e. e ≡ unopened_by fault };

    fn from(fault: RunFault) -> Self {
        match fault {
            RunFault::Memory => Unopened::Memory,
            _ => Unopened::Told,
        }
    }
}

impl From<AllocError> for Unopened {
    ghost from_gives = { λ _ e. e ≡ Memory };

    fn from(_error: AllocError) -> Self {
        Unopened::Memory
    }
}

/// What it means to the program that a journal is not opened.
fn fault_of(fault: &OpenFault) -> RunFault
    ensures kind { IsFaultOfOpening fault.now result }
    ensures either { IsOrMemory RunFault.Store result }
{
    match fault {
        OpenFault::Store(StoreFault::Memory) => RunFault::Memory,
        OpenFault::System(error) => RunFault::of_error(error, RunFault::Store),
        _ => RunFault::Store,
    }
}
