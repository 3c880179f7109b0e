//! Whether the paths of the journals still lead to them.
ghost use Rattle.std.specs.Prelude.{◌≡◌, IfErr};
ghost use Rattle.std.specs.IoError.{error_kind};
ghost use Rattle.bouncer_run.specs.Faults.{IsOrMemory};
ghost use Rattle.bouncer_run.specs.Watches.{IsAway, is_missing};

use crate::folders::Folders;
use crate::run_fault::RunFault;
use crate::system::System;
use bouncer_config::{Config, folder_of};
use bouncer_tower::TowerBody;
use file_disk::{FileId, FileJournal};
use raft_log::NodeId;
use run_plan::journal_path;
use std::alloc::Global;
use std::fs::Files;
use std::io::{self, ErrorKind};
use wire_bytes::MOST_NODES;

/// How long after one look at the paths the next is due, in milliseconds: two looks in a row
/// decide, so that a folder that was moved by mistake may be moved back at once, and a second
/// program that made it anew has its session soon after.
const LOOK_EVERY: u64 = 500;

/// A journal that is open, and its path.
#[derive(Drop)]
struct Place {
    path: String,
    file: FileId,
}

/// The journals of a running program, and their paths. Each journal is locked, but a lock goes with
/// the file: if no path leads to its journal, another program may run over what is there. If one
/// still does, that program is refused, and this one goes on as if it had lost a disk.
#[derive(Drop)]
pub struct StoreWatch {
    places: Vec<Place>,
    /// When the next look is due, in milliseconds.
    due: u64,
    /// The last look found none of the journals at its path.
    was_away: bool,
}

impl StoreWatch {
    /// For those of these journals that are open, node 1's first, in one folder or in one for each.
    /// A look is due at once.
    pub fn of(
        alloc: Global,
        folders: &[String],
        journals: &[Option<FileJournal<TowerBody>>],
    ) -> io::Result<StoreWatch> {
        let mut places = Vec::new(alloc);
        for index in 0..MOST_NODES {
            let Some(Some(journal)) = journals.get(index as usize) else {
                continue;
            };
            let node = NodeId::new(index + 1);
            let path = journal_path(alloc, folder_of(folders, node), node)?;
            let file = journal.disk().file_id()?;
            places.push(Place { path, file })?;
        }
        Ok(StoreWatch {
            places,
            due: 0,
            was_away: false,
        })
    }

    /// Whether a look is due, and finds none of the journals at its path, as the look before it
    /// did. The system keeps the names of open files in memory, so a look waits for no disk.
    pub fn look<R: Files>(&mut self, rt: &R, ms: u64) -> bool {
        if ms < self.due {
            return false;
        }
        self.due = ms.saturating_add(LOOK_EVERY);
        let is_away = self.places.iter().all(|place| place.is_away(rt));
        let is_gone = is_away && self.was_away;
        self.was_away = is_away;
        is_gone
    }
}

impl Place {
    /// Whether the journal is no longer at its path.
    fn is_away<R: Files>(&self, rt: &R) -> bool {
        is_away(self.file, &FileId::at(rt, self.path.as_str()))
    }
}

/// The watch over journals. If there is none, a line was written to standard error that says why.
pub fn watch_of<R: System>(
    rt: &R,
    config: &Config,
    journals: &[Option<FileJournal<TowerBody>>],
) -> Result<StoreWatch, RunFault>
    ensures { IfErr result (IsOrMemory RunFault.Store) }
{
    let folders = config.store.as_slice();
    match StoreWatch::of(rt.alloc(), folders, journals) {
        Ok(watch) => Ok(watch),
        Err(error) => {
            let _ = eprintln!(rt; "{}: {error}", Folders(folders));
            Err(RunFault::of_error(&error, RunFault::Store))
        }
    }
}

/// Says on standard error that the journals are no longer in their folders.
pub fn tell_away<R: System>(rt: &R, folders: &[String]) {
    let _ = eprintln!(rt;
        "{}: the journals of this program lie here no more: move their folder back, and start again",
        Folders(folders)
    );
}

/// Whether a journal is no longer at its path, if a look at the path gave this: another file, or
/// that nothing is there. Any other error says nothing about that.
fn is_away(opened: FileId, found: &io::Result<FileId>) -> bool
    ensures { IsAway error_kind opened found.now result }
{
    match found {
        Ok(file) => *file != opened,
        Err(error) => is_missing(error.kind()),
    }
}

/// Whether an error of this kind says that nothing is at a path.
fn is_missing(kind: ErrorKind) -> bool
    ensures { result ≡ is_missing kind }
{
    matches!(kind, ErrorKind::NotFound | ErrorKind::NotADirectory)
}
