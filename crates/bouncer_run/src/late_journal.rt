//! The journal of a node that is opened late.
ghost use Rattle.std.specs.Prelude.{◌≡◌, ◌≤◌, false, IfOk};

use bouncer_tower::TowerBody;
use file_disk::{FileJournal, LastError, OpenFault, open_journal_late};
use journal_folder::setup_path;
use node_threads::Opener;
use raft_log::NodeId;
use raft_node::Cause;
use run_plan::journal_path;
use stable_store::{Stable, StoreFault};
use std::alloc::AllocError;
use std::fs::{File, Files};
use std::io::Eprint;
use std::{fs, io};
use thiserror::Error;
use wire_bytes::Number;

/// The journal of a node that could not be opened when the program started. It is opened once it
/// can be, if it is of the same store, and not older than the other journals showed at the start.
#[derive(Drop)]
pub struct LateJournal<R: Files<File = File> + Eprint + AllocGlobal + Copy> {
    rt: R,
    path: String,
    /// The path of the file in which the store says what it is.
    setup_path: String,
    /// What is in that file beside the other journals.
    setup: Vec<u8>,
    /// The last run of its node that the other journals showed.
    run: Number,
    last_error: LastError,
    /// The last reason that was logged for not opening it, except errors of the system, which the
    /// loop logs.
    told: String,
}

/// Why a journal is not opened.
#[derive(Debug, Drop, Error)]
enum LateFault {
    #[error("the file setup beside it is not that of the others: move its folder away, and start again")]
    Setup,
    #[error("it is older than the other journals say: move it away, and start again")]
    Older,
    #[error("{0}")]
    Journal(OpenFault),
}

impl<R: Files<File = File> + Eprint + AllocGlobal + Copy> LateJournal<R> {
    /// Of a node, in this folder. The other journals say this about their store, and showed this
    /// run of the node.
    pub fn of(
        rt: &R,
        folder: &str,
        node: NodeId,
        setup: &[u8],
        run: Number,
        last_error: LastError,
    ) -> Result<LateJournal<R>, AllocError>
        ensures { IfOk result (λ late. late.run ≡ run) }
    {
        let alloc = rt.alloc();
        Ok(LateJournal {
            rt: *rt,
            path: journal_path(alloc, folder, node)?,
            setup_path: setup_path(alloc, folder)?,
            setup: Vec::from_slice(alloc, setup)?,
            run,
            last_error,
            told: String::new(alloc),
        })
    }

    /// The journal, if it can be opened now, and may be used.
    fn opened(&self) -> Result<FileJournal<TowerBody>, LateFault>
        ensures serves { IfOk result (λ j. j.broken ≡ false) }
        ensures not_older { IfOk result (λ j. self.now.run ≤ j.saved.boot) }
    {
        let alloc = self.rt.alloc();
        let setup = fs::read(&self.rt, self.setup_path.as_str())?;
        if *setup != *self.setup {
            return Err(LateFault::Setup);
        }
        let last_error = self.last_error.share()?;
        let path = self.path.as_str();
        match open_journal_late::<TowerBody, R>(&self.rt, alloc, path, last_error) {
            Ok(journal) if journal.boot() < self.run => Err(LateFault::Older),
            Ok(journal) => Ok(journal),
            Err(fault) => Err(LateFault::Journal(fault)),
        }
    }

    /// Why the journal is not opened is written to standard error, if it is another reason than the
    /// last one.
    fn tell(&mut self, fault: &LateFault)
        ensures { self.new.run ≡ self.old.run }
    {
        let Ok(text) = format!(in self.rt.alloc(); "{fault}") else {
            return;
        };
        if *text != *self.told {
            let path = self.path.as_str();
            let _ = eprintln!(&self.rt; "{path}: {text}");
            self.told = text;
        }
    }
}

impl<R: Files<File = File> + Eprint + AllocGlobal + Copy> Opener<FileJournal<TowerBody>>
    for LateJournal<R> {
    ghost use Rattle.std.specs.Prelude.{◌≡◌, ◌≤◌, false};

    // no clause can say whether the file beside it is that of the others
    ghost gives = { λ late j. (late.run ≤ j.saved.boot) × (j.broken ≡ false) };

    fn open(&mut self) -> Result<FileJournal<TowerBody>, Cause> {
        match self.opened() {
            Ok(journal) => Ok(journal),
            Err(LateFault::Journal(OpenFault::Store(StoreFault::Memory))) => Err(Cause::Memory),
            Err(LateFault::Journal(OpenFault::System(error))) => {
                self.last_error.note_error(&error);
                Err(Cause::Store)
            }
            Err(fault) => {
                self.tell(&fault);
                Err(Cause::Store)
            }
        }
    }
}

impl From<AllocError> for LateFault {
    fn from(_error: AllocError) -> Self {
        LateFault::Journal(OpenFault::Store(StoreFault::Memory))
    }
}

impl From<io::Error> for LateFault {
    fn from(error: io::Error) -> Self {
        LateFault::Journal(OpenFault::System(error))
    }
}
