ghost use Rattle.std.specs.Prelude.{◌≡◌};
ghost use Rattle.journal_folder.specs.declared.folder_fault.FolderFault.TheVariants.{Memory};

use file_disk::OpenFault;
use std::alloc::{AllocError, Global};
use std::io;
use std::io::ErrorKind;
use thiserror::Error;

/// Why a folder does not replace another, with the path in question.
#[derive(Debug, Drop, Error)]
pub enum FolderFault {
    #[error("{0}: {1}")]
    Journal(String, OpenFault),
    #[error("{0}: {1}")]
    System(String, io::Error),
    #[error("{0}: too many old folders lie beside it: move them away")]
    NoFreeName(String),
    /// There is a renewed folder at this path, but neither old journals in the folders nor all renewed ones.
    #[error("{0}: it was renewed together with other folders: name those in the configuration")]
    Unfinished(String),
    #[error("out of memory")]
    Memory,
}

impl FolderFault {
    /// The system refuses something for a path.
    pub fn of_system(alloc: Global, path: &str, error: io::Error) -> FolderFault {
        match String::from_str(alloc, path) {
            Ok(path) => FolderFault::System(path, error),
            Err(_) => FolderFault::Memory,
        }
    }

    /// Whether memory ran out, also if the system says so.
    pub fn is_memory(&self) -> bool {
        match self {
            FolderFault::Memory => true,
            FolderFault::Journal(_, fault) => fault.is_memory(),
            FolderFault::System(_, error) => error.kind() == ErrorKind::OutOfMemory,
            FolderFault::NoFreeName(_) | FolderFault::Unfinished(_) => false,
        }
    }
}

impl From<AllocError> for FolderFault {
    ghost from_gives = { λ _ e. e ≡ Memory };

    fn from(_error: AllocError) -> Self {
        FolderFault::Memory
    }
}
