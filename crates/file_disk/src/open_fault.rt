ghost use Rattle.std.specs.Prelude.{◌≡◌};
ghost use Rattle.file_disk.specs.Faults.{of_store};
ghost use Rattle.file_disk.specs.declared.open_fault.OpenFault.TheVariants.{Store, System};

use stable_store::StoreFault;
use std::io;
use std::io::ErrorKind;
use thiserror::Error;

/// Why no journal is opened at a path.
#[derive(Debug, Drop, Error)]
pub enum OpenFault {
    #[error("the journal is open already")]
    InUse,
    #[error("the journal is no regular file")]
    NotAFile,
    #[error("the journal cannot be opened: {0}")]
    System(#[from] io::Error),
    #[error("the journal cannot be read: {0}")]
    Store(StoreFault),
}

impl OpenFault {
    /// A store was not opened. If its device failed, this has the system's error, if it gave one.
    pub fn of_store(fault: StoreFault, last_error: Option<io::Error>) -> OpenFault
        ensures { result ≡ of_store System fault last_error }
    {
        match (fault, last_error) {
            (StoreFault::Device, Some(error)) => OpenFault::System(error),
            (fault, _) => OpenFault::Store(fault),
        }
    }

    /// Whether memory ran out, also if the system says so.
    pub fn is_memory(&self) -> bool {
        match self {
            OpenFault::System(error) => error.kind() == ErrorKind::OutOfMemory,
            OpenFault::Store(StoreFault::Memory) => true,
            OpenFault::InUse | OpenFault::NotAFile | OpenFault::Store(_) => false,
        }
    }
}

impl From<StoreFault> for OpenFault {
    ghost from_gives = { λ fault e. e ≡ Store fault };

    fn from(fault: StoreFault) -> Self {
        OpenFault::Store(fault)
    }
}
