//! Why a log is not renewed.
ghost use Rattle.std.specs.Prelude.{◌≡◌, IsTrue};
ghost use Rattle.journal_folder.specs.Faults.{IsOfFiles, IsOfLists};
ghost use Rattle.journal_folder.specs.declared.fault.RenewFault.TheVariants.{Memory, Renewal};

use crate::changed_keys::ChangedKeys;
use crate::folder_fault::FolderFault;
use crate::loss::{LostJournals, TooFew};
use crate::mixed::Mixed;
use file_disk::OpenFault;
use renewal::RenewalFault;
use stable_store::StoreFault;
use std::alloc::AllocError;
use std::io::ErrorKind;
use std::{fmt, io};
use store_setup::SetupFileFault;
use thiserror::Error;
use wire_bytes::Number;

/// Why a log is not renewed, and what to do.
#[derive(Debug, Drop, Error)]
pub enum RenewFault {
    /// A journal is open, or can't be opened or read.
    #[error("{0}")]
    Journal(Refused),
    /// Too few journals are whole.
    #[error("{0}")]
    TooFew(TooFew),
    /// The folder is called `.` or `/`.
    #[error("{0}: the folder of the journals needs a name of its own: move it into a folder, and say so in the configuration")]
    Unnamed(String),
    /// A folder or a new journal can't be made, written, renamed or synced.
    #[error("{0}: {1}: is there room, and may it be written? Then try again")]
    System(String, io::Error),
    #[error("{0}: {1}: may it be read? Then try again")]
    Unread(String, io::Error),
    /// A file does not say what the store is.
    #[error("{0}: {1}")]
    Setup(String, SetupFileFault),
    /// The folders are not those of one store.
    #[error("{0}")]
    Mixed(Mixed),
    /// Another program is changing what the store records about itself.
    #[error("{0}: another program changed it just now: end that one first")]
    Busy(String),
    #[error("{0}: too many old folders lie beside it: move them away, then try again")]
    NoFreeName(String),
    /// A name that is to be forgotten.
    #[error("{0}: no client has that name, so nothing was changed: 'bouncer check' lists the names of clients")]
    UnknownName(String),
    /// The log can't be renewed.
    #[error("{0}")]
    Renewal(RenewalFault),
    /// The log can't be renewed, which it would have to be since the values of these keys changed.
    #[error("{0} changed, and the log can't be renewed for that: {1}; with the old values it goes on")]
    Change(ChangedKeys, RenewalFault),
    /// The log can't be renewed, which it would have to be since these journals are lost.
    #[error("{0}, and the log can't be renewed from the others: {1}")]
    Loss(LostJournals, RenewalFault),
    /// The new log would not be short enough.
    #[error("the new log would still have {0} entries: set renew_at higher")]
    StillLong(Number),
    /// Terms or runs have reached their limit.
    #[error("no terms or runs are left: move the folder of the journals away: the next start makes a new one")]
    Spent,
    #[error("out of memory")]
    Memory,
}

impl RenewFault {
    /// A journal was refused.
    pub fn of_journal(path: String, fault: OpenFault) -> RenewFault
        ensures { result ≡ RenewFault.Journal (record { path = path; fault = fault }) }
    {
        RenewFault::Journal(Refused { path, fault })
    }

    /// A file does not say what the store is.
    pub fn of_setup(path: String, fault: SetupFileFault) -> RenewFault
        ensures { IsOfFiles result }
    {
        match fault {
            SetupFileFault::Memory => RenewFault::Memory,
            fault => RenewFault::Setup(path, fault),
        }
    }

    /// The same fault, for a log that is renewed since the values of these keys changed.
    pub fn for_change(self, keys: ChangedKeys) -> RenewFault
        ensures { IsOfLists self → IsOfLists result }
    {
        match self {
            RenewFault::Renewal(RenewalFault::Memory) => RenewFault::Memory,
            RenewFault::Renewal(fault) => RenewFault::Change(keys, fault),
            fault => fault,
        }
    }

    /// The same fault, for a log that is renewed since these journals are lost.
    pub fn for_loss(self, lost: LostJournals) -> RenewFault
        ensures { IsOfLists self → IsOfLists result }
    {
        match self {
            RenewFault::Renewal(RenewalFault::Memory) => RenewFault::Memory,
            RenewFault::Renewal(fault) => RenewFault::Loss(lost, fault),
            fault => fault,
        }
    }

    /// Whether the log itself can't be renewed, so that nothing was written.
    pub fn is_of_log(&self) -> bool
        ensures { IsTrue result → IsOfLists self.now }
    {
        match self {
            RenewFault::Renewal(fault) => *fault != RenewalFault::Memory,
            RenewFault::StillLong(_) | RenewFault::Spent => true,
            _ => false,
        }
    }

    /// Whether memory ran out, also if the system says so.
    pub fn is_memory(&self) -> bool {
        match self {
            RenewFault::Memory | RenewFault::Renewal(RenewalFault::Memory) => true,
            RenewFault::Journal(refused) => refused.fault.is_memory(),
            RenewFault::System(_, error) | RenewFault::Unread(_, error) => {
                error.kind() == ErrorKind::OutOfMemory
            }
            RenewFault::Unnamed(_)
            | RenewFault::TooFew(_)
            | RenewFault::Setup(_, _)
            | RenewFault::Mixed(_)
            | RenewFault::Busy(_)
            | RenewFault::NoFreeName(_)
            | RenewFault::UnknownName(_)
            | RenewFault::Change(_, _)
            | RenewFault::Loss(_, _)
            | RenewFault::StillLong(_)
            | RenewFault::Renewal(_)
            | RenewFault::Spent => false,
        }
    }
}

impl From<AllocError> for RenewFault {
    ghost from_gives = { λ _ e. e ≡ Memory };

    fn from(_error: AllocError) -> Self {
        RenewFault::Memory
    }
}

impl From<FolderFault> for RenewFault {
    ghost from_gives = { λ _ e. IsOfFiles e };

    fn from(fault: FolderFault) -> Self {
        match fault {
            FolderFault::Journal(path, fault) => RenewFault::of_journal(path, fault),
            FolderFault::System(path, error) => RenewFault::System(path, error),
            FolderFault::NoFreeName(path) => RenewFault::NoFreeName(path),
            FolderFault::Unfinished(path) => RenewFault::Mixed(Mixed::Unfinished(path)),
            FolderFault::Memory => RenewFault::Memory,
        }
    }
}

impl From<RenewalFault> for RenewFault {
    ghost from_gives = { λ fault e. e ≡ Renewal fault };

    fn from(fault: RenewalFault) -> Self {
        RenewFault::Renewal(fault)
    }
}

/// A journal at this path that was refused.
#[derive(Debug, Drop)]
pub struct Refused {
    path: String,
    fault: OpenFault,
}

impl Refused {
    /// What to do.
    fn advice(&self) -> &'static str {
        match &self.fault {
            OpenFault::InUse => "end the bouncer first",
            OpenFault::Store(StoreFault::Version) => {
                "a later program wrote it: start that one, nothing was changed"
            }
            OpenFault::NotAFile
            | OpenFault::System(_)
            | OpenFault::Store(
                StoreFault::Device
                | StoreFault::Memory
                | StoreFault::NotAStore
                | StoreFault::Damaged(_),
            ) => "nothing was changed",
        }
    }
}

impl fmt::Display for Refused {
    fn fmt<W: fmt::Write>(&self, f: &mut fmt::Formatter<W>) -> fmt::Result {
        write!(f, "{}: {}: {}", self.path, self.fault, self.advice())
    }
}
