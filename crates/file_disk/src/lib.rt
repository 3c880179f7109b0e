//! A disk over a file of the system, and the journal in it. Used by bouncer_run and bouncer_bench.
//!
//! No contract can say what a file of the system holds. So the laws of a disk are proved for a `FileDisk` over any file
//! whose calls are honest, as `DiskFile` states it, and a file of the system makes each call that `DiskFile` names as
//! one call of its own, of which nothing is known.
#![tactic(auto)]

mod copied_file;
mod disk_file;
mod file_disk;
mod file_id;
mod header;
mod journal;
mod last_error;
mod locked_file;
mod made_file;
mod open_fault;
mod system_file;

pub use disk_file::DiskFile;
pub use file_disk::FileDisk;
pub use file_id::FileId;
pub use header::{renew_header, renewed_journals_are_read_alike};
pub use journal::{FileJournal, may_be_new, open_journal, open_journal_late};
pub use last_error::LastError;
pub use made_file::MadeFile;
pub use open_fault::OpenFault;
pub use system_file::SystemFile;
