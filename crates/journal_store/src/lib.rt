//! A store that keeps what it saves over a crash: a journal in one file of a disk. Used by fault_disks and file_disk.
//!
//! A change is written behind a closed gate and synced; then the gate is opened and synced. Whatever a crash leaves of
//! what was not yet synced, the file therefore stands for what was saved before the change or after it. `specs/Disks`
//! says what a crash may leave, `specs/Journals` what a file stands for.
#![tactic(auto)]

mod adopt;
mod append;
mod disk;
mod disk_fault;
mod find;
mod journal_store;
mod known;
mod laws;
pub mod limits;
mod memory_disk;
mod mend;
mod put;

pub use append::begin;
pub use disk::Disk;
pub use disk_fault::DiskFault;
pub use find::may_follow;
pub use journal_store::JournalStore;
pub use laws::both_versions_are_read_alike;
pub use memory_disk::MemoryDisk;
