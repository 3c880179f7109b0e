//! Disks for tests, of which some calls fail and whose files a crash may tear. Used by world_cases. Calls fail as
//! planned, and no others; the files that such a disk says a crash leaves are files that a crash may leave.
#![tactic(auto)]

mod call;
mod crash;
mod fails;
mod fault_disk;
mod span;
mod state;

pub use call::{Call, Called};
pub use crash::Unsynced;
pub use fails::Fails;
pub use fault_disk::FaultDisk;
