//! Stores, journals and disks that fail.
mod disks;
mod failed_syncs;
mod journals;
mod stores;
