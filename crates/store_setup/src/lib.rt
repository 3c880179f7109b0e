//! What a store records about itself: the number of nodes and the setup of its log. Used by journal_folder. Promises
//! that a store's setup has one spelling, which is read back, and that no other bytes are read; and that the keys of a
//! configuration that are reported as changed are those whose values differ.
#![tactic(auto)]

mod changes;
mod fault;
mod file;
mod laws;
mod nodes;
mod store_setup;

pub use changes::changed;
pub use fault::SetupFileFault;
pub use file::{read, spell};
pub use laws::what_is_spelled_is_read;
pub use store_setup::StoreSetup;
