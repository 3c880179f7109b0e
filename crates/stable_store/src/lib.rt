//! What a node keeps over a restart, and the laws of a store that keeps it. Used by raft_node and journal_store. After
//! Ok the store holds a change; after an error it may hold its old state or the change, until `again` or a save returns
//! Ok, which settles on one of them.
#![tactic(auto)]

mod change;
mod entries;
mod memory_store;
mod saved;
mod stable;
mod store_fault;

pub use change::Change;
pub use memory_store::MemoryStore;
pub use saved::Saved;
pub use stable::Stable;
pub use store_fault::StoreFault;
