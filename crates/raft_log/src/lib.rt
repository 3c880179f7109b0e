//! The log on which nodes agree by Raft, the messages between them, and the state of a node. Used by stable_store,
//! election, replication, node_steps and raft_node, among others. Promises that a log keeps at most 1,000,000 entries,
//! and is repaired as Figure 2 of the Raft paper says.
#![tactic(auto)]

mod batch;
mod block;
mod blocks;
mod body;
mod entry;
mod group_size;
mod laws;
pub mod limits;
mod log;
mod message;
mod node_id;
mod node_state;
mod peers;
mod position;
mod role;
mod run;
mod sharing;
mod step;
mod tail;

pub use batch::{BATCH_LIMIT, Batch};
pub use body::LoggedBody;
pub use entry::Entry;
pub use group_size::GroupSize;
pub use laws::{
    runs_are_where_the_term_changes, the_first_conflict_cuts, what_does_not_conflict_is_added,
    what_stands_before_a_conflict_is_kept,
};
pub use log::{ENTRY_LIMIT, Log};
pub use message::{Kind, Message};
pub use node_id::NodeId;
pub use node_state::{Live, NodeState, Standing};
pub use peers::Peers;
pub use position::Position;
pub use role::Role;
pub use run::Run;
pub use step::Step;
