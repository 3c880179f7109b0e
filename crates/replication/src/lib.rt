//! How entries come from a leader to the other nodes, and how they are committed: the steps of a node that sends them,
//! takes them, gets an answer, or gets a body. node_steps and raft_node use it. Each step is exactly the definition's
//! case; what it saves fits a store, and what was committed stays.
#![tactic(auto)]

mod append;
mod bodies;
mod replies;
mod sends;
mod vote;

pub use append::on_append;
pub use bodies::{ask, on_forward};
pub use replies::{commit_place, on_append_reply};
pub use sends::beat;
pub use vote::on_vote;
