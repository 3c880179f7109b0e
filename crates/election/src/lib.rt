//! How a leader is elected: the steps of a node that begins an election, is asked for its vote, or gets one.
//! replication, node_steps and driver use it. Each step is known before anything changes and is exactly the
//! definition's case; what it saves fits a store.
#![tactic(auto)]

mod timeout;
mod vote;

pub use timeout::begin;
pub use vote::{on_request_vote, on_vote};
