//! What a node is about to do, before it is saved, whatever machine it hosts. raft_node and agreement use it. Each step
//! is exactly the definition's case, or is refused exactly if the definition declines, for the first reason that it
//! gives; what it saves fits a store.
#![tactic(auto)]

mod asks;
mod messages;
mod own;
mod refusal;
mod sessions;
mod timeout;
mod unprepared;

pub use asks::{may_ask, on_ask};
pub use messages::on_message;
pub use refusal::Refusal;
pub use sessions::{on_claim, on_closed, on_heard, on_opened};
pub use timeout::on_timeout;
pub use unprepared::Unprepared;
