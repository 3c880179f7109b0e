//! What carries messages between the nodes of one process, and numbers their events: words that change in single steps,
//! and no lock. node_cells and node_threads use it. Between any two steps of any threads the views of all nodes keep
//! the rule of world_views.
#![tactic(auto)]

mod calls;
mod ether;
mod fault;
mod known;
mod meeting;
mod pass;
mod plays;
mod rule;

pub use ether::Ether;
pub use fault::EtherFault;
pub use known::Known;
pub use pass::Pass;
pub use rule::{Group, Mailboxes};
