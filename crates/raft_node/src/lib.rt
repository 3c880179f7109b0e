//! One node of a group that agrees on a log by Raft, with the machine that it hosts. world_run, node_cells and driver
//! use it. A step, a look, a start and a restart do what the definition says; a node saves before anything leaves, and
//! a refused step changes nothing.
#![tactic(auto)]

mod addition;
mod begin;
mod described;
mod input;
mod keep;
mod laws;
mod leaving;
mod node;
mod node_fault;
mod prepare;
mod together;

pub use described::Described;
pub use input::{Input, Looked, Output};
pub use laws::{
    a_node_stays_sound, a_turn_keeps_what_was_applied, one_input_alone_is_a_step,
    what_was_sent_stays_and_is_not_read,
};
pub use node::Node;
pub use node_fault::{Cause, NodeFault, Unsaved};
