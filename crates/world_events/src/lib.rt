//! What may happen to a group of nodes, as one list of events. Used by recorder, world_run and headline. It has no
//! functions, and promises nothing: events are an enum, with a node of a group in each case.
#![tactic(auto)]

mod event;

pub use event::{Event, Input};
