//! The smallest machine that a node can host, for tests of nodes and of groups of them. Used by headline, world_cases,
//! node_cases and bouncer_bench. Promises the laws of a hosted machine: each body brings its number about, and the last
//! one is played.
#![tactic(auto)]

mod marking;
mod toy;

pub use toy::Toy;
