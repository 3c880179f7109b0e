//! Lists of bodies that one leader brings, in one run of node 1 that nothing interrupts. Used by renewal and
//! store_life. Promises that the fold of a list shows whether it is such a list, and follows all its bodies.
#![tactic(auto)]

mod claiming;
mod fold;
mod leading;
mod may_bring;

pub use fold::fold_led;
pub use leading::Leading;
