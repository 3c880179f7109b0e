//! Renewing a list of bodies: a short list that leads to the same, as far as another setup allows. Used by
//! journal_folder. Promises that under the same setup, whatever comes after the new list brings about the same as after
//! the old one.
#![tactic(auto)]

mod anew;
mod bound;
mod brought;
mod change;
mod draft;
mod fault;
mod keeping;
mod kept;
mod laws;
mod logs;
mod marking;
mod moved;
mod noting;
mod proposal;
mod same;
mod saying;

pub use fault::RenewalFault;
pub use laws::{
    the_same_setup_means_the_same, what_a_change_keeps, what_is_held_the_same_is_renewed,
};
pub use logs::{Renewal, renewed};
