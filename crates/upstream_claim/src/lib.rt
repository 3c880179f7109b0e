//! Lines for upstream that are numbered, kept until they are claimed and handed out once, over any machine that knows
//! the session in force. Used by bouncer_tower, client_gate and driver, among others. Promises that over a whole list
//! the lines handed out are those of the claims, and no number is handed out twice.
#![tactic(auto)]

mod claims;
mod command;
mod effect;
mod laws;
pub mod limits;
mod step;
mod unclaimed;

pub use claims::Claims;
pub use command::ClaimsCommand;
pub use effect::ClaimsEffect;
pub use laws::{each_hand_is_a_claim, each_line_is_claimed_once, no_number_is_handed_out_twice};
