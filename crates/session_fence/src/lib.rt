//! Sessions with upstream that follow one another, over any machine that gets upstream's lines. Used by bouncer_tower,
//! client_gate and driver, among others. Promises that a line from upstream takes effect once, in order, under the
//! session in force.
#![tactic(auto)]

mod command;
mod effect;
mod fence;
mod laws;
mod session;
mod step;

pub use command::FenceCommand;
pub use effect::FenceEffect;
pub use fence::Fence;
pub use laws::each_line_is_heard_once_and_in_order;
