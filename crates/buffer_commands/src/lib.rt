//! What comes to the buffers of a bouncer and what they bring about: commands and their bytes,
//! effects, and the setup. Used by buffer_machine, client_gate and driver, among others. Promises
//! that actions and commands have one spelling each, and that a setup keeps its limits.
#![tactic(auto)]

mod action_spelling;
mod buffer_size;
mod channel_name;
mod command;
mod command_spelling;
mod effect;
mod fields;
mod options;
mod setup;
mod setup_fault;
mod verb;
mod wire_line;

pub use buffer_size::BufferSize;
pub use channel_name::ChannelName;
pub use command::{Action, Command, Verb};
pub use effect::Effect;
pub use options::Options;
pub use setup::{MOST_CHANNELS, MOST_LINES, MOST_QUERIES, Setup, limits_of_setups};
pub use setup_fault::SetupFault;
pub use wire_line::WireLine;
