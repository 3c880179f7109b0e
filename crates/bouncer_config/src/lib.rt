//! The configuration of a running bouncer: what a TOML text says about it, and why one is refused. Used by run_plan,
//! bouncer_run and buffer_cases. A configuration that is accepted says what its table says, or the defaults, within all
//! limits; for one that is refused, all that is wrong is reported.
#![tactic(auto)]

mod address;
mod channel_keys;
mod config;
mod config_fault;
mod detail;
mod disk_paths;
mod first_lines;
mod folders;
mod gathering;
mod input_end;
mod judging;
mod key;
mod key_fault;
pub mod limits;
mod lines;
mod lists;
mod log_level;
mod nearest;
mod parse;
mod password;
mod placing;
mod problem;
mod reading;
mod saying;
mod unknown;

pub use address::Address;
pub use channel_keys::ChannelKey;
pub use config::Config;
pub use config_fault::ConfigFault;
pub use detail::Detail;
pub use folders::folder_of;
pub use input_end::InputEnd;
pub use key::{Key, Kind, Limits};
pub use key_fault::KeyFault;
pub use log_level::LogLevel;
pub use parse::parse_config;
pub use password::Password;
pub use problem::Problem;
