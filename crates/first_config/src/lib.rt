//! A first configuration, as `bouncer init` writes it: every key with its meaning, a fresh password, and the answers of
//! the person. Used by bouncer_app. Promises that what is to be written is a configuration; a text that would be none
//! is refused, with the reason.
#![tactic(auto)]

mod answers;
mod asking;
mod fault;
mod folder;
mod password;
mod sample;
mod text;

pub use answers::Answers;
pub use asking::ask;
pub use fault::InitFault;
pub use folder::{Written, write_first};
pub use password::random_password;
pub use text::{FirstConfig, first_config};
