//! Speaks IRC to one client of a bouncer: it reads the client's bytes, numbers its requests, and writes their effects.
//! Used by driver, and by the tests of buffer_cases and node_cases. Promises that the requests, bytes and closes of all
//! calls are the definition's, however a client's bytes are cut.
#![tactic(auto)]

mod admission;
mod arriving;
mod client_command;
mod fed;
mod gate;
pub mod laws;
pub mod limits;
mod messages;
mod passing;
mod password;
mod phase;
mod request;
mod serve;
mod settings;
mod splitting;
mod status;
mod status_word;
mod turn;
mod waiting;
mod writing;

pub use fed::Fed;
pub use gate::{ClientGate, GateEffect};
pub use request::Request;
pub use splitting::pieces;
pub use status_word::StatusWord;
