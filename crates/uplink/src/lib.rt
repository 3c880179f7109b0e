//! Speaks IRC to the upstream server, for the node that leads: it registers, answers PING, and reports when the session
//! opens, what is heard and that it is closed. driver uses it, and so do the tests of buffer_cases and node_cases. What
//! it gives and writes is that of a definition over all bytes fed, however these are cut.
#![tactic(auto)]

mod input;
pub mod laws;
mod meaning;
mod passed;
mod passing;
mod sending;
mod session;
mod standing;
mod uplink;

pub use input::UplinkInput;
pub use passed::Passed;
pub use uplink::Uplink;
