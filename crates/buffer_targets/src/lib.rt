//! The channels and the queries of a bouncer, each with its last lines, found by folded name. Used by buffer_machine
//! and buffer_cases. Promises that a change of one target changes no other, and that past the most queries the oldest
//! is dropped.
#![tactic(auto)]

mod channel;
mod channels;
mod index;
pub mod limits;
mod queries;
mod seen;
mod target;

pub use channel::Channel;
pub use channels::Channels;
pub use queries::Queries;
pub use seen::READERS;
pub use target::Target;
