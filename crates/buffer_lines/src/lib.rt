//! The last lines of one target, with their times, as they are played to a client. Used by buffer_targets,
//! buffer_commands and buffer_machine, among others. Promises that a ring keeps the last lines by its size, and plays
//! these with their times between two frame lines.
#![tactic(auto)]

mod head;
mod kept_line;
mod line_ring;
mod offset;
mod shown;
mod stamp;

pub use kept_line::KeptLine;
pub use line_ring::LineRing;
pub use offset::Offset;
pub use shown::Shown;
