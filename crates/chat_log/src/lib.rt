//! The chat in a node's journal, as text: one line for each line from upstream and for what clients said. Used by
//! bouncer_app. Promises that the text is the definition's for the commands that the journal's entries give, each
//! printed once; that without the server's other lines it is the lines of the chat among these; and that no control
//! character is printed.
#![tactic(auto)]

mod chat;
mod choice;
mod log;
mod printing;
mod setup;
mod stamp;
mod telling;
mod text;

pub use choice::Extent;
pub use log::chat_log;
