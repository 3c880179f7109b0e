//! Lines and names of IRC: their grammar, how a content is read, and the one canonical spelling of a line. Used by
//! nearly all other crates, wire_bytes, client_gate and uplink among them. Promises that a content is read as the
//! grammar says, or its first fault is returned, and that a line has one spelling.
#![tactic(auto)]

mod bytes;
mod comparing;
mod draft;
mod fault;
mod fold;
mod item;
pub mod laws;
mod limits;
mod line;
mod name;
mod reading;
mod shared;
mod spelling;
mod splitter;
mod tail;
mod text;
mod word;

pub use bytes::is_same;
pub use fault::LineFault;
pub use fold::{compare_names, fold_name, is_name_below, is_same_name};
pub use item::Item;
pub use limits::{CONTENT_LIMIT, LINE_LIMIT, NAME_LIMIT, PARAMETER_LIMIT, limits_of_lines};
pub use line::Line;
pub use name::{Name, is_a_name, is_channel_name};
pub use shared::SharedBytes;
pub use spelling::write_parts;
pub use splitter::Splitter;
pub use text::{ACTION_MARK, Text, is_a_text, is_action};
