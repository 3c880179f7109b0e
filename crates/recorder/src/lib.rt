//! Events, their effects, and the state of nodes after them, as lines of text. Used by world_lines, records and
//! fold_app. Parsing a text gives the events whose lines it consists of, or names the first line that is no event; no
//! two lists of events have one text.
#![tactic(auto)]

mod backwards;
mod dated;
mod effects;
mod event;
mod events;
mod events_fault;
mod fields;
mod input;
mod kind;
mod laws;
mod node_line;
mod splitting;
mod words;
mod writing;

pub use dated::{Dated, event_brings_name};
pub use effects::{Words, printed, push_answers};
pub use event::read_event;
pub use events::parse_events;
pub use events_fault::EventsFault;
pub use fields::read_number;
pub use input::read_input;
pub use laws::{no_two_lists_have_one_text, what_is_written_has_no_bad_line};
pub use node_line::{NodeFields, push_fields, push_node};
pub use splitting::split;
pub use words::read_body;
pub use writing::{push_body, push_event, push_input, push_number, write_events};
