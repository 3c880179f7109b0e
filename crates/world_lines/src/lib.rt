//! What comes out of a list of events, and the nodes' states afterwards, as lines of text. records
//! and world_app use it. The text is exactly the one that the definitions give for these events.
#![tactic(auto)]

mod named;
mod nodes;
mod outcomes;
mod spelled;
mod text;

pub use named::named_by;
pub use nodes::push_nodes;
pub use outcomes::{push_outcome, push_outcomes};
pub use spelled::Spelled;
pub use text::world_text;
