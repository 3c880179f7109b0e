//! Lists of events, as text and as a drawing, over the nodes of a bouncer. bouncer_app uses it. What `bouncer world`
//! writes is the text of what comes out of the events of its input, and of the nodes' states afterwards; a record is
//! the same exactly if its lines are those of a run of its events; a drawing has a row for each event and an arrow for
//! each message that was delivered, as the definition's world has them.
#![tactic(auto)]

mod arrows;
mod delivered;
mod diagram;
mod diagrams;
mod drawing;
mod kinds;
mod lanes;
mod laws;
mod marks;
mod naming;
mod places;
mod record_fault;
mod recorded;
mod replays;
mod rows;
mod run_fault;
mod running;
mod sending_rows;
mod sizes;
mod style;
mod svg;
mod views;
mod words;
mod worlds;

pub use diagram::{Arrow, Change, Diagram, NodeView, Row};
pub use diagrams::diagram_of;
pub use drawing::draw;
pub use kinds::{Deed, Happening, MessageKind};
pub use laws::{arrows_leave_where_sent, rows_show_worlds};
pub use record_fault::RecordFault;
pub use recorded::replay_record;
pub use replays::replay;
pub use run_fault::RunFault;
pub use sizes::size_of;
pub use svg::picture;
pub use worlds::world;
