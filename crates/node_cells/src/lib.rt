//! Nodes that run: each with its pass at the ether, its record, and where its lines go. records and node_threads use
//! it. Each turn, look and restart is events at the node's own view; over an honest store what comes out of each is in
//! the record, if the cell records, and what it sent was posted once; each line that leaves is one call of the
//! upstream, in order. Each mark has a new number, and a look that waits for one is played by a list that has it.
#![tactic(auto)]

mod book;
mod cell;
mod cell_fault;
mod closing;
mod copying;
mod for_record;
mod handing;
mod laws;
mod mark_turn;
mod phase;
mod reaching;
mod record;
mod remembered;
mod told_input;
mod unopened_cell;
mod upstream;

pub use cell::NodeCell;
pub use cell_fault::CellFault;
pub use closing::Closing;
pub use laws::one_input_alone_is_a_turn;
pub use mark_turn::MarkTurn;
pub use phase::Phase;
pub use record::{NodeRecord, NodeTurn, Recording, TurnOutput};
pub use unopened_cell::UnopenedCell;
pub use upstream::{Upstream, UpstreamFault};
