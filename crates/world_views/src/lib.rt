//! What running nodes did, each by its own view, and what all views give together. ether, node_cells and headline use
//! it. If the views of all nodes keep the rule over honest stores, the events of all records by rising ticket are one
//! list, which leads to the states of all views; so what holds for every list of events holds for running nodes.
#![tactic(auto)]

mod envelope;
mod handed_apart;
mod merged_records;
mod node_event;
mod one_history;

pub use envelope::Envelope;
pub use handed_apart::{no_more_leaves_than_is_agreed, no_number_is_handed_by_two_nodes};
pub use merged_records::{records_merge, records_merge_in_one_way, what_was_sent_is_not_read};
pub use node_event::{NodeEvent, NodeInput};
pub use one_history::{
    committed_lists_agree, merged_records_replay, openings_go_on_from_events,
    turns_are_events_of_the_history, views_have_one_history,
};
