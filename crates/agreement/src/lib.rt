//! That the nodes of a group agree, by Raft, whatever their logs are used for. world_run and headline use it. Over
//! every list of events, of any two committed lists one begins the other, and nothing is taken back.
#![tactic(auto)]

mod laws;

pub use laws::{
    a_new_leader_appends_a_blank_entry, the_most_up_to_date_log_holds_all, the_nodes_agree,
};
