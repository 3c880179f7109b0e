//! Groups of whole nodes, over every list of events, for every machine that keeps the laws. world_views, headline and
//! world_app use it. The world in which the nodes' own code ends after a list of events is the definition's: the nodes
//! agree on one list, and no more leaves than that list brings about.
#![tactic(auto)]

mod agreeing;
mod cell;
mod confirmed;
mod faithful;
mod group;
mod handed;
mod outcome;
mod running;
mod told;
mod world;

pub use agreeing::{
    a_new_leader_appends_a_blank_entry, a_vote_is_never_changed, committed_lists_agree,
    later_leaders_hold_what_is_committed, logs_match, one_leader_a_term,
    the_most_up_to_date_log_holds_all,
};
pub use cell::Cell;
pub use confirmed::what_is_asked_later_stands_above;
pub use faithful::{no_more_leaves_than_is_agreed, what_leaves_is_of_the_agreed_list};
pub use group::Group;
pub use outcome::{Outcome, WorldFault};
pub use running::{each_node_is_sound, runs_are_apart, sessions_are_apart};
pub use world::World;
