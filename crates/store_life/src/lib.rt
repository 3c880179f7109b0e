//! Stores that are begun anew with a list of bodies that one leader brings. Some list of events leaves what such stores
//! hold, so that all promises of the bouncer hold for the nodes that run over them; and in the life of a store nothing
//! that was agreed is lost and no line is handed upstream twice, even if a minority of the nodes loses its stores
//! between two periods.
#![tactic(auto)]

mod laws;
mod life;
mod nodes;
mod renewals;

pub use laws::{
    begun_anew_is_left_by_events, begun_anew_keeps_the_promises, begun_anew_stores_are_openings,
};
pub use life::{
    each_period_hands_its_own_lines, no_client_is_told_in_two_periods, no_line_is_handed_twice,
    waiting_lines_go_on, what_is_agreed_is_kept,
};
pub use nodes::{
    no_node_hands_a_line_again, running_nodes_make_a_period, views_are_of_their_period,
};
pub use renewals::{what_is_renewed_goes_on, what_is_renewed_is_begun_anew};
