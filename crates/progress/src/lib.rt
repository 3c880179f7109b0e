//! That no world that a group may reach is a dead end. It builds on world_run. Whatever happened, any majority of the
//! nodes can have a leader, commit all that this has, bring through what is asked for at any of them, play a look
//! there, open a session, join the channels again by it and claim a line that waits, by further events that a function
//! of the world gives.
#![tactic(auto)]

mod laws;

pub use laws::{
    a_leader_can_be_had, a_line_that_waits_is_claimed, a_line_that_waits_is_handed,
    a_look_is_played, a_session_can_be_opened, a_session_joins_its_channels_again,
    no_bouncer_wedges, nothing_wedges, what_a_leader_has_can_be_committed,
};
