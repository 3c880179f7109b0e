//! The buffers of a bouncer: who is attached, what is kept for clients that are away, and what each command brings
//! about. Used by bouncer_tower, driver, headline and fold_app, among others. Promises that for every setup and list of
//! commands the effects, the playback and the nick are the definitions'.
#![tactic(auto)]

mod actions;
mod buffers;
mod channel_actions;
mod channel_changes;
mod client_names;
mod clients;
mod floors;
mod has_lines;
mod hearing;
mod laws;
mod lines;
mod machine;
mod message;
mod name_laws;
mod saying;
mod showing;
mod showing_again;
mod step;
mod storing;
mod target_actions;

pub use laws::{
    a_detached_channel_is_not_shown, no_target_keeps_more_than_its_size, playing_leaves_nothing,
    who_is_not_attached_changes_nothing,
};
pub use lines::{channel_of, has_command, is_message, is_new_nick, is_query_line, source_of};
pub use machine::BufferMachine;
pub use message::own_message;
pub use name_laws::{
    attaching_by_a_name_empties_nothing, no_more_than_64_names_are_known,
    what_is_seen_begins_what_is_kept, who_was_there_is_played_nothing,
    without_names_all_is_as_before,
};
