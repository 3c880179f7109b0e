//! The machine that the nodes of a bouncer host: buffers whose sessions with upstream follow one another, whose lines
//! for upstream are numbered and claimed once, and whose requests take effect once. Used by headline, chat_log, driver
//! and bouncer_run, among others. Promises that the answers of a list of bodies are the definitions' of all layers
//! together.
#![tactic(auto)]

mod answers;
mod fits;
mod hosted;
mod laws;
mod marking;
mod tower;

pub use answers::answer_all;
pub use laws::{
    a_blank_or_a_mark_changes_nothing, a_dropped_request_changes_nothing, each_line_is_handed_once,
    each_request_is_done_once, no_number_is_handed_out_twice,
};
pub use tower::{Layers, Tower, TowerBody, TowerEffect};
