//! Laws of the bouncer, replicated over a group of nodes, over every list of timeouts, deliveries, losses, repeats,
//! reorderings, requests, upstream lines, restarts and stops. world_app uses it. The nodes agree, playback is faithful,
//! requests act once, lines are handed once, and confirmed looks are current.
#![tactic(auto)]

mod bouncers;
mod laws;
mod running;

pub use bouncers::run_bouncers;
pub use laws::{
    confirmed_looks_are_current, lines_are_handed_once, playback_is_faithful, requests_act_once,
    requests_are_linearizable, the_nodes_agree, the_tower_is_so_described,
};
pub use running::running_bouncers_keep_the_promises;
