//! `bouncer run`: the nodes of a bouncer, their clients and the server, until standard input ends.
//! One loop waits for all sockets, never for one alone. Beside it are what the configuration says,
//! the journals, and what is logged. Used by bouncer_app. There are as many nodes as the
//! configuration has addresses, node N over the Nth journal. What the driver orders waits for its
//! client or for the server, or is sent to its node, once and in order; what waits for a connection
//! is the rest of what was written. No contract says what else the loop does.
#![tactic(auto)]

mod absent;
mod accepting;
mod carrying;
mod checking;
mod clients;
mod clock;
mod connection;
mod driver_settings;
mod edge_news;
mod ending;
mod event_loop;
mod fault;
mod first_lines;
mod first_mark;
mod flushing;
mod folders;
mod following;
mod gone;
mod group;
mod growth;
mod guest;
mod hands;
mod hearing;
mod inlet;
mod inlets;
mod input;
mod journal_errors;
mod journal_files;
mod late_journal;
mod leaving;
pub mod limits;
mod listening;
mod log_rate;
mod loop_news;
mod made;
mod opening;
mod operator;
mod orders;
mod outgoing;
mod outlet;
mod parts;
mod past;
mod pieces;
mod program;
mod queue;
mod ration;
mod reading;
mod reasons;
mod record_file;
mod run_fault;
mod running;
mod server;
mod settling;
mod sockets;
mod stopping;
mod store_news;
mod store_watch;
mod system;
mod telling;
mod turns;
mod warnings;

pub use checking::{Checked, check};
pub use fault::fault_of_cluster;
pub use hands::Hands;
pub use program::run;
pub use reading::read;
pub use run_fault::RunFault;
pub use system::System;
