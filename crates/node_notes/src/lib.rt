//! What the driver of a bouncer sends to a node's worker, and what the worker reports. driver, node_threads and
//! bouncer_run use it. What a note is to its node, the state of a node, and whether it leads and is up, are the
//! definitions'.
#![tactic(auto)]

mod note;
mod progress;
mod report;
mod status;

pub use note::Note;
pub use progress::Progress;
pub use report::Report;
pub use status::Status;
