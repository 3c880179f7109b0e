//! What a run of a bouncer would do according to its configuration, in lines of text. Used by bouncer_run. A plan has
//! the lines of its definition, which knows about the passwords only whether the server is sent one.
#![tactic(auto)]

mod paths;
mod planning;
mod text;
mod warning;

pub use paths::journal_path;
pub use planning::plan;
pub use warning::Warning;
