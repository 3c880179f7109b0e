//! Numbered commands, as text, folded into what their clients are shown. bouncer_app and buffer_cases use it. What
//! `fold` writes is the text of the definitions' answers, for every reader whose bytes a contract can name; a fault
//! names the first bad line, and nothing was written.
#![tactic(auto)]

mod bodies;
mod fault;
mod feeding;
mod folds;
mod lines;

pub use fault::FoldFault;
pub use folds::{fold, fold_input};
