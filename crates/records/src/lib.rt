//! What the nodes of a run did: their records as one list, the text of a record file, and what is read from one.
//! world_app and bouncer_run use it. The text of a run is the file of the merge of its nodes' records: what happened to
//! each node, by rising ticket, and what came out of it. What is read from a text is the record whose file it is, and
//! no text is the file of two; recorded lines are those of a run exactly if they are one text, else the first other
//! line is reported.
#![tactic(auto)]

mod converting;
mod file_version;
mod items;
mod laws;
mod merging;
mod output;
mod reading;
mod record;
mod replay_fault;
mod text;
mod text_fault;
mod verdict;
mod writable;
mod writing;

pub use converting::{event_of, record_of};
pub use file_version::FileVersion;
pub use laws::{
    a_file_is_of_one_record, a_file_of_the_first_version_brings_no_name, a_verdict_is_of_the_lines,
};
pub use merging::merge;
pub use reading::{Recording, parse_record};
pub use record::{Merged, Record, Turn};
pub use replay_fault::ReplayFault;
pub use text::run_text;
pub use text_fault::TextFault;
pub use verdict::{Verdict, verdict_of};
pub use writing::write_record;
