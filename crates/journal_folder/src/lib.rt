//! The folders of the journals of a bouncer's nodes, one for all or one for each: what they say about earlier runs,
//! what the store in them is, and how folders with a renewed log replace them. Used by bouncer_run and bouncer_app.
//! Whether renewed folders count is decided only by their names, once each of them is whole, so that a program that is
//! killed at any moment leaves all of the old folders whole or all of the new ones. The log that counts is the one that
//! a leader elected by all nodes would have; each new journal holds the renewed log, a term and a run that never were,
//! and a vote for node 1. A log with another setup or another number of nodes than the configuration's is renewed
//! before any node starts, and so is that of a store some of whose journals are lost, from the others.
#![tactic(auto)]

mod absent;
mod adopting;
mod changed_keys;
mod coming;
mod counting;
mod earlier_runs;
mod fault;
mod folder;
mod folder_fault;
mod folders;
mod foretelling;
mod held;
mod journal_bytes;
mod locking;
mod looking;
mod loss;
mod making;
mod marks;
mod mixed;
mod naming;
mod nodes;
mod old_folders;
mod older;
mod paths;
mod placing;
mod planning;
mod renewed;
mod renewing;
mod saving;
mod settled;
mod settling;
mod standing;
mod store;
mod store_file;
mod store_name;

pub use absent::goes_on;
pub use changed_keys::ChangedKeys;
pub use coming::{Coming, Foretold};
pub use counting::{Numbers, greatest_of, most_entries, most_up_to_date};
pub use earlier_runs::{boot_in, greatest_boot};
pub use fault::{Refused, RenewFault};
pub use folder::{make_folder, sync_around};
pub use folder_fault::FolderFault;
pub use folders::folder_of;
pub use foretelling::foretold;
pub use journal_bytes::is_lost;
pub use loss::{Loss, LostJournal, LostJournals, TooFew};
pub use marks::{Marks, Stage, marks_of};
pub use mixed::Mixed;
pub use naming::{names_in, names_of};
pub use old_folders::{OldFolder, OldFolders};
pub use older::{first_older, run_told};
pub use paths::{NoPaths, Paths};
pub use placing::{decide, finish_renewal, put_in_place};
pub use planning::{Plan, planned};
pub use renewed::Renewed;
pub use renewing::renew;
pub use saving::{Unsaved, save_group, save_log};
pub use settled::Settled;
pub use settling::{settle, settle_by_reading};
pub use standing::{Journal, NodeJournal, Standing, stand_for};
pub use store::{Found, Next, next_of, store_of};
pub use store_file::setup_path;
