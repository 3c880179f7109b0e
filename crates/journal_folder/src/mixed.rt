//! Folders that do not belong to one store.
use thiserror::Error;

/// Why some folders do not belong to one store, and what to do.
#[derive(Debug, Drop, Error)]
pub enum Mixed {
    /// The journal at this path belongs to a node that has this folder.
    #[error("{0}: its node's folder is {1}, so nothing was changed: move the journal there, and copy the file setup there too")]
    Misplaced(String, String),
    /// These two files describe different stores, or one store at different times.
    #[error("{0} and {1} differ: one of the two folders is of another store, or is an older copy, and nothing was changed: move what lies in that one away, and its journal is made again from the others")]
    Differ(String, String),
    /// There is a journal beside the first file, which is missing, while the second one exists.
    #[error("{0} is missing beside a journal, so nothing was changed: copy {1} there, if the journal is of that store, or move the journal away")]
    Undescribed(String, String),
    /// There is a renewed folder at this path, but neither old journals in the folders nor all renewed ones.
    #[error("{0}: it was renewed together with other folders, and nothing was changed: name those that it was renewed with in the configuration")]
    Unfinished(String),
}
