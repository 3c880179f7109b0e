//! Why journals failed.
use crate::absent::Absent;
use bouncer_tower::TowerBody;
use driver::News;
use file_disk::{FileJournal, LastError};
use raft_log::NodeId;
use raft_node::Cause;
use std::alloc::{AllocError, Global};
use std::{fmt, io};
use wire_bytes::MOST_NODES;

/// Why each node's journal failed last, node 1's first, also while the nodes use them.
#[derive(Drop)]
pub struct JournalErrors {
    errors: Vec<LastError>,
}

impl JournalErrors {
    /// Those of these journals, and of those that are opened late.
    pub fn of(
        alloc: Global,
        journals: &[Option<FileJournal<TowerBody>>],
    ) -> Result<JournalErrors, AllocError> {
        let mut errors = Vec::new(alloc);
        for journal in journals {
            errors.push(match journal {
                Some(journal) => journal.disk().last_error()?,
                None => LastError::none(alloc)?,
            })?;
        }
        Ok(JournalErrors { errors })
    }

    /// The journals of these nodes could not be opened.
    pub fn note(&self, absent: &[Absent]) {
        for one in absent {
            if let Some(error) = self.of_node(one.node) {
                error.note_error(&one.error);
            }
        }
    }

    /// The place to note why the journal of a node failed, if there is such a node.
    pub fn of_node(&self, node: NodeId) -> Option<&LastError> {
        let place = (node.value() as usize).checked_sub(1)?;
        self.errors.get(place)
    }

    /// The first node whose journal failed, if one did, and why, if the system reported it.
    pub fn first(&self) -> Option<(NodeId, Option<io::Error>)> {
        for index in 0..MOST_NODES {
            if let Some(error) = self.errors.get(index as usize) {
                if error.is_met() {
                    return Some((NodeId::new(index + 1), error.get()));
                }
            }
        }
        None
    }

    /// Why the journal of a node failed, if this says that the node is down for that reason.
    pub fn of_news(&self, news: &News) -> Option<io::Error> {
        let News::Down(node, Cause::Store) = news else {
            return None;
        };
        self.of_node(*node)?.get()
    }
}

/// What happened, and why.
#[derive(Drop)]
pub struct Because<'a> {
    pub news: &'a News,
    pub error: io::Error,
}

impl fmt::Display for Because<'_> {
    fn fmt<W: fmt::Write>(&self, f: &mut fmt::Formatter<W>) -> fmt::Result {
        write!(f, "{}: {}", self.news, self.error)
    }
}
