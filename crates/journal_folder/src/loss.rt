//! Journals that are lost, and why.
ghost use Rattle.std.specs.Prelude.{◌≡◌, ◌≢◌, [], false, IfOk, IsTrue, map, string_bytes};

use crate::folders::{copies_of, folder_of};
use raft_log::NodeId;
use std::alloc::{AllocError, Global};
use std::fmt;

/// Why a node's journal is lost.
#[derive(Clone, Copy, Debug, PartialEq, Eq)]
pub enum Loss {
    /// There is no file.
    Missing,
    /// Nothing is saved in it, while entries are saved in another one.
    Empty,
    /// A log of the others mentions a later run of its node.
    Older,
    /// Its file is no journal.
    NotAStore,
    /// There is no valid record at this place of its file, from 0.
    Damaged(u64),
}

impl fmt::Display for Loss {
    fn fmt<W: fmt::Write>(&self, f: &mut fmt::Formatter<W>) -> fmt::Result {
        match self {
            Loss::Missing => f.write_str("is missing"),
            Loss::Empty => f.write_str("is empty"),
            Loss::Older => f.write_str("is an older copy, or another node's"),
            Loss::NotAStore => f.write_str("is no journal"),
            Loss::Damaged(place) => write!(f, "is damaged at byte {place}"),
        }
    }
}

/// A journal that is lost.
#[derive(Clone, Copy, Debug, PartialEq, Eq)]
pub struct LostJournal {
    pub node: NodeId,
    pub loss: Loss,
}

/// The journals of a group that are lost, as they are reported.
#[derive(Debug, Drop)]
pub struct LostJournals {
    pub journals: Vec<LostJournal>,
}

impl LostJournals {
    /// Whether there are none.
    pub fn is_none(&self) -> bool
        ensures none { IsTrue result → self.now.journals.items ≡ [] }
        ensures some { result ≡ false → self.now.journals.items ≢ [] }
    {
        match self.journals.as_slice() {
            [] => true,
            _ => false,
        }
    }

    /// A copy.
    pub fn again(&self, alloc: Global) -> Result<LostJournals, AllocError>
        ensures { IfOk result (λ lost. lost.journals.items ≡ self.now.journals.items) }
    {
        let journals = Vec::from_slice(alloc, &self.journals)?;
        Ok(LostJournals { journals })
    }
}

/// Written as `node 2's journal is empty, node 3's journal is missing`.
impl fmt::Display for LostJournals {
    fn fmt<W: fmt::Write>(&self, f: &mut fmt::Formatter<W>) -> fmt::Result {
        for index in 0..self.journals.len() {
            f.write_str(joint(index))?;
            let LostJournal { node, loss } = self.journals[index];
            write!(f, "node {}'s journal {loss}", node.value())?;
        }
        Ok(())
    }
}

/// Too few journals of a store are whole for it to start.
#[derive(Debug, Drop)]
pub struct TooFew {
    folders: Vec<String>,
    lost: LostJournals,
}

impl TooFew {
    /// These journals of these folders are lost.
    pub fn new(alloc: Global, folders: &[String], lost: LostJournals) -> Result<TooFew, AllocError>
        ensures lost { IfOk result (λ few. few.lost ≡ lost) }
        ensures folders { IfOk result (λ few.
            map string_bytes few.folders.items ≡ map string_bytes folders.now) }
    {
        let folders = copies_of(alloc, folders)?;
        Ok(TooFew { folders, lost })
    }

    /// The folder of a node, as it is reported.
    fn folder_of(&self, node: NodeId) -> &str {
        match self.folders.as_slice() {
            [] => "",
            folders => folder_of(folders, node),
        }
    }
}

/// Lists each file that is wrong, and what to do.
impl fmt::Display for TooFew {
    fn fmt<W: fmt::Write>(&self, f: &mut fmt::Formatter<W>) -> fmt::Result {
        for index in 0..self.lost.journals.len() {
            f.write_str(joint(index))?;
            let LostJournal { node, loss } = self.lost.journals[index];
            write!(f, "{}/node-{} {loss}", self.folder_of(node), node.value())?;
        }
        f.write_str(
            ": more than half of the journals have to be whole, so nothing was changed: put these files back, or the whole folder from a backup",
        )
    }
}

/// What is put before the item at this index of a list.
fn joint(index: usize) -> &'static str {
    if index == 0 { "" } else { ", " }
}
