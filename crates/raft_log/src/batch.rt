ghost use Rattle.std.specs.Prelude.{◌≡◌};
ghost use Rattle.raft_log.specs.Batches.{batch, MayBeSent};

use crate::entry::Entry;
use std::alloc::{AllocError, Global};
use std::marker::Model;
use wire_bytes::{Copied, Number, Wire, copied_all};

/// How many entries may be sent or saved at once, and how many inputs may be done together.
// 256 entries of 2,000 bytes are half a megabyte: one write to a disk and one message to each node.
pub const BATCH_LIMIT: usize = 256;

/// What an Append contains: entries, the index before them with its term, and the sender's commit.
///
/// At most [`BATCH_LIMIT`] entries, and none past index 1,000,000.
#[derive(Drop)]
pub struct Batch<B: Wire> {
    prev_index: Number,
    prev_term: Number,
    entries: Vec<Entry<B>>,
    commit: Number,
}

impl<B: Wire> Model for Batch<B> {
    ghost use Rattle.raft_log.specs.Batches.{batch, BatchParts, MayBeSent};

    ghost Value = { BatchParts B };

    ghost view = { λ b. batch b.prev_index b.prev_term b.entries.items b.commit };

    ghost invariant = { λ b. MayBeSent b.prev_index b.entries.items };
}

impl<B: Wire> Batch<B> {
    pub fn new(
        prev_index: Number,
        prev_term: Number,
        entries: Vec<Entry<B>>,
        commit: Number,
    ) -> Self
        requires { MayBeSent prev_index entries.items }
        ensures { result ≡ batch prev_index prev_term entries.items commit }
    {
        Batch {
            prev_index,
            prev_term,
            entries,
            commit,
        }
    }

    /// The index before the entries.
    pub fn prev_index(&self) -> Number
        ensures value { result ≡ self.now.prev_index }
        ensures limits { MayBeSent self.now.prev_index self.now.entries }
    {
        self.prev_index
    }

    /// The term at the index before the entries.
    pub fn prev_term(&self) -> Number
        ensures { result ≡ self.now.prev_term }
    {
        self.prev_term
    }

    pub fn entries(&self) -> &[Entry<B>]
        ensures value { result.now ≡ self.now.entries }
        ensures limits { MayBeSent self.now.prev_index self.now.entries }
    {
        self.entries.as_slice()
    }

    pub fn into_entries(self) -> Vec<Entry<B>>
        ensures { result.items ≡ self.entries }
    {
        self.entries
    }

    /// The sender's commit.
    pub fn commit(&self) -> Number
        ensures { result ≡ self.now.commit }
    {
        self.commit
    }
}

impl<B: Wire> Copied for Batch<B> {
    fn copy(&self, alloc: Global) -> Result<Self, AllocError> {
        let entries = copied_all(alloc, &self.entries)?;
        Ok(Batch {
            prev_index: self.prev_index,
            prev_term: self.prev_term,
            entries,
            commit: self.commit,
        })
    }
}
