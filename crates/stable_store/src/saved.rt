use raft_log::{Log, NodeId};
use std::alloc::{AllocError, Global};
use wire_bytes::{Copied, Number, Wire};

/// What a store holds: a node's runs so far, its term, its vote in that term, and its log.
#[derive(Drop)]
pub struct Saved<B: Wire> {
    pub boot: Number,
    pub term: Number,
    pub vote: Option<NodeId>,
    pub log: Log<B>,
}

impl<B: Wire> Copied for Saved<B> {
    fn copy(&self, alloc: Global) -> Result<Self, AllocError> {
        Ok(Saved {
            boot: self.boot,
            term: self.term,
            vote: self.vote,
            log: self.log.copy(alloc)?,
        })
    }
}
