use crate::batch::Batch;
use crate::body::LoggedBody;
use std::alloc::{AllocError, Global};
use wire_bytes::{Copied, Number, Wire};

/// A message of one node to another.
#[derive(Drop)]
pub enum Kind<B: Wire> {
    /// A candidate asks for a vote, and says where its log ends.
    RequestVote {
        last_index: Number,
        last_term: Number,
    },
    Vote {
        granted: bool,
    },
    /// A leader's entries.
    Append(Batch<B>),
    /// Whether entries were taken, and up to which index; if not, the index that did not agree.
    AppendReply {
        ok: bool,
        place: Number,
    },
    /// A body for the leader to append.
    Forward(LoggedBody<B>),
}

/// A message between nodes, each numbered from 1, with the sender's term.
///
/// Messages are moved as values and have no spelling.
#[derive(Drop)]
pub struct Message<B: Wire> {
    pub term: Number,
    pub from: u8,
    pub to: u8,
    pub kind: Kind<B>,
}

impl<B: Wire> Copied for Kind<B> {
    fn copy(&self, alloc: Global) -> Result<Self, AllocError> {
        Ok(match self {
            Kind::RequestVote {
                last_index,
                last_term,
            } => Kind::RequestVote {
                last_index: *last_index,
                last_term: *last_term,
            },
            Kind::Vote { granted } => Kind::Vote { granted: *granted },
            Kind::Append(batch) => Kind::Append(batch.copy(alloc)?),
            Kind::AppendReply { ok, place } => Kind::AppendReply {
                ok: *ok,
                place: *place,
            },
            Kind::Forward(body) => Kind::Forward(body.copy(alloc)?),
        })
    }
}

impl<B: Wire> Copied for Message<B> {
    fn copy(&self, alloc: Global) -> Result<Self, AllocError> {
        Ok(Message {
            term: self.term,
            from: self.from,
            to: self.to,
            kind: self.kind.copy(alloc)?,
        })
    }
}
