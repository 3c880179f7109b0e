ghost use Rattle.raft_log.specs.Entries.{FitsEntry};

use crate::body::LoggedBody;
use std::alloc::{AllocError, Global};
use wire_bytes::{Copied, Number, Wire, WireFault, undo};

/// A body and the term of the leader that appended it.
#[derive(Drop)]
pub struct Entry<B: Wire> {
    pub term: Number,
    pub body: LoggedBody<B>,
}

impl<B: Wire> Entry<B> {
    /// Does nothing. An entry always has a spelling, since its types keep its limits.
    pub fn fits(&self)
        ensures { FitsEntry B.fits B.spelled self.now }
    {
        self.term.value();
        self.body.get();
    }
}

impl<B: Wire> Copied for Entry<B> {
    fn copy(&self, alloc: Global) -> Result<Self, AllocError> {
        Ok(Entry {
            term: self.term,
            body: self.body.copy(alloc)?,
        })
    }
}

/// The term, and the body after its length.
impl<B: Wire> Wire for Entry<B> {
    ghost use Rattle.raft_log.specs.Entries.{spelled_entry, FitsEntry, entry_taken, wants_entry};
    ghost use Rattle.raft_log.specs.EntryCodec.{entry-codec};

    ghost spelled = { spelled_entry B.spelled };

    ghost fits = { FitsEntry B.fits B.spelled };

    ghost taken = { entry_taken B.taken };

    ghost wants = { wants_entry B.wants B.taken };

    #[tactic(auto, unfolding(crate::specs::Entries::spelled_entry))]
    fn put(&self, out: &mut Vec<u8>) -> Result<(), AllocError> {
        let len = out.len();
        self.term.put(out)?;
        let outcome = self.body.put(out);
        undo(out, len, outcome)
    }

    #[tactic(auto, using(wire_bytes::proofs::Steps::composed), unfolding(crate::specs::Entries::entry_taken))]
    fn take(alloc: Global, input: &[u8]) -> Result<(Self, usize), WireFault> {
        let ((term, body), len) = <(Number, LoggedBody<B>)>::take(alloc, input)?;
        Ok((Entry { term, body }, len))
    }

    ghost is_codec = { entry-codec B.spelled B.fits B.taken B.is_codec };
}
