ghost use Rattle.std.specs.Prelude.{◌≡◌, ◌≢◌, ◌≤◌, ◌<◌, length, Some};
ghost use Rattle.raft_log.specs.Batches.{batch_limit};
ghost use Rattle.stable_store.specs.Changes.{change, vote_byte, vote_of, FitsChange};

use crate::entries::{Entries, all_fit};
use raft_log::Entry;
use std::alloc::{AllocError, Global};
use std::marker::Model;
use wire_bytes::{Copied, Number, Wire, WireFault, undo};

/// What is saved at once: boot, term and vote, how many entries are kept, and those that follow
/// them, at most [`raft_log::BATCH_LIMIT`].
///
/// A vote is for a node from 1 on, also past 7, since the bytes of a change may say so; only a vote
/// for a node of a group may follow what a store holds.
#[derive(Drop)]
pub struct Change<B: Wire> {
    boot: Number,
    term: Number,
    vote: Option<u8>,
    keep: Number,
    entries: Entries<B>,
}

impl<B: Wire> Model for Change<B> {
    ghost use Rattle.stable_store.specs.Changes.{change, ChangeParts, IsVote};

    ghost Value = { ChangeParts B };

    ghost view = { λ c. change c.boot c.term c.vote c.keep c.entries };

    ghost invariant = { λ c. IsVote c.vote };
}

impl<B: Wire> Change<B> {
    pub fn new(
        boot: Number,
        term: Number,
        vote: Option<u8>,
        keep: Number,
        entries: Vec<Entry<B>>,
    ) -> Self
        requires vote { vote ≢ Some 0 }
        requires few { length entries.items ≤ batch_limit }
        ensures { result ≡ change boot term vote keep entries.items }
    {
        Change {
            boot,
            term,
            vote,
            keep,
            entries: Entries::new(entries),
        }
    }

    /// Does nothing. A change always has a spelling, since its types keep its limits.
    pub fn fits(&self)
        ensures { FitsChange B.fits B.spelled self.now }
    {
        all_fit(self.entries.as_slice());
        let _ = (self.boot.value(), self.term.value(), self.keep.value());
        byte_of(self.vote);
    }

    pub fn boot(&self) -> Number
        ensures { result ≡ self.now.boot }
    {
        self.boot
    }

    pub fn term(&self) -> Number
        ensures { result ≡ self.now.term }
    {
        self.term
    }

    pub fn vote(&self) -> Option<u8>
        ensures value { result ≡ self.now.vote }
        ensures node { self.now.vote ≢ Some 0 }
    {
        self.vote
    }

    /// How many entries of the log are kept.
    pub fn keep(&self) -> Number
        ensures { result ≡ self.now.keep }
    {
        self.keep
    }

    /// The entries that follow those that are kept.
    pub fn entries(&self) -> &[Entry<B>]
        ensures value { result.now ≡ self.now.entries }
        ensures few { length self.now.entries ≤ batch_limit }
    {
        self.entries.as_slice()
    }

    /// Returns the entries that follow, unchanged.
    pub fn into_entries(self) -> Vec<Entry<B>>
        ensures { result.items ≡ self.entries }
    {
        self.entries.into_vec()
    }
}

impl<B: Wire> Copied for Change<B> {
    fn copy(&self, alloc: Global) -> Result<Self, AllocError> {
        let entries = self.entries.copy(alloc)?;
        Ok(Change {
            boot: self.boot,
            term: self.term,
            vote: self.vote,
            keep: self.keep,
            entries,
        })
    }
}

/// Boot, term, one byte for the vote (0 for none), the number of entries that are kept, and the
/// entries.
impl<B: Wire> Wire for Change<B> {
    ghost use Rattle.stable_store.specs.Changes.{spelled_change, FitsChange, change_taken};
    ghost use Rattle.stable_store.specs.Changes.{wants_change};
    ghost use Rattle.stable_store.specs.ChangeCodec.{change-codec};

    ghost spelled = { spelled_change B.spelled };

    ghost fits = { FitsChange B.fits B.spelled };

    ghost taken = { change_taken B.taken };

    ghost wants = { wants_change B.wants B.taken };

    #[tactic(auto, unfolding(crate::specs::Changes::spelled_change))]
    fn put(&self, out: &mut Vec<u8>) -> Result<(), AllocError> {
        let len = out.len();
        (((self.boot, self.term), byte_of(self.vote)), self.keep).put(out)?;
        let outcome = self.entries.put(out);
        undo(out, len, outcome)
    }

    fn take(alloc: Global, input: &[u8]) -> Result<(Self, usize), WireFault> {
        let (((((boot, term), vote), keep), entries), len) = <(
            (((Number, Number), u8), Number),
            Entries<B>,
        )>::take(alloc, input)?;
        let change = Change {
            boot,
            term,
            vote: named(vote),
            keep,
            entries,
        };
        Ok((change, len))
    }

    ghost is_codec = { change-codec B.spelled B.fits B.taken B.is_codec };
}

fn byte_of(vote: Option<u8>) -> u8
    ensures { result ≡ vote_byte vote }
{
    match vote {
        None => 0,
        Some(node) => node,
    }
}

fn named(byte: u8) -> Option<u8>
    ensures { result ≡ vote_of byte }
{
    if byte == 0 { None } else { Some(byte) }
}
