ghost use Rattle.std.specs.Prelude.{◌≡◌, IsOk};
ghost use Rattle.stable_store.specs.Stores.{NamesNode, nothing_saved};

use crate::change::Change;
use crate::saved::Saved;
use crate::stable::Stable;
use crate::store_fault::StoreFault;
use raft_log::{Log, NodeId};
use std::alloc::Global;
use wire_bytes::{Copied, Number, Wire};

/// A store in memory, which lives as long as the program does.
#[derive(Drop)]
pub struct MemoryStore<B: Wire> {
    alloc: Global,
    saved: Saved<B>,
}

impl<B: Wire> MemoryStore<B> {
    /// A store of boot 0, term 0, no vote and no entries.
    pub fn new(alloc: Global) -> Self
        ensures { ⟦<MemoryStore<B> as Stable<B>>⟧.saved result ≡ nothing_saved }
    {
        let saved = Saved {
            boot: Number::new(0),
            term: Number::new(0),
            vote: None,
            log: Log::new(alloc),
        };
        MemoryStore { alloc, saved }
    }

    /// A store with this state.
    pub fn holding(alloc: Global, saved: Saved<B>) -> Self
        ensures { ⟦<MemoryStore<B> as Stable<B>>⟧.saved result ≡ saved }
    {
        MemoryStore { alloc, saved }
    }
}

/// It fails only if memory runs out, and then nothing changes.
impl<B: Wire> Stable<B> for MemoryStore<B> {
    ghost use Rattle.std.specs.Prelude.{◌≡◌, false, true};

    ghost saved = { λ s. s.saved };

    ghost may_stand = { λ s v. v ≡ s.saved };

    ghost condition = { λ _. record { honest = true; broken = false; failures = 0 } };

    fn read(&self) -> Result<Saved<B>, StoreFault> {
        Ok(self.saved.copy(self.alloc)?)
    }

    fn save(&mut self, change: &Change<B>) -> Result<(), StoreFault> {
        // the one step that can fail goes first
        self.saved
            .log
            .replace_from(change.keep(), change.entries())?;
        self.saved.boot = change.boot();
        self.saved.term = change.term();
        self.saved.vote = node_of(change.vote());
        Ok(())
    }

    /// Does nothing, and returns Ok.
    fn again(&mut self) -> Result<(), StoreFault>
        ensures ok { IsOk result }
        ensures same { self.new ≡ self.old }
    {
        // memory fails no call, so nothing is to be mended
        Ok(())
    }

    fn failures(&self) -> u64 {
        0
    }

    ghost sure = { λ s v c. (λ e. e, λ e. e) };
}

fn node_of(vote: Option<u8>) -> Option<NodeId>
    requires { NamesNode vote }
    ensures { result ≡ vote }
{
    match vote {
        None => None,
        Some(node) => Some(NodeId::new(node)),
    }
}
