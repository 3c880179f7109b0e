ghost use Rattle.std.specs.Prelude.{◌≡◌, ◌<◌, ◌≤◌, [], ◌∷◌, ◌++◌, Some, length, take};
ghost use Rattle.std.specs.Prelude.{IfOk, OnOk, OnErr, slice_get};
ghost use Rattle.raft_log.specs.Blocks.{block_size};
ghost use Rattle.wire_bytes.specs.Limits.{number_limit};

use crate::block::{BLOCK_SIZE, Block};
use crate::body::LoggedBody;
use crate::sharing::share_each;
use crate::tail::replace_tail;
use std::alloc::{AllocError, Global};
use std::marker::Model;
use wire_bytes::{Copied, Wire, copied_all};

/// A list as blocks: full ones, which copies of it share, and after them the last one, which grows.
#[derive(Drop)]
pub struct Blocks<T: Copied> {
    full: Vec<Block<T>>,
    last: Vec<T>,
}

impl<T: Copied> Model for Blocks<T> {
    ghost use Rattle.std.specs.Prelude.{List};
    ghost use Rattle.raft_log.specs.Blocks.{joined, AreBlocks};

    ghost Value = { List T };

    ghost view = { λ l. joined l.full.items l.last.items };

    ghost invariant = { λ l. AreBlocks l.full.items l.last.items };
}

impl<T: Copied> Blocks<T> {
    pub fn new(alloc: Global) -> Self
        ensures { result ≡ [] }
    {
        Blocks {
            full: Vec::new(alloc),
            last: Vec::new(alloc),
        }
    }

    pub fn len(&self) -> usize
        requires { length self.now < number_limit }
        ensures { result ≡ length self.now }
    {
        self.full.len() * BLOCK_SIZE + self.last.len()
    }

    /// The item after this many.
    pub fn get(&self, before: usize) -> &T
        requires { before < length self.now }
        ensures { slice_get self.now before ≡ Some result.now }
    {
        let block = before / BLOCK_SIZE;
        if block < self.full.len() {
            &self.full[block].items()[before % BLOCK_SIZE]
        } else {
            &self.last[before - self.full.len() * BLOCK_SIZE]
        }
    }

    /// Adds an item.
    pub fn push(&mut self, item: T) -> Result<(), AllocError>
        ensures ok { OnOk result (self.new ≡ self.old ++ item ∷ []) }
        ensures err { OnErr result (self.new ≡ self.old) }
    {
        if self.last.len() == BLOCK_SIZE {
            close(&mut self.full, &mut self.last)?;
        }
        Ok(self.last.push(item)?)
    }

    /// Replaces all that follow this many items by these.
    pub fn replace_behind(&mut self, keep: usize, items: Vec<T>) -> Result<(), AllocError>
        requires within { keep ≤ length self.old }
        requires limit { length self.old < number_limit }
        ensures ok { OnOk result (self.new ≡ take keep self.old ++ items.items) }
        ensures err { OnErr result (self.new ≡ self.old) }
    {
        let closed = self.full.len() * BLOCK_SIZE;
        if closed <= keep && items.len() <= BLOCK_SIZE - (keep - closed) {
            return replace_tail(&mut self.last, keep - closed, items);
        }
        // a block that is cut is copied, since copies of this list may have it
        let changed = self.first(keep)?;
        *self = changed.with_all(items)?;
        Ok(())
    }

    /// The first `count` items. The full blocks among them are shared.
    fn first(&self, count: usize) -> Result<Self, AllocError>
        requires { count ≤ length self.now }
        ensures { IfOk result (λ l. l ≡ take count self.now) }
    {
        let alloc = *self.last.allocator();
        let shared = (count / BLOCK_SIZE).min(self.full.len());
        let cut = if shared < self.full.len() {
            self.full[shared].items()
        } else {
            self.last.as_slice()
        };
        let last = copied_all(alloc, &cut[..count - shared * BLOCK_SIZE])?;
        let full = copied_all(alloc, &self.full[..shared])?;
        Ok(Blocks { full, last })
    }

    /// The list with these items added.
    fn with_all(mut self, items: Vec<T>) -> Result<Self, AllocError>
        ensures { IfOk result (λ l. l ≡ self ++ items.items) }
    {
        for item in items {
            self.push(item)?;
        }
        Ok(self)
    }
}

impl<B: Wire> Blocks<LoggedBody<B>> {
    /// Shares with another list the full blocks from this one on that have the same items in both. Returns how many
    /// full blocks there are.
    pub fn share(&mut self, from: usize, other: &Self) -> Result<usize, AllocError>
        ensures { self.new ≡ self.old }
    {
        share_each(&mut self.full, from, &other.full)?;
        Ok(self.full.len())
    }
}

impl<T: Copied> Copied for Blocks<T> {
    fn copy(&self, alloc: Global) -> Result<Self, AllocError> {
        let full = copied_all(alloc, &self.full)?;
        let last = copied_all(alloc, &self.last)?;
        Ok(Blocks { full, last })
    }
}

/// Makes a full block of the items of the last one, which is then empty.
fn close<T: Copied>(full: &mut Vec<Block<T>>, items: &mut Vec<T>) -> Result<(), AllocError>
    requires { length items.old.items ≡ block_size }
    ensures ok { OnOk result (full.new.items ≡ full.old.items ++ items.old.items ∷ []) }
    ensures none_left { OnOk result (items.new.items ≡ []) }
    ensures err { OnErr result (full.new.items ≡ full.old.items) }
    ensures err_left { OnErr result (items.new.items ≡ items.old.items) }
{
    let block = Block::of(*items.allocator(), items)?;
    full.push(block)?;
    items.clear();
    Ok(())
}
