ghost use Rattle.std.specs.Prelude.{◌≡◌, IfOk, length};
ghost use Rattle.raft_log.specs.Blocks.{block_size};

use std::alloc::{AllocError, Global};
use std::marker::Model;
use std::sync::Arc;
use wire_bytes::{Copied, copied_all};

/// How many items a block has. A block of bodies is 8 KB of pointers, and a full log has 977 of them.
pub const BLOCK_SIZE: usize = 1024;

/// A full block of items, which never change. All copies of a block share them.
#[derive(Drop)]
pub struct Block<T: Copied> {
    items: Arc<Vec<T>, Global>,
}

impl<T: Copied> Model for Block<T> {
    ghost use Rattle.std.specs.Prelude.{List, ◌≡◌, length};
    ghost use Rattle.std.specs.Arc.{arc_value};
    ghost use Rattle.raft_log.specs.Blocks.{block_size};

    ghost Value = { List T };

    ghost view = { λ b. (arc_value b.items).items };

    ghost invariant = { λ b. length (arc_value b.items).items ≡ block_size };
}

impl<T: Copied> Block<T> {
    /// A block of copies of these items.
    pub fn of(alloc: Global, items: &[T]) -> Result<Self, AllocError>
        requires { length items.now ≡ block_size }
        ensures { IfOk result (λ b. b ≡ items.now) }
    {
        let copies = copied_all(alloc, items)?;
        let items = Arc::new(alloc, copies)?;
        Ok(Block { items })
    }

    pub fn items(&self) -> &[T]
        ensures value { result.now ≡ self.now }
        ensures size { length self.now ≡ block_size }
    {
        self.items.as_slice()
    }
}

/// A copy is one more pointer to the same items.
impl<T: Copied> Copied for Block<T> {
    fn copy(&self, _alloc: Global) -> Result<Self, AllocError> {
        let items = Arc::try_clone(&self.items)?;
        Ok(Block { items })
    }
}
