ghost use Rattle.std.specs.Prelude.{◌≡◌, IfOk};

use std::alloc::{AllocError, Global};
use std::marker::Model;
use std::sync::Arc;

/// Bytes that no longer change. All that share them point to one value in memory.
#[derive(Drop)]
pub struct SharedBytes {
    bytes: Arc<Vec<u8>, Global>,
}

impl Model for SharedBytes {
    ghost use Rattle.std.specs.Prelude.{ℕ, List};
    ghost use Rattle.std.specs.Arc.{arc_value};

    ghost Value = { List ℕ };

    ghost view = { λ s. (arc_value s.bytes).items };
}

impl SharedBytes {
    /// These bytes, which are moved and not copied.
    pub fn from_vec(bytes: Vec<u8>) -> Result<SharedBytes, AllocError>
        ensures { IfOk result (λ s. s ≡ bytes.items) }
    {
        let alloc = *bytes.allocator();
        Ok(SharedBytes {
            bytes: Arc::new(alloc, bytes)?,
        })
    }

    pub fn as_slice(&self) -> &[u8]
        ensures { result.now ≡ self.now }
    {
        self.bytes.as_slice()
    }

    /// The same bytes once more. Nothing is allocated; it is refused only where they are shared
    /// more often than can be counted.
    pub fn share(&self) -> Result<SharedBytes, AllocError>
        ensures { IfOk result (λ s. s ≡ self.now) }
    {
        Ok(SharedBytes {
            bytes: Arc::try_clone(&self.bytes)?,
        })
    }
}
