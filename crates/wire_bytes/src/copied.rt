ghost use Rattle.std.specs.Prelude.{◌≡◌, IfOk, Ok};

use irc_line::{Line, Name, Text};
use std::alloc::{AllocError, Global};

/// A value that can be copied if there is memory.
pub trait Copied: Drop {
    fn copy(&self, alloc: Global) -> Result<Self, AllocError>
        ensures { IfOk result (λ c. c ≡ self.now) };
}

impl Copied for Name {
    fn copy(&self, alloc: Global) -> Result<Self, AllocError> {
        Name::copy(self, alloc)
    }
}

impl Copied for Text {
    fn copy(&self, alloc: Global) -> Result<Self, AllocError> {
        Text::copy(self, alloc)
    }
}

/// A copy is the same text once more.
impl Copied for Line {
    fn copy(&self, _alloc: Global) -> Result<Self, AllocError> {
        self.share()
    }
}

impl Copied for bool {
    fn copy(&self, _alloc: Global) -> Result<Self, AllocError>
        ensures { result ≡ Ok self.now }
    {
        Ok(*self)
    }
}

impl Copied for u8 {
    fn copy(&self, _alloc: Global) -> Result<Self, AllocError>
        ensures { result ≡ Ok self.now }
    {
        Ok(*self)
    }
}

/// Copies of all items, in order.
pub fn copied_all<T: Copied>(alloc: Global, items: &[T]) -> Result<Vec<T>, AllocError>
    ensures { IfOk result (λ v. v.items ≡ items.now) }
{
    let mut all = Vec::with_capacity(alloc, items.len())?;
    for item in items {
        all.push(item.copy(alloc)?)?;
    }
    Ok(all)
}
