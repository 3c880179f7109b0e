ghost use Rattle.std.specs.Prelude.{◌≡◌, ◌+◌, ◌≤◌, ◌++◌, take, drop};
ghost use Rattle.std.specs.Prelude.{IsOk, OnErr, OnOk, vec_capacity, vec_len};

use std::alloc::AllocError;

/// The items without the first ones.
pub fn without_first<T: Drop>(mut items: Vec<T>, count: usize) -> Vec<T>
    requires { count ≤ vec_len items }
    ensures { result.items ≡ drop count items.items }
{
    items.drain(..count);
    items
}

/// Replaces all items that follow this many by these. If there is room for them it can't fail.
pub fn replace_tail<T: Drop>(
    items: &mut Vec<T>,
    keep: usize,
    mut tail: Vec<T>,
) -> Result<(), AllocError>
    requires { keep ≤ vec_len items.old }
    ensures ok { OnOk result (items.new.items ≡ take keep items.old.items ++ tail.items) }
    ensures err { OnErr result (items.new.items ≡ items.old.items) }
    ensures room { vec_len items.old + vec_len tail ≤ vec_capacity items.old → IsOk result }
{
    // room first: what follows is cut only when the rest is sure to fit
    items.reserve(tail.len())?;
    items.truncate(keep);
    items.append(&mut tail)
}
