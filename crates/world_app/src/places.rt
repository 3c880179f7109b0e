//! Places that count from 1.
ghost use Rattle.std.specs.Prelude.{◌≡◌, ◌⊎◌, ◌<◌, suc, IfNone, IfSome};

/// The index of the item with this number, from 1, in a list of this length.
pub fn index_of(number: u64, count: usize) -> Option<usize>
    ensures some { IfSome result (λ index. (number ≡ suc index) × (index < count)) }
    ensures none { IfNone result ((number ≡ 0) ⊎ (count < number)) }
{
    if number == 0 || number > count as u64 {
        return None;
    }
    Some(number as usize - 1)
}
