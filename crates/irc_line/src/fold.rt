//! The casemapping of names: how they are compared (RFC 2812, 2.2).
ghost use Rattle.std.specs.Prelude.{◌≡◌, IfOk};
ghost use Rattle.std.specs.Cmp.Lexicographic.{slice_cmp};
ghost use Rattle.std.specs.Ordering.{nat_cmp};
ghost use Rattle.irc_line.specs.Names.{fold_byte, fold_name, same_name};
ghost use Rattle.irc_line.specs.Keys.{is_below};

use std::alloc::{AllocError, Global};
use std::cmp::Ordering;

fn folded_byte(byte: u8) -> u8
    ensures { result ≡ fold_byte byte }
{
    if byte >= b'A' && byte <= b']' {
        byte + 32
    } else if byte == b'~' {
        b'^'
    } else {
        byte
    }
}

/// A name as it is compared: `A` to `Z` become `a` to `z`, and `[`, `]`, `\`, `~` become `{`, `}`,
/// `|`, `^`.
pub fn fold_name(alloc: Global, name: &[u8]) -> Result<Vec<u8>, AllocError>
    ensures { IfOk result (λ v. v.items ≡ fold_name name.now) }
{
    name.iter().map(|byte| folded_byte(*byte)).collect(alloc)
}

/// Whether two names fold to the same bytes.
#[tactic(auto, unfolding(crate::specs::Names::same_name))]
pub fn is_same_name(a: &[u8], b: &[u8]) -> bool
    ensures { result ≡ same_name a.now b.now }
{
    if a.len() != b.len() {
        return false;
    }
    for i in 0..a.len() {
        if folded_byte(a[i]) != folded_byte(b[i]) {
            return false;
        }
    }
    true
}

/// Whether one name comes before another: by their first folded bytes that differ, or as the
/// shorter one if there are none.
pub fn is_name_below(a: &[u8], b: &[u8]) -> bool
    ensures { result ≡ is_below (fold_name a.now) (fold_name b.now) }
{
    for i in 0..a.len().min(b.len()) {
        let first = folded_byte(a[i]);
        let second = folded_byte(b[i]);
        if first != second {
            return first < second;
        }
    }
    a.len() < b.len()
}

/// How one name compares with another, in the order of `is_name_below`: `Equal` where they are
/// the same name.
pub fn compare_names(a: &[u8], b: &[u8]) -> Ordering
    ensures { result ≡ slice_cmp nat_cmp (fold_name a.now) (fold_name b.now) }
{
    match a {
        [] => if b.is_empty() {
            Ordering::Equal
        } else {
            Ordering::Less
        },
        [first, a @ ..] => match b {
            [] => Ordering::Greater,
            [second, b @ ..] => match folded_byte(*first).cmp(&folded_byte(*second)) {
                Ordering::Equal => compare_names(a, b),
                order => order,
            },
        },
    }
}
