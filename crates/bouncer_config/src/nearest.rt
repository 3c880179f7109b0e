//! Which key was meant by a name that no key has.
ghost use Rattle.std.specs.Prelude.{◌≡◌, [], IfOk, IfSome, MatchOption};
ghost use Rattle.bouncer_config.specs.Near.{IsNear, IsNearest, nearer};

use crate::key::Key;
use crate::unknown::ALL_KEYS;
use std::alloc::{AllocError, Global};
use strsim::levenshtein;

/// The most edits between a name and the key that was meant.
// a letter added, missing or changed, twice at most
const MOST_EDITS: usize = 2;

/// The most bytes of a name that is near to a key.
// the longest key has 23, and a name that is near to it has at most two more
const LONGEST_NAME: usize = 32;

/// A key, and how many edits away from a name it is.
#[derive(Clone, Copy)]
struct Near {
    key: Key,
    distance: usize,
}

/// The key that is nearest to a name, if one is near to it and memory does not run out.
pub(crate) fn nearest_key(alloc: Global, name: &str) -> Option<Key>
    ensures { IfSome result (IsNear name.now) }
{
    if name.len() > LONGEST_NAME {
        return None;
    }
    let near = nearest_of(alloc, name, ALL_KEYS.as_slice()).ok()??;
    if near.distance <= MOST_EDITS && near.distance * 2 < name.len() {
        Some(near.key)
    } else {
        None
    }
}

/// The first of the keys that are nearest to a name.
fn nearest_of(alloc: Global, name: &str, keys: &[Key]) -> Result<Option<Near>, AllocError>
    ensures { IfOk result (λ near. MatchOption near (keys.now ≡ []) (IsNearest name.now keys.now)) }
{
    match keys {
        [] => Ok(None),
        [key, keys @ ..] => {
            let distance = levenshtein(alloc, name, key.text())?;
            let near = Near {
                key: *key,
                distance,
            };
            Ok(Some(nearer(near, nearest_of(alloc, name, keys)?)))
        }
    }
}

/// Another key if it is nearer than this one, else this one.
fn nearer(near: Near, other: Option<Near>) -> Near
    ensures { result ≡ nearer near other }
{
    match other {
        Some(other) if other.distance < near.distance => other,
        _ => near,
    }
}
