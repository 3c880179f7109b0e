//! The places of targets, in rising order of the targets' keys.
ghost use Rattle.std.specs.Prelude.{◌≡◌, ◌≤◌, ◌<◌, ◌-◌, ◌++◌, [], ◌∷◌, false, nat_le, drop, length, map, IfOk, IfErr, MatchResult, IsTrue, OnOk, OnErr};
ghost use Rattle.std.specs.List.{list_all};
ghost use Rattle.std.specs.List.Sorted.{IsSearchInRange};
ghost use Rattle.irc_line.specs.Keys.{is_in};
ghost use Rattle.irc_line.specs.Names.{fold_name};
ghost use Rattle.buffer_targets.specs.Places.{compared_at, lowered, names_at, IsGap, IsIndex, IsPlace, IsSearched};
ghost use Rattle.buffer_targets.specs.Targets.{newest, query_names, indexed, IsQueryPlace, IsQueryGap};

use crate::target::Target;
use std::alloc::AllocError;
use std::cmp::Ordering;

// How the target at a place compares with a name. An index holds only places of targets.
fn compare_at(targets: &[Target], place: usize, name: &[u8]) -> Ordering
    ensures { result ≡ compared_at (query_names targets.now) (fold_name name.now) place }
{
    if place < targets.len() {
        targets[place].compare(name)
    } else {
        Ordering::Greater
    }
}

// The position in the index of the place of a name's target, or where it would be.
fn search_index(targets: &[Target], places: &[usize], name: &[u8]) -> Result<usize, usize>
    requires { IsIndex (query_names targets.now) places.now }
    ensures bound { IsSearchInRange result (length places.now) }
    ensures place { IsSearched (fold_name name.now) (indexed targets.now places.now) result }
{
    places.binary_search_by(|place| compare_at(targets, *place, name))
}

/// The place of a name's target, or where in the index it would be.
pub fn search(targets: &[Target], places: &[usize], name: &[u8]) -> Result<usize, usize>
    requires { IsIndex (query_names targets.now) places.now }
    ensures found { IfOk result (IsQueryPlace (fold_name name.now) targets.now) }
    ensures absent { IfErr result (IsQueryGap (fold_name name.now) targets.now places.now) }
{
    match search_index(targets, places, name) {
        Ok(found) => Ok(places[found]),
        Err(gap) => Err(gap),
    }
}

/// Adds a target whose place belongs into the index at this gap. A refused call changes nothing.
pub fn insert(
    targets: &mut Vec<Target>,
    places: &mut Vec<usize>,
    gap: usize,
    target: Target,
) -> Result<(), AllocError>
    requires index { IsIndex (query_names targets.old.items) places.old.items }
    requires gap { IsGap (fold_name target.name) (indexed targets.old.items places.old.items) gap }
    requires bound { gap ≤ length places.old.items }
    ensures ok { OnOk result (targets.new.items ≡ targets.old.items ++ target ∷ []) }
    ensures err { OnErr result (targets.new.items ≡ targets.old.items) }
    ensures index { IsIndex (query_names targets.new.items) places.new.items }
{
    // all room is reserved before anything is inserted
    targets.reserve(1)?;
    places.insert(gap, targets.len())?;
    Ok(targets.push(target)?)
}

/// Drops the oldest targets that are too many.
pub fn keep_newest(targets: &mut Vec<Target>, places: &mut Vec<usize>, most: usize)
    requires { IsIndex (query_names targets.old.items) places.old.items }
    ensures items { targets.new.items ≡ newest most targets.old.items }
    ensures index { IsIndex (query_names targets.new.items) places.new.items }
{
    let excess = targets.len().saturating_sub(most);
    drop_first(targets, excess);
    drop_places(places, excess);
}

fn drop_first(targets: &mut Vec<Target>, many: usize)
    requires { many ≤ length targets.old.items }
    ensures { targets.new.items ≡ drop many targets.old.items }
{
    targets.drain(..many);
}

// Removes the places of the first targets, which were dropped, and lowers the others.
fn drop_places(places: &mut Vec<usize>, many: usize)
    ensures { places.new.items ≡ lowered many places.old.items }
{
    places.retain(|place| many <= *place);
    lower(places.as_mut_slice(), many);
}

fn lower(places: &mut [usize], by: usize)
    requires { IsTrue (list_all (λ i. nat_le by i) places.old) }
    ensures { places.new ≡ map (λ i. i - by) places.old }
{
    for place in places.iter_mut() {
        *place -= by;
    }
}
