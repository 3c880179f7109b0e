//! Whether a machine of a new setup holds what one of the old setup does, moved to the new one.
ghost use Rattle.std.specs.Prelude.{◌≡◌, ◌<◌, ◌-◌, ℕ, [], false, length, map, filter, replicate, option_map, IfOk, IsTrue};
ghost use Rattle.irc_line.specs.Keys.{is_in};
ghost use Rattle.machine_laws.specs.Runs.{History};
ghost use Rattle.buffer_commands.specs.declared.command.Command.{Command};
ghost use Rattle.buffer_lines.specs.Stamps.{of_size, ring};
ghost use Rattle.buffer_targets.specs.Targets.{channel, fewer, none_seen, target, unjoined};
ghost use Rattle.buffer_machine.specs.Crowd.{floor};
ghost use Rattle.buffer_machine.specs.Held.{commands, held};
ghost use Rattle.buffer_machine.specs.Machine.{Stands};
ghost use Rattle.renewal.specs.Moved.{channel_moved, comes_before, filled, is_staying, key_of, merged, moved, queries_moved, seen_moved, staying, target_moved};

use crate::change::{Change, Sizes, added, channel_sizes, goes, is_staying, newest, query_sizes};
use crate::same::{are_same_floors, is_left, is_same_kept, is_same_name};
use buffer_lines::LineRing;
use buffer_machine::BufferMachine;
use buffer_targets::{Channel, READERS, Target};
use irc_line::{Name, is_name_below};
use std::alloc::{AllocError, Global};

/// Whether the new machine holds what the old one does, moved to the new setup, and no client is attached to either.
pub fn is_moved_machine(
    alloc: Global,
    old: &BufferMachine,
    new: &BufferMachine,
    change: &Change,
) -> Result<bool, AllocError>
    ensures holding { (before after : History Command) → Stands old.now change.now.from.now before
        → Stands new.now change.now.to.now after → IfOk result (λ same. IsTrue same
        → held change.now.to.now (commands after) ≡ moved change.now.from.now change.now.to.now
        change.now.forgotten.now (λ key. is_in key change.now.joined.now)
        (held change.now.from.now (commands before))) }
    ensures gone { (before : History Command) → Stands old.now change.now.from.now before
        → IfOk result (λ same. IsTrue same
        → (held change.now.from.now (commands before)).clients ≡ []) }
    ensures floors { (before after : History Command) → Stands old.now change.now.from.now before
        → Stands new.now change.now.to.now after → IfOk result (λ same. IsTrue same
        → (node : ℕ) → node < 8 → floor (commands after) node ≡ floor (commands before) node) }
{
    let gone = goes(alloc, change.forgotten, old.ids())?;
    let added = added(alloc, old.channels(), change)?;
    Ok(
        is_same_name(old.nick(), new.nick())
            && is_left(old)
            && is_left(new)
            && are_staying_names(&gone, old.ids(), new.ids())
            && are_moved_channels(change, &gone, &added, old.channels(), new.channels())
            && are_moved_queries(change, &gone, old.queries(), new.queries())
            && are_same_floors(old, new),
    )
}

/// Whether the new names are the old ones that stay.
fn are_staying_names(gone: &[bool], old: &[Name], new: &[Name]) -> bool
    ensures { IsTrue result → new.now ≡ staying gone.now old.now }
{
    match gone {
        [] => new.is_empty(),
        [goes, gone @ ..] => match old {
            [] => new.is_empty(),
            [_, old @ ..] if *goes => are_staying_names(gone, old, new),
            [x, old @ ..] => match new {
                [] => false,
                [y, new @ ..] => is_same_name(x, y) && are_staying_names(gone, old, new),
            },
        },
    }
}

/// Whether the new channels are the old ones that stay and, where their keys belong, new ones of these names.
#[tactic(auto, using(crate::proofs::Merging::merged_new, crate::proofs::Merging::merged_next))]
fn are_moved_channels(
    change: &Change,
    gone: &[bool],
    added: &[Name],
    old: &[Channel],
    new: &[Channel],
) -> bool
    ensures { IsTrue result → new.now ≡ merged change.now.to.now.channel_size added.now
        (map (channel_moved change.now.from.now.channel_size change.now.to.now.channel_size
        gone.now)
        (filter (is_staying change.now.from.now change.now.to.now
        (λ key. is_in key change.now.joined.now)) old.now)) }
{
    match old {
        [] => are_new_channels(change.to.channel_size(), added, new),
        [x, xs @ ..] => {
            if !is_staying(x, change) {
                return are_moved_channels(change, gone, added, xs, new);
            }
            let [y, ys @ ..] = new else {
                return false;
            };
            if comes_before(added, x) {
                let [name, names @ ..] = added else {
                    return false;
                };
                return is_new_channel(change.to.channel_size(), name, y)
                    && are_moved_channels(change, gone, names, old, ys);
            }
            is_moved_channel(channel_sizes(change), gone, x, y)
                && are_moved_channels(change, gone, added, xs, ys)
        }
    }
}

/// Whether the first of these names comes before a channel.
fn comes_before(names: &[Name], channel: &Channel) -> bool
    ensures { result ≡ comes_before (key_of channel.now) names.now }
{
    match names {
        [] => false,
        [name, ..] => is_name_below(name.as_bytes(), channel.target().name().as_bytes()),
    }
}

/// Whether these are channels of these names that are not joined, and that keep nothing.
fn are_new_channels(size: usize, names: &[Name], new: &[Channel]) -> bool
    ensures { IsTrue result → new.now ≡ unjoined size names.now }
{
    match names {
        [] => new.is_empty(),
        [name, names @ ..] => match new {
            [] => false,
            [y, ys @ ..] => is_new_channel(size, name, y) && are_new_channels(size, names, ys),
        },
    }
}

fn is_new_channel(size: usize, name: &Name, new: &Channel) -> bool
    ensures { IsTrue result → new.now ≡
        channel (target name.now (ring [] size) none_seen) false false }
{
    let target = new.target();
    !new.is_joined()
        && !new.is_detached()
        && is_same_name(name, target.name())
        && is_empty_ring(size, target.lines())
        && is_none_seen(target.seen())
}

fn is_empty_ring(size: usize, lines: &LineRing) -> bool
    ensures { IsTrue result → lines.now ≡ ring [] size }
{
    lines.count() == 0 && lines.size() == size
}

fn is_none_seen(seen: &[usize]) -> bool
    ensures { IsTrue result → seen.now ≡ none_seen }
{
    seen.len() == READERS && are_none(seen)
}

fn are_none(seen: &[usize]) -> bool
    ensures { IsTrue result → seen.now ≡ replicate (length seen.now) 0 }
{
    match seen {
        [] => true,
        [x, xs @ ..] => *x == 0 && are_none(xs),
    }
}

fn is_moved_channel(sizes: Sizes, gone: &[bool], old: &Channel, new: &Channel) -> bool
    ensures { IsTrue result → new.now ≡ channel_moved sizes.from sizes.to gone.now old.now }
{
    !new.is_joined()
        && old.is_detached() == new.is_detached()
        && is_moved_target(sizes, gone, old.target(), new.target())
}

/// Whether the new queries are the old ones, without the oldest past the most allowed.
fn are_moved_queries(change: &Change, gone: &[bool], old: &[Target], new: &[Target]) -> bool
    ensures { IsTrue result → new.now ≡
        queries_moved change.now.from.now change.now.to.now gone.now old.now }
{
    are_moved_targets(query_sizes(change), gone, newest(old, change), new)
}

fn are_moved_targets(sizes: Sizes, gone: &[bool], old: &[Target], new: &[Target]) -> bool
    ensures { IsTrue result → new.now ≡ map (target_moved sizes.from sizes.to gone.now) old.now }
{
    match old {
        [] => new.is_empty(),
        [x, xs @ ..] => match new {
            [] => false,
            [y, ys @ ..] => {
                is_moved_target(sizes, gone, x, y) && are_moved_targets(sizes, gone, xs, ys)
            }
        },
    }
}

fn is_moved_target(sizes: Sizes, gone: &[bool], old: &Target, new: &Target) -> bool
    ensures { IsTrue result → new.now ≡ target_moved sizes.from sizes.to gone.now old.now }
{
    let size = sizes.moved(old.lines().size());
    let dropped = old.lines().count().saturating_sub(size);
    is_same_name(old.name(), new.name())
        && are_moved_counts(dropped, gone, old.seen(), new.seen())
        && is_moved_ring(size, old.lines(), new.lines())
}

/// Whether the new counts are those of the names that stay, less this many dropped lines, and then 0.
fn are_moved_counts(dropped: usize, gone: &[bool], old: &[usize], new: &[usize]) -> bool
    ensures { IsTrue result → new.now ≡ seen_moved gone.now (fewer dropped old.now) }
{
    new.len() == READERS && are_staying_counts(dropped, gone, old, new)
}

fn are_staying_counts(dropped: usize, gone: &[bool], old: &[usize], new: &[usize]) -> bool
    ensures { IsTrue result → new.now ≡
        filled (length new.now) (staying gone.now (fewer dropped old.now)) }
{
    match gone {
        [] => are_none(new),
        [goes, gone @ ..] => match old {
            [] => are_none(new),
            [_, old @ ..] if *goes => are_staying_counts(dropped, gone, old, new),
            [x, old @ ..] => match new {
                [] => true,
                [y, new @ ..] => {
                    *y == x.saturating_sub(dropped) && are_staying_counts(dropped, gone, old, new)
                }
            },
        },
    }
}

/// Whether a ring of this size has the newest lines of another, as many as the size allows.
fn is_moved_ring(size: usize, old: &LineRing, new: &LineRing) -> bool
    ensures { IsTrue result → new.now ≡ of_size size old.now }
{
    let dropped = old.count().saturating_sub(size);
    if new.size() != size || new.count() != old.count() - dropped {
        return false;
    }
    for place in 0..new.count() {
        if !is_same_kept(old.line(dropped + place), new.line(place)) {
            return false;
        }
    }
    true
}
