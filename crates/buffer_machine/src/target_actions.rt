//! What clients ask of targets: what is answered, and what is held after it.
ghost use Rattle.std.specs.Prelude.{◌≡◌, ◌<◌, codes, IfOk, OnOk};
ghost use Rattle.irc_line.specs.Names.{fold_name};
ghost use Rattle.buffer_targets.specs.Targets.{reader};
ghost use Rattle.buffer_machine.specs.Effects.{status};
ghost use Rattle.buffer_machine.specs.Machine.{held_of};
ghost use Rattle.buffer_machine.specs.Steps.{kinds_cleared, cleared_of, played_emptied, played_out, played_seen, sized_unless_past};
ghost use Rattle.buffer_machine.specs.Answering.{answers_sizing, playing, clearing};
ghost use Rattle.buffer_targets.specs.Targets.{readers};

use crate::buffers::Buffers;
use crate::client_names::reader_alone;
use crate::message::{DONE, NO_SUCH_TARGET, SIZE_IS_PAST};
use crate::showing::{Player, show_target, tell};
use buffer_commands::{BufferSize, Effect, MOST_LINES, Setup};
use irc_line::Name;
use std::alloc::{AllocError, Global};
use wire_bytes::Origin;

/// Plays a target to a client, and empties it where playing empties it.
pub fn play(
    alloc: Global,
    setup: &Setup,
    buffers: &mut Buffers,
    origin: Origin,
    name: &Name,
) -> Result<Vec<Effect>, AllocError>
    ensures effects { IfOk result (λ v. v.items ≡
        playing setup.now (held_of buffers.old) origin name.now) }
    ensures held { OnOk result (held_of buffers.new ≡
        played_out setup.now origin (fold_name name.now) (held_of buffers.old)) }
{
    let effects = answer_play(alloc, setup, buffers, origin, name)?;
    note_played(setup, buffers, origin, name.as_bytes());
    Ok(effects)
}

/// Empties a target, and answers whether it is known.
pub fn clear(
    alloc: Global,
    buffers: &mut Buffers,
    origin: Origin,
    name: &Name,
) -> Result<Vec<Effect>, AllocError>
    ensures effects { IfOk result (λ v. v.items ≡ clearing (held_of buffers.old) origin name.now) }
    ensures held { OnOk result (held_of buffers.new ≡
        cleared_of (fold_name name.now) (held_of buffers.old)) }
{
    let effects = answer_known(alloc, buffers, origin, name)?;
    buffers.channels.clear_at(name.as_bytes());
    buffers.queries.clear_at(name.as_bytes());
    Ok(effects)
}

/// Empties all channels, all queries, or both.
pub fn clear_kinds(
    alloc: Global,
    buffers: &mut Buffers,
    origin: Origin,
    channels: bool,
    queries: bool,
) -> Result<Vec<Effect>, AllocError>
    ensures effects { IfOk result (λ v. v.items ≡ status buffers.old.nick origin (codes "Done.")) }
    ensures held { OnOk result (held_of buffers.new ≡
        kinds_cleared channels queries (held_of buffers.old)) }
{
    if channels {
        buffers.channels.clear_all();
    }
    if queries {
        buffers.queries.clear_all();
    }
    tell(alloc, &buffers.nick, origin, DONE)
}

/// Sets how many lines a target keeps from now on, unless that is past the limit.
pub fn resize(
    alloc: Global,
    buffers: &mut Buffers,
    origin: Origin,
    name: &Name,
    size: BufferSize,
) -> Result<Vec<Effect>, AllocError>
    ensures effects { IfOk result (λ v. v.items ≡
        answers_sizing (held_of buffers.old) origin name.now size) }
    ensures held { OnOk result (held_of buffers.new ≡
        sized_unless_past size (fold_name name.now) (held_of buffers.old)) }
{
    if size.lines() > usize::from(MOST_LINES) {
        return tell(alloc, &buffers.nick, origin, SIZE_IS_PAST);
    }
    let effects = answer_known(alloc, buffers, origin, name)?;
    buffers.channels.resize_at(name.as_bytes(), size.lines())?;
    buffers.queries.resize_at(name.as_bytes(), size.lines())?;
    Ok(effects)
}

/// Shows a client what is kept of a target.
fn answer_play(
    alloc: Global,
    setup: &Setup,
    buffers: &Buffers,
    origin: Origin,
    name: &Name,
) -> Result<Vec<Effect>, AllocError>
    ensures { IfOk result (λ v. v.items ≡ playing setup.now (held_of buffers.now) origin name.now) }
{
    match buffers.target(name) {
        None => tell(alloc, &buffers.nick, origin, NO_SUCH_TARGET),
        Some(target) => {
            let mut effects = Vec::new(alloc);
            let player = Player {
                offset: setup.offset(),
                origin,
                reader: None,
            };
            show_target(&mut effects, &player, target)?;
            Ok(effects)
        }
    }
}

/// Answers a client whether a target is known.
fn answer_known(
    alloc: Global,
    buffers: &Buffers,
    origin: Origin,
    name: &Name,
) -> Result<Vec<Effect>, AllocError>
    ensures { IfOk result (λ v. v.items ≡ clearing (held_of buffers.now) origin name.now) }
{
    match buffers.target(name) {
        None => tell(alloc, &buffers.nick, origin, NO_SUCH_TARGET),
        Some(_) => tell(alloc, &buffers.nick, origin, DONE),
    }
}

/// While no client gave a name, empties a target that was played, where playing empties it; after that notes that the
/// client's name, if it has one, has seen all of it.
fn note_played(setup: &Setup, buffers: &mut Buffers, origin: Origin, name: &[u8])
    ensures { held_of buffers.new ≡
        played_out setup.now origin (fold_name name.now) (held_of buffers.old) }
{
    if buffers.names.is_empty() {
        empty_played(setup, buffers, name);
        return;
    }
    match buffers.names.name_of(origin) {
        Some(reader) => see_played(buffers, name, reader),
        None => {}
    }
}

/// Notes that a name has seen all of a target that was played.
fn see_played(buffers: &mut Buffers, name: &[u8], place: usize)
    requires { place < readers }
    ensures { held_of buffers.new ≡
        played_seen (reader place) (fold_name name.now) (held_of buffers.old) }
{
    let here = reader_alone(place);
    buffers.channels.see_at(name, &here);
    buffers.queries.see_at(name, &here);
}

/// Empties a target that was played, where playing empties it.
fn empty_played(setup: &Setup, buffers: &mut Buffers, name: &[u8])
    ensures { held_of buffers.new ≡
        played_emptied setup.now (fold_name name.now) (held_of buffers.old) }
{
    if setup.clears_channels() {
        buffers.channels.clear_at(name);
    }
    if setup.clears_queries() {
        buffers.queries.clear_at(name);
    }
}
