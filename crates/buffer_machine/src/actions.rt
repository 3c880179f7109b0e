//! What clients ask for: what is answered, and what is held after it. After an error a part may have been done.
ghost use Rattle.std.specs.Prelude.{◌≡◌, ◌∷◌, [], Some, true, if◌then◌else◌, map, option_copied, IfOk, IsOk, IsTrue, OnOk};
ghost use Rattle.buffer_commands.specs.declared.command.Command.TheVariants.{Client};
ghost use Rattle.buffer_machine.specs.Machine.{held_of};
ghost use Rattle.buffer_machine.specs.Messages.{is_among};
ghost use Rattle.buffer_machine.specs.Steps.{after, left, with_room, shown_emptied, shown_noted};
ghost use Rattle.buffer_machine.specs.NameSteps.{taken_now};
ghost use Rattle.buffer_machine.specs.Crowd.{may_name};
ghost use Rattle.buffer_machine.specs.Answering.{answers, answers_attaching, closed_out, standing};

use crate::buffers::Buffers;
use crate::channel_actions::{detach, join, part, reattach};
use crate::client_names::{Names, reader_alone};
use crate::clients::Clients;
use crate::saying::say;
use crate::showing::{Player, ask_for_all_names, close_all, show_channels, show_queries};
use crate::target_actions::{clear, clear_kinds, play, resize};
use buffer_commands::{Action, Effect, Setup, WireLine};
use irc_line::Name;
use machine_laws::single;
use std::alloc::{AllocError, Global};
use wire_bytes::{Moment, Origin};

/// Does what a client asks for, where this is the floor of its node.
pub fn act(
    alloc: Global,
    setup: &Setup,
    floor: u64,
    buffers: &mut Buffers,
    origin: Origin,
    at: Moment,
    action: &Action,
) -> Result<Vec<Effect>, AllocError>
    ensures effects { IfOk result (λ v. v.items ≡
        answers setup.now floor (held_of buffers.old) (Client origin at action.now)) }
    ensures held { OnOk result (held_of buffers.new ≡
        after setup.now floor (held_of buffers.old) (Client origin at action.now)) }
    ensures memory { IsTrue (is_among origin buffers.old.clients) → action.now ≡ Action.Leave
        → IsOk result }
{
    let attached = buffers.clients.is_attached(origin);
    match action {
        Action::Attach(id) => attach(alloc, setup, floor, buffers, origin, id.as_ref()),
        Action::Leave => leave(alloc, buffers, origin),
        Action::Say(verb, name, text) if attached => {
            say(alloc, setup, buffers, origin, at, *verb, name, text)
        }
        Action::Join(c) if attached => join(alloc, setup, buffers, origin, c.name()),
        Action::Part(c) if attached => part(alloc, buffers, origin, c.name()),
        Action::Detach(c) if attached => detach(alloc, buffers, origin, c.name()),
        Action::Reattach(c) if attached => reattach(alloc, setup, buffers, origin, c.name()),
        Action::Play(name) if attached => play(alloc, setup, buffers, origin, name),
        Action::Clear(name) if attached => clear(alloc, buffers, origin, name),
        Action::ClearChannels if attached => clear_kinds(alloc, buffers, origin, true, false),
        Action::ClearQueries if attached => clear_kinds(alloc, buffers, origin, false, true),
        Action::ClearAll if attached => clear_kinds(alloc, buffers, origin, true, true),
        Action::SetBuffer(name, size) if attached => resize(alloc, buffers, origin, name, *size),
        Action::Pass(line) if attached => pass(alloc, origin, line),
        _ => single(alloc, Effect::Close(origin)),
    }
}

/// Attaches a client.
fn attach(
    alloc: Global,
    setup: &Setup,
    floor: u64,
    buffers: &mut Buffers,
    origin: Origin,
    id: Option<&Name>,
) -> Result<Vec<Effect>, AllocError>
    ensures effects { IfOk result (λ v. v.items ≡
        answers_attaching setup.now floor (held_of buffers.old) origin (option_copied id.entry)) }
    ensures held { OnOk result (held_of buffers.new ≡ after setup.now floor
        (held_of buffers.old) (Client origin 0 (Action.Attach (option_copied id.entry)))) }
{
    // answered first: what is shown depends on what is held before the client is attached
    let effects = answer_attach(alloc, setup, floor, buffers, origin, id)?;
    let_in(setup, floor, buffers, origin, id)?;
    Ok(effects)
}

/// Answers a client that attaches.
fn answer_attach(
    alloc: Global,
    setup: &Setup,
    floor: u64,
    buffers: &Buffers,
    origin: Origin,
    id: Option<&Name>,
) -> Result<Vec<Effect>, AllocError>
    ensures { IfOk result (λ v. v.items ≡
        answers_attaching setup.now floor (held_of buffers.now) origin (option_copied id.entry)) }
{
    if !may_attach(floor, buffers, origin, id) {
        return close_out(alloc, &buffers.clients, origin);
    }
    let mut effects = closed_first(alloc, setup, &buffers.clients)?;
    let channels = buffers.channels.as_slice();
    let queries = buffers.queries.as_slice();
    let player = Player {
        offset: setup.offset(),
        origin,
        reader: reader_for(&buffers.names, id),
    };
    show_channels(alloc, &mut effects, &player, &buffers.nick, channels)?;
    show_queries(&mut effects, &player, queries)?;
    ask_for_all_names(alloc, &mut effects, origin, channels)?;
    Ok(effects)
}

/// Closes the others first, if only one client may be attached.
fn closed_first(alloc: Global, setup: &Setup, clients: &Clients) -> Result<Vec<Effect>, AllocError>
    ensures { IfOk result (λ v. v.items ≡
        (if setup.now.many_clients then [] else map (λ o. Effect.Close o) clients.now)) }
{
    let mut effects = Vec::new(alloc);
    if !setup.many_clients() {
        close_all(&mut effects, clients.as_slice())?;
    }
    Ok(effects)
}

/// The place of the name that a client gives, if it gives one.
fn reader_for(names: &Names, id: Option<&Name>) -> Option<usize>
    ensures { result ≡ standing (option_copied id.entry) names.now.ids }
{
    match id {
        Some(id) => Some(names.place_of(id)),
        None => None,
    }
}

/// Whether an Attach is taken: the client can attach, and there is room for its name.
fn may_attach(floor: u64, buffers: &Buffers, origin: Origin, id: Option<&Name>) -> bool
    ensures { result ≡
        taken_now floor (held_of buffers.now) (Client origin 0 (Action.Attach (option_copied id.entry))) }
{
    buffers.clients.may_attach(floor, origin) && buffers.names.has_room(id)
}

/// Closes a client that is not attached.
fn close_out(alloc: Global, clients: &Clients, origin: Origin) -> Result<Vec<Effect>, AllocError>
    ensures effects { IfOk result (λ v. v.items ≡ closed_out origin clients.now) }
    ensures memory { IsTrue (is_among origin clients.now) → IsOk result }
{
    let mut effects = Vec::new(alloc);
    if !clients.is_attached(origin) {
        effects.push(Effect::Close(origin))?;
    }
    Ok(effects)
}

/// Adds a client to those that are attached, if its Attach is taken.
fn let_in(
    setup: &Setup,
    floor: u64,
    buffers: &mut Buffers,
    origin: Origin,
    id: Option<&Name>,
) -> Result<(), AllocError>
    ensures { OnOk result (held_of buffers.new ≡ after setup.now floor
        (held_of buffers.old) (Client origin 0 (Action.Attach (option_copied id.entry)))) }
{
    if !may_attach(floor, buffers, origin, id) {
        return Ok(());
    }
    make_room(setup, buffers);
    // what was played is emptied last: if no memory is left for the client, it is shown nothing
    buffers.clients.attach(origin)?;
    match id {
        Some(id) => note_shown(buffers, origin, id)?,
        None if buffers.names.is_empty() => empty_shown(setup, buffers),
        None => {}
    }
    Ok(())
}

/// Removes the others, if only one client may be attached.
fn make_room(setup: &Setup, buffers: &mut Buffers)
    ensures { held_of buffers.new ≡
        with_room setup.now.many_clients (held_of buffers.old) }
{
    if !setup.many_clients() {
        buffers.clients.clear();
        buffers.names.clear();
    }
}

/// Empties what was played to a client that attaches.
fn empty_shown(setup: &Setup, buffers: &mut Buffers)
    ensures { held_of buffers.new ≡ shown_emptied setup.now (held_of buffers.old) }
{
    if setup.clears_channels() {
        buffers.channels.clear_open();
    }
    if setup.clears_queries() {
        buffers.queries.clear_all();
    }
}

/// Notes that a name has seen what was played to a client that attaches by it.
fn note_shown(buffers: &mut Buffers, origin: Origin, id: &Name) -> Result<(), AllocError>
    requires { may_name buffers.old.names.ids (Some id.now) ≡ true }
    ensures { OnOk result (held_of buffers.new ≡ shown_noted origin id.now (held_of buffers.old)) }
{
    let here = reader_alone(buffers.names.place_of(id));
    buffers.names.attach(origin, id)?;
    buffers.channels.see_open(&here);
    buffers.queries.see_all(&here);
    Ok(())
}

/// Removes a client that leaves; one that is not attached is closed.
fn leave(alloc: Global, buffers: &mut Buffers, origin: Origin) -> Result<Vec<Effect>, AllocError>
    ensures effects { IfOk result (λ v. v.items ≡ closed_out origin buffers.old.clients) }
    ensures held { OnOk result (held_of buffers.new ≡ left origin (held_of buffers.old)) }
    ensures memory { IsTrue (is_among origin buffers.old.clients) → IsOk result }
{
    let effects = close_out(alloc, &buffers.clients, origin)?;
    buffers.clients.remove(origin);
    buffers.names.remove(origin);
    Ok(effects)
}

/// Sends a line as it is.
fn pass(alloc: Global, origin: Origin, line: &WireLine) -> Result<Vec<Effect>, AllocError>
    ensures { IfOk result (λ v. v.items ≡ Effect.Send origin line.now ∷ []) }
{
    let line = line.line().share()?;
    single(alloc, Effect::Send(origin, line))
}
