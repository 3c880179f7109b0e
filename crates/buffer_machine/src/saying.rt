//! What a client says: what it brings about, and what is held after it. After an error a part may have been done.
ghost use Rattle.std.specs.Prelude.{◌≡◌, Some, IfOk, OnOk};
ghost use Rattle.irc_line.specs.Names.{is_channel};
ghost use Rattle.buffer_machine.specs.Machine.{held_of};
ghost use Rattle.buffer_machine.specs.Messages.{channel_of};
ghost use Rattle.buffer_machine.specs.Steps.{HasPlace, after_saying, is_detached, storing};
ghost use Rattle.buffer_machine.specs.Answering.{others, saying, sharing};

use crate::buffers::Buffers;
use crate::lines::channel_of;
use crate::message::{bare_message, own_message};
use crate::showing::show_to_others;
use crate::storing::store;
use buffer_commands::{Effect, Setup, Verb};
use buffer_lines::Shown;
use irc_line::{Line, Name, Text};
use machine_laws::single;
use std::alloc::{AllocError, Global};
use wire_bytes::{Moment, Origin};

/// Sends a message; if it is for a channel, shows it to the others and stores it.
pub fn say(
    alloc: Global,
    setup: &Setup,
    buffers: &mut Buffers,
    origin: Origin,
    at: Moment,
    verb: Verb,
    name: &Name,
    text: &Text,
) -> Result<Vec<Effect>, AllocError>
    ensures effects { IfOk result (λ v. v.items ≡
        saying (held_of buffers.old) origin verb name.now text.now) }
    ensures held { OnOk result (held_of buffers.new ≡
        after_saying setup.now (held_of buffers.old) at verb name.now text.now) }
{
    let sent = bare_message(alloc, verb, name, text)?;
    if !name.is_channel() {
        return single(alloc, Effect::Send(origin, sent));
    }
    let line = own_message(alloc, &buffers.nick, verb, name, text)?;
    let mut effects = share(alloc, setup, buffers, origin, at, line)?;
    effects.push(Effect::Send(origin, sent))?;
    Ok(effects)
}

/// Shows a line to the others, unless its channel is detached, and stores it.
fn share(
    alloc: Global,
    setup: &Setup,
    buffers: &mut Buffers,
    origin: Origin,
    at: Moment,
    line: Line,
) -> Result<Vec<Effect>, AllocError>
    ensures effects { IfOk result (λ v. v.items ≡ sharing (held_of buffers.old) origin line) }
    ensures held { OnOk result (held_of buffers.new ≡
        storing setup.now (held_of buffers.old) (Some (at, line))) }
{
    let place = buffers.channels.place_of(channel_of(&line));
    let effects = show_said(alloc, buffers, place, origin, &line)?;
    store(alloc, setup, buffers, place, at, line)?;
    Ok(effects)
}

/// Shows a line to the others, unless its channel is detached.
#[tactic(auto, using(crate::proofs::Shows::show_one_is))]
fn show_said(
    alloc: Global,
    buffers: &Buffers,
    place: Option<usize>,
    origin: Origin,
    line: &Line,
) -> Result<Vec<Effect>, AllocError>
    requires { HasPlace line.now (held_of buffers.now) place }
    ensures { IfOk result (λ v. v.items ≡ sharing (held_of buffers.now) origin line.now) }
{
    if buffers.is_detached(place) {
        return Ok(Vec::new(alloc));
    }
    let shown = Shown::of_line(line)?;
    show_to_others(alloc, buffers.clients.as_slice(), origin, shown)
}
