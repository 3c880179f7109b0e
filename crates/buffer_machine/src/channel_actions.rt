//! What clients ask of channels: what is answered, and what is held after it.
ghost use Rattle.std.specs.Prelude.{◌≡◌, ◌∷◌, [], codes, if◌then◌else◌, not, true, IfOk, OnOk};
ghost use Rattle.buffer_machine.specs.Machine.{held_of};
ghost use Rattle.buffer_machine.specs.Messages.{bare, own_line, word_bytes};
ghost use Rattle.buffer_machine.specs.Steps.{is_detached, is_joined, reattached, parted, detached_now};
ghost use Rattle.buffer_machine.specs.Answering.{answers_again, joining, show_own, parting, detaching, reattaching};

use crate::buffers::Buffers;
use crate::channel_changes::{attach_again, let_channel_go};
use crate::message::{ChannelWord, NO_SUCH_TARGET, bare_channel, own_channel};
use crate::showing::{show_lines_to_all, tell};
use crate::showing_again::show_joined;
use buffer_commands::{Effect, Setup};
use buffer_targets::Channel;
use irc_line::Name;
use machine_laws::single;
use std::alloc::{AllocError, Global};
use wire_bytes::Origin;

/// Joins a channel for a client; a detached one is attached again.
pub fn join(
    alloc: Global,
    setup: &Setup,
    buffers: &mut Buffers,
    origin: Origin,
    name: &Name,
) -> Result<Vec<Effect>, AllocError>
    ensures effects { IfOk result (λ v. v.items ≡
        joining setup.now (held_of buffers.old) origin name.now) }
    ensures held { OnOk result (held_of buffers.new ≡
        reattached setup.now name.now (held_of buffers.old)) }
{
    let effects = answer_join(alloc, setup, buffers, origin, name)?;
    attach_again(
        setup,
        &buffers.names,
        &mut buffers.channels,
        name.as_bytes(),
    );
    Ok(effects)
}

/// Leaves a channel for a client; one that is not joined is dropped.
pub fn part(
    alloc: Global,
    buffers: &mut Buffers,
    origin: Origin,
    name: &Name,
) -> Result<Vec<Effect>, AllocError>
    ensures effects { IfOk result (λ v. v.items ≡ parting (held_of buffers.old) origin name.now) }
    ensures held { OnOk result (held_of buffers.new ≡ parted name.now (held_of buffers.old)) }
{
    let effects = answer_part(alloc, buffers, origin, name)?;
    let_channel_go(&mut buffers.channels, name.as_bytes());
    Ok(effects)
}

/// Detaches a channel for a client: all are shown that it is left.
pub fn detach(
    alloc: Global,
    buffers: &mut Buffers,
    origin: Origin,
    name: &Name,
) -> Result<Vec<Effect>, AllocError>
    ensures effects { IfOk result (λ v. v.items ≡ detaching (held_of buffers.old) origin name.now) }
    ensures held { OnOk result (held_of buffers.new ≡ detached_now name.now (held_of buffers.old)) }
{
    let effects = answer_detach(alloc, buffers, origin, name)?;
    buffers.channels.set_detached_at(name.as_bytes(), true);
    Ok(effects)
}

/// Attaches a channel again for a client.
pub fn reattach(
    alloc: Global,
    setup: &Setup,
    buffers: &mut Buffers,
    origin: Origin,
    name: &Name,
) -> Result<Vec<Effect>, AllocError>
    ensures effects { IfOk result (λ v. v.items ≡
        reattaching setup.now (held_of buffers.old) origin name.now) }
    ensures held { OnOk result (held_of buffers.new ≡
        reattached setup.now name.now (held_of buffers.old)) }
{
    let effects = answer_reattach(alloc, setup, buffers, origin, name)?;
    attach_again(
        setup,
        &buffers.names,
        &mut buffers.channels,
        name.as_bytes(),
    );
    Ok(effects)
}

/// The answer to a Join.
fn answer_join(
    alloc: Global,
    setup: &Setup,
    buffers: &Buffers,
    origin: Origin,
    name: &Name,
) -> Result<Vec<Effect>, AllocError>
    ensures { IfOk result (λ v. v.items ≡ joining setup.now (held_of buffers.now) origin name.now) }
{
    match buffers.channels.find(name.as_bytes()) {
        None => send(alloc, origin, ChannelWord::Join, name),
        Some(channel) => {
            if channel.is_detached() {
                return show_again(alloc, setup, buffers, origin, channel);
            }
            if channel.is_joined() {
                return Ok(Vec::new(alloc));
            }
            send(alloc, origin, ChannelWord::Join, channel.target().name())
        }
    }
}

/// The answer to a Part.
fn answer_part(
    alloc: Global,
    buffers: &Buffers,
    origin: Origin,
    name: &Name,
) -> Result<Vec<Effect>, AllocError>
    ensures { IfOk result (λ v. v.items ≡ parting (held_of buffers.now) origin name.now) }
{
    match buffers.channels.find(name.as_bytes()) {
        None => send(alloc, origin, ChannelWord::Part, name),
        Some(channel) => {
            if channel.is_joined() {
                send(alloc, origin, ChannelWord::Part, channel.target().name())
            } else {
                Ok(Vec::new(alloc))
            }
        }
    }
}

/// The answer to a Detach: all are shown that the channel is left.
fn answer_detach(
    alloc: Global,
    buffers: &Buffers,
    origin: Origin,
    name: &Name,
) -> Result<Vec<Effect>, AllocError>
    ensures { IfOk result (λ v. v.items ≡ detaching (held_of buffers.now) origin name.now) }
{
    match buffers.channels.find(name.as_bytes()) {
        None => tell(alloc, &buffers.nick, origin, NO_SUCH_TARGET),
        Some(channel) => {
            if channel.is_detached() {
                Ok(Vec::new(alloc))
            } else {
                show_left(alloc, buffers, channel)
            }
        }
    }
}

/// The answer to a Reattach.
fn answer_reattach(
    alloc: Global,
    setup: &Setup,
    buffers: &Buffers,
    origin: Origin,
    name: &Name,
) -> Result<Vec<Effect>, AllocError>
    ensures { IfOk result (λ v. v.items ≡
        reattaching setup.now (held_of buffers.now) origin name.now) }
{
    match buffers.channels.find(name.as_bytes()) {
        None => tell(alloc, &buffers.nick, origin, NO_SUCH_TARGET),
        Some(channel) => {
            if channel.is_detached() {
                show_again(alloc, setup, buffers, origin, channel)
            } else {
                Ok(Vec::new(alloc))
            }
        }
    }
}

/// Shows all clients that a channel is left.
#[tactic(auto, using(crate::proofs::Shows::show_one_is))]
fn show_left(alloc: Global, buffers: &Buffers, channel: &Channel) -> Result<Vec<Effect>, AllocError>
    ensures { IfOk result (λ v. v.items ≡
        show_own (held_of buffers.now) (codes "PART") channel.now.target.name []) }
{
    let line = own_channel(
        alloc,
        &buffers.nick,
        ChannelWord::Part,
        channel.target().name(),
    )?;
    let lines = vec![in alloc; line]?;
    show_lines_to_all(alloc, buffers.clients.as_slice(), lines)
}

/// Shows all clients a channel that is attached again, and sends NAMES for it, or JOIN.
fn show_again(
    alloc: Global,
    setup: &Setup,
    buffers: &Buffers,
    origin: Origin,
    channel: &Channel,
) -> Result<Vec<Effect>, AllocError>
    ensures { IfOk result (λ v. v.items ≡
        answers_again setup.now (held_of buffers.now) origin channel.now) }
{
    let mut effects = show_joined(alloc, setup, buffers, channel)?;
    let line = bare_channel(alloc, word_again(channel), channel.target().name())?;
    effects.push(Effect::Send(origin, line))?;
    Ok(effects)
}

/// What is sent for a channel that is attached again: NAMES, or JOIN if it is not joined.
fn word_again(channel: &Channel) -> ChannelWord
    ensures { word_bytes result ≡ (if channel.now.joined then codes "NAMES" else codes "JOIN") }
{
    if channel.is_joined() {
        ChannelWord::Names
    } else {
        ChannelWord::Join
    }
}

/// Sends a command about a channel, and nothing else.
fn send(
    alloc: Global,
    origin: Origin,
    word: ChannelWord,
    channel: &Name,
) -> Result<Vec<Effect>, AllocError>
    ensures { IfOk result (λ v. v.items ≡
        Effect.Send origin (bare (word_bytes word) (channel.now ∷ [])) ∷ []) }
{
    let line = bare_channel(alloc, word, channel)?;
    single(alloc, Effect::Send(origin, line))
}
