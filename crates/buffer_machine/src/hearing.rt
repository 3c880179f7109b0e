//! A line from upstream: what it brings about, and what is held after it. After an error a part may have been done.
ghost use Rattle.std.specs.Prelude.{◌≡◌, IfOk, IsTrue, OnOk, if◌then◌else◌};
ghost use Rattle.irc_line.specs.Lines.{parameter};
ghost use Rattle.irc_line.specs.Names.{is_name};
ghost use Rattle.buffer_commands.specs.declared.command.Command.TheVariants.{Upstream};
ghost use Rattle.buffer_machine.specs.Machine.{held_of};
ghost use Rattle.buffer_machine.specs.Messages.{is_new_nick};
ghost use Rattle.buffer_machine.specs.Steps.{HasPlace, after, channels_taking, with_channels, after_line};
ghost use Rattle.buffer_machine.specs.Answering.{answers_taking};
ghost use Rattle.buffer_targets.specs.Targets.{joined_by};

use crate::buffers::Buffers;
use crate::lines::{channel_of, has_command, is_new_nick, is_own, is_own_kick};
use crate::showing::show_to_all;
use crate::storing::{store_in_channel, store_in_query};
use buffer_commands::{Effect, Setup};
use buffer_lines::Shown;
use buffer_targets::Channels;
use irc_line::{Line, Name};
use std::alloc::{AllocError, Global};
use wire_bytes::Moment;

/// Takes a line from upstream: shows it, and stores it or does what it says of a channel or of the own nick.
pub fn hear(
    alloc: Global,
    setup: &Setup,
    buffers: &mut Buffers,
    at: Moment,
    line: &Line,
) -> Result<Vec<Effect>, AllocError>
    ensures effects { IfOk result (λ v. v.items ≡ answers_taking (held_of buffers.old) line.now) }
    ensures held { OnOk result (held_of buffers.new ≡
        after setup.now 0 (held_of buffers.old) (Upstream at line.now)) }
{
    let place = buffers.channels.place_of(channel_of(line));
    // shown first: who is shown a line depends on what is held before it
    let effects = show_heard(alloc, buffers, place, line)?;
    take_line(alloc, setup, buffers, place, at, line)?;
    Ok(effects)
}

/// Shows a line from upstream to all, except the server's welcome and a line of a detached channel.
#[tactic(auto, using(crate::proofs::Shows::show_one_is, crate::proofs::Shows::show_none_is))]
fn show_heard(
    alloc: Global,
    buffers: &Buffers,
    place: Option<usize>,
    line: &Line,
) -> Result<Vec<Effect>, AllocError>
    requires { HasPlace line.now (held_of buffers.now) place }
    ensures { IfOk result (λ v. v.items ≡ answers_taking (held_of buffers.now) line.now) }
{
    if buffers.clients.is_empty() || has_command(line, b"001") || buffers.is_detached(place) {
        return Ok(Vec::new(alloc));
    }
    show_to_all(alloc, buffers.clients.as_slice(), Shown::of_line(line)?)
}

/// Takes a line from upstream: stores it, or does what it says of a channel or of the own nick.
fn take_line(
    alloc: Global,
    setup: &Setup,
    buffers: &mut Buffers,
    place: Option<usize>,
    at: Moment,
    line: &Line,
) -> Result<(), AllocError>
    requires { HasPlace line.now (held_of buffers.old) place }
    ensures { OnOk result (held_of buffers.new ≡
        after_line setup.now (held_of buffers.old) at line.now) }
{
    // the query first, since the line is for no channel that was known before; the nick last, since the line is for the
    // old one
    store_in_query(alloc, setup, buffers, place, at, line)?;
    take_for_channel(alloc, setup, buffers, place, at, line)?;
    take_nick(alloc, &mut buffers.nick, line)?;
    Ok(())
}

/// Stores a line in its channel, or does what it says of the own nick in a channel.
#[tactic(auto, using(crate::proofs::NameLemmas::own_named))]
fn take_for_channel(
    alloc: Global,
    setup: &Setup,
    buffers: &mut Buffers,
    place: Option<usize>,
    at: Moment,
    line: &Line,
) -> Result<(), AllocError>
    requires { HasPlace line.now (held_of buffers.old) place }
    ensures { OnOk result (held_of buffers.new ≡ with_channels (held_of buffers.old)
        (channels_taking setup.now (held_of buffers.old) at line.now)) }
{
    let nick = buffers.nick.as_bytes();
    if is_own(line, b"JOIN", nick) {
        join(
            alloc,
            &mut buffers.channels,
            line.parameter(0),
            setup.channel_size(),
        )
    } else if is_own(line, b"PART", nick) {
        buffers.channels.remove_at(line.parameter(0));
        Ok(())
    } else if is_own_kick(line, nick) {
        buffers.channels.set_joined_at(line.parameter(0), false);
        Ok(())
    } else {
        store_in_channel(alloc, setup, buffers, place, at, line)
    }
}

/// Notes that the own nick is in the channel of a name.
fn join(alloc: Global, channels: &mut Channels, name: &[u8], size: usize) -> Result<(), AllocError>
    requires { IsTrue (is_name name.now) }
    ensures { OnOk result (channels.new ≡ joined_by name.now size channels.old) }
{
    let name = Name::from_bytes(Vec::from_slice(alloc, name)?).unwrap();
    channels.join(&name, size)
}

/// Takes the nick that a line gives, if it gives one.
fn take_nick(alloc: Global, nick: &mut Name, line: &Line) -> Result<(), AllocError>
    ensures { OnOk result (nick.new ≡
        (if is_new_nick nick.old line.now then parameter 0 line.now else nick.old)) }
{
    if is_new_nick(line, nick.as_bytes()) {
        let bytes = Vec::from_slice(alloc, line.parameter(0))?;
        *nick = Name::from_bytes(bytes).unwrap();
    }
    Ok(())
}
