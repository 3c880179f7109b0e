//! What each client is shown of a channel that is attached again.
ghost use Rattle.std.specs.Prelude.{◌≡◌, ◌∷◌, codes, map, IfOk};
ghost use Rattle.irc_line.specs.Lines.{spelling};
ghost use Rattle.buffer_machine.specs.Messages.{own_line};
ghost use Rattle.buffer_machine.specs.Answering.{each_shown_joined, played_by, reader_next, readers_left};

use crate::buffers::Buffers;
use crate::client_names::Holder;
use crate::message::{ChannelWord, own_channel};
use crate::showing::{lines_for, show_lines, show_lines_to_all};
use buffer_commands::{Effect, Setup};
use buffer_lines::{Offset, Shown};
use buffer_targets::Channel;
use irc_line::Name;
use std::alloc::{AllocError, Global};
use wire_bytes::Origin;

/// Shows all that a channel is joined, and what each is played of it.
pub fn show_joined(
    alloc: Global,
    setup: &Setup,
    buffers: &Buffers,
    channel: &Channel,
) -> Result<Vec<Effect>, AllocError>
    ensures { IfOk result (λ v. v.items ≡ each_shown_joined setup.now.offset
        buffers.now.nick channel.now buffers.now.clients buffers.now.names.holders) }
{
    let clients = buffers.clients.as_slice();
    if !buffers.names.is_empty() {
        return show_each_joined(alloc, setup.offset(), buffers, channel);
    }
    let lines = lines_again(alloc, setup.offset(), &buffers.nick, None, channel)?;
    let effects = show_lines_to_all(alloc, clients, lines)?;
    Ok(effects)
}

/// Shows each client that a channel is joined, and what is played of it, by its name if it has one.
fn show_each_joined(
    alloc: Global,
    offset: Offset,
    buffers: &Buffers,
    channel: &Channel,
) -> Result<Vec<Effect>, AllocError>
    ensures { IfOk result (λ v. v.items ≡ each_shown_joined offset
        buffers.now.nick channel.now buffers.now.clients buffers.now.names.holders) }
{
    let mut effects = Vec::new(alloc);
    let clients = buffers.clients.as_slice();
    let mut rest = buffers.names.holders();
    for origin in clients {
        let (reader, left) = next_reader(rest, *origin);
        rest = left;
        let lines = lines_again(alloc, offset, &buffers.nick, reader, channel)?;
        show_lines(&mut effects, *origin, lines)?;
    }
    Ok(effects)
}

/// The place of a client's name, if the client is the first of these who have one, and the rest of
/// them.
fn next_reader(holders: &[Holder], origin: Origin) -> (Option<usize>, &[Holder])
    ensures reader { result.0 ≡ reader_next origin holders.now }
    ensures left { result.1.now ≡ readers_left origin holders.now }
{
    match holders {
        [] => (None, holders),
        [first, left @ ..] => {
            if first.0 == origin {
                (Some(first.1), left)
            } else {
                (None, holders)
            }
        }
    }
}

/// A line that a channel is joined, and what is played of it.
fn lines_again(
    alloc: Global,
    offset: Offset,
    nick: &Name,
    reader: Option<usize>,
    channel: &Channel,
) -> Result<Vec<Shown>, AllocError>
    ensures { IfOk result (λ v. v.items ≡ map spelling (own_line nick.now (codes "JOIN")
        channel.now.target.name ∷ played_by offset reader channel.now.target)) }
{
    let target = channel.target();
    let mut lines = vec![in alloc; own_channel(alloc, nick, ChannelWord::Join, target.name())?]?;
    let mut kept = lines_for(offset, reader, target)?;
    lines.append(&mut kept)?;
    Ok(lines)
}
