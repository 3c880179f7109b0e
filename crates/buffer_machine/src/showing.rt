//! Effects, appended to those before them. After an error a part may have been appended.
ghost use Rattle.std.specs.Prelude.{◌≡◌, ◌++◌, ◌∷◌, [], map, flat_map, not, option_to_list, IfOk, OnOk};
ghost use Rattle.irc_line.specs.Lines.{spelling};
ghost use Rattle.buffer_machine.specs.Effects.{copies, show_all, status};
ghost use Rattle.buffer_machine.specs.Answering.{others, played_by, rejoins, sent_at_attach, shown_at_attach};

use crate::message::{ChannelWord, bare_channel, own_channel, status_line};
use buffer_commands::Effect;
use buffer_lines::{Offset, Shown};
use buffer_targets::{Channel, Target};
use irc_line::Name;
use machine_laws::single;
use std::alloc::{AllocError, Global};
use wire_bytes::{Copied, Origin};

/// The bouncer's own answer to a client, and nothing else.
pub fn tell(
    alloc: Global,
    nick: &Name,
    origin: Origin,
    text: &[u8],
) -> Result<Vec<Effect>, AllocError>
    ensures { IfOk result (λ v. v.items ≡ status nick.now origin text.now) }
{
    let status = status_line(alloc, nick, text)?;
    single(alloc, Effect::Show(origin, status))
}

/// To whom something is played, and what: to a client all that is kept, or, by its name, what that has not seen.
#[derive(Clone, Copy, Debug)]
pub struct Player {
    pub offset: Offset,
    pub origin: Origin,
    pub reader: Option<usize>,
}

/// What is played of a target: all that is kept, or what a reader has not seen.
pub fn lines_for(
    offset: Offset,
    reader: Option<usize>,
    target: &Target,
) -> Result<Vec<Shown>, AllocError>
    ensures { IfOk result (λ v. v.items ≡ map spelling (played_by offset reader target.now)) }
{
    match reader {
        None => target.lines().play(offset, target.name().as_bytes()),
        Some(reader) => target.play_unseen(reader, offset),
    }
}

/// Shows a target to a client.
#[tactic(auto, using(crate::proofs::Shows::show_all_is))]
pub fn show_target(
    effects: &mut Vec<Effect>,
    player: &Player,
    target: &Target,
) -> Result<(), AllocError>
    ensures { OnOk result (effects.new.items ≡ effects.old.items
        ++ show_all player.now.origin (played_by player.now.offset player.now.reader target.now)) }
{
    let shown = lines_for(player.offset, player.reader, target)?;
    show_lines(effects, player.origin, shown)
}

/// Shows these lines to a client.
pub fn show_lines(
    effects: &mut Vec<Effect>,
    origin: Origin,
    lines: Vec<Shown>,
) -> Result<(), AllocError>
    ensures { OnOk result (effects.new.items ≡ effects.old.items ++ copies lines.items origin) }
{
    effects.reserve(lines.len())?;
    for line in lines {
        effects.push(Effect::Show(origin, line))?;
    }
    Ok(())
}

/// Shows copies of these lines to a client.
fn show_copies(
    alloc: Global,
    effects: &mut Vec<Effect>,
    origin: Origin,
    lines: &[Shown],
) -> Result<(), AllocError>
    ensures { OnOk result (effects.new.items ≡ effects.old.items ++ copies lines.now origin) }
{
    for line in lines {
        effects.push(Effect::Show(origin, line.copy(alloc)?))?;
    }
    Ok(())
}

/// Shows copies of these lines to each of these clients.
fn show_copies_to_all(
    alloc: Global,
    effects: &mut Vec<Effect>,
    origins: &[Origin],
    lines: &[Shown],
) -> Result<(), AllocError>
    ensures { OnOk result (effects.new.items ≡
        effects.old.items ++ flat_map (copies lines.now) origins.now) }
{
    for origin in origins {
        show_copies(alloc, effects, *origin, lines)?;
    }
    Ok(())
}

/// Shows these lines to each of these clients.
#[tactic(auto, using(crate::proofs::Shows::shown_to_last))]
pub fn show_lines_to_all(
    alloc: Global,
    origins: &[Origin],
    lines: Vec<Shown>,
) -> Result<Vec<Effect>, AllocError>
    ensures { IfOk result (λ v. v.items ≡ flat_map (copies lines.items) origins.now) }
{
    let mut effects = Vec::new(alloc);
    if let Some((last, others)) = origins.split_last() {
        // copies for the others first: the last client gets the lines themselves
        show_copies_to_all(alloc, &mut effects, others, &lines)?;
        show_lines(&mut effects, *last, lines)?;
    }
    Ok(effects)
}

/// Shows a line to each of these clients.
pub fn show_to_all(
    alloc: Global,
    origins: &[Origin],
    line: Shown,
) -> Result<Vec<Effect>, AllocError>
    ensures { IfOk result (λ v. v.items ≡ flat_map (copies (line ∷ [])) origins.now) }
{
    let mut effects = Vec::with_capacity(alloc, origins.len())?;
    let mut waiting = None;
    for origin in origins {
        if let Some(client) = waiting {
            effects.push(Effect::Show(client, line.copy(alloc)?))?;
        }
        waiting = Some(*origin);
    }
    show_last(effects, waiting, line)
}

/// Shows a line to each of these clients except one.
pub fn show_to_others(
    alloc: Global,
    origins: &[Origin],
    own: Origin,
    line: Shown,
) -> Result<Vec<Effect>, AllocError>
    ensures { IfOk result (λ v. v.items ≡ flat_map (copies (line ∷ [])) (others own origins.now)) }
{
    let mut effects = Vec::with_capacity(alloc, origins.len())?;
    let mut waiting = None;
    for origin in origins {
        if own != *origin {
            if let Some(client) = waiting {
                effects.push(Effect::Show(client, line.copy(alloc)?))?;
            }
            waiting = Some(*origin);
        }
    }
    show_last(effects, waiting, line)
}

/// Shows the line itself to the last client, if there is one.
fn show_last(
    effects: Vec<Effect>,
    last: Option<Origin>,
    line: Shown,
) -> Result<Vec<Effect>, AllocError>
    ensures { IfOk result (λ v. v.items ≡
        effects.items ++ flat_map (copies (line ∷ [])) (option_to_list last)) }
{
    let mut effects = effects;
    if let Some(client) = last {
        effects.push(Effect::Show(client, line))?;
    }
    Ok(effects)
}

/// Closes each of these clients.
pub fn close_all(effects: &mut Vec<Effect>, origins: &[Origin]) -> Result<(), AllocError>
    ensures { OnOk result (effects.new.items ≡
        effects.old.items ++ map (λ o. Effect.Close o) origins.now) }
{
    for origin in origins {
        effects.push(Effect::Close(*origin))?;
    }
    Ok(())
}

/// Shows a channel to a client that attaches, unless it is detached: that the own nick is in it, and what is kept.
pub fn show_channel(
    alloc: Global,
    effects: &mut Vec<Effect>,
    player: &Player,
    nick: &Name,
    channel: &Channel,
) -> Result<(), AllocError>
    ensures { OnOk result (effects.new.items ≡ effects.old.items
        ++ shown_at_attach player.now.offset nick.now player.now.origin player.now.reader channel.now) }
{
    if channel.is_detached() {
        return Ok(());
    }
    if channel.is_joined() {
        let line = own_channel(alloc, nick, ChannelWord::Join, channel.target().name())?;
        effects.push(Effect::Show(player.origin, line))?;
    }
    show_target(effects, player, channel.target())
}

/// Shows these channels to a client that attaches.
pub fn show_channels(
    alloc: Global,
    effects: &mut Vec<Effect>,
    player: &Player,
    nick: &Name,
    channels: &[Channel],
) -> Result<(), AllocError>
    ensures { OnOk result (effects.new.items ≡ effects.old.items ++ flat_map
        (shown_at_attach player.now.offset nick.now player.now.origin player.now.reader) channels.now) }
{
    for channel in channels {
        show_channel(alloc, effects, player, nick, channel)?;
    }
    Ok(())
}

/// Shows these queries to a client that attaches.
pub fn show_queries(
    effects: &mut Vec<Effect>,
    player: &Player,
    queries: &[Target],
) -> Result<(), AllocError>
    ensures { OnOk result (effects.new.items ≡ effects.old.items ++ flat_map
        (λ t. show_all player.now.origin (played_by player.now.offset player.now.reader t)) queries.now) }
{
    for query in queries {
        show_target(effects, player, query)?;
    }
    Ok(())
}

/// Sends NAMES of a channel for a client that attaches, if the own nick is in it and it is not detached.
pub fn ask_for_names(
    alloc: Global,
    effects: &mut Vec<Effect>,
    origin: Origin,
    channel: &Channel,
) -> Result<(), AllocError>
    ensures { OnOk result (effects.new.items ≡
        effects.old.items ++ sent_at_attach origin channel.now) }
{
    if !channel.is_detached() && channel.is_joined() {
        let line = bare_channel(alloc, ChannelWord::Names, channel.target().name())?;
        effects.push(Effect::Send(origin, line))?;
    }
    Ok(())
}

/// Sends NAMES of each of these channels for a client that attaches.
pub fn ask_for_all_names(
    alloc: Global,
    effects: &mut Vec<Effect>,
    origin: Origin,
    channels: &[Channel],
) -> Result<(), AllocError>
    ensures { OnOk result (effects.new.items ≡
        effects.old.items ++ flat_map (sent_at_attach origin) channels.now) }
{
    for channel in channels {
        ask_for_names(alloc, effects, origin, channel)?;
    }
    Ok(())
}

/// Joins each of these channels again.
pub fn rejoin_all(alloc: Global, channels: &[Channel]) -> Result<Vec<Effect>, AllocError>
    ensures { IfOk result (λ v. v.items ≡ rejoins channels.now) }
{
    let mut effects = Vec::new(alloc);
    for channel in channels {
        let line = bare_channel(alloc, ChannelWord::Join, channel.target().name())?;
        effects.push(Effect::Rejoin(line))?;
    }
    Ok(effects)
}
