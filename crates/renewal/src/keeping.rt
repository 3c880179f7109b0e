//! Bringing about what is kept if no client ever gave a name. Attaching empties what it plays, so the client attaches
//! once, before the lines come.
use crate::change::{Change, Sizes, channel_sizes, query_sizes};
use crate::draft::Draft;
use crate::fault::ProposalFault;
use crate::kept::Kept;
use crate::saying::{hear_line, keep_line, keep_told, send_again};
use buffer_commands::{Action, BufferSize, ChannelName, MOST_LINES, Setup};
use buffer_targets::{Channel, Target};
use irc_line::Line;
use std::collections::VecDeque;

/// Gives the channels and queries, which have no lines yet, their sizes and their lines, and lets the lines for
/// upstream wait again. No name is known.
pub fn keep_all(
    draft: &mut Draft,
    change: &Change,
    kept: &Kept,
    waiting: &VecDeque<Line>,
) -> Result<(), ProposalFault> {
    draft.attach()?;
    set_sizes(draft, change, kept)?;
    detach(draft, &kept.channels, false)?;
    keep_attended(draft, change.to, &kept.channels)?;
    send_again(draft, waiting)?;
    draft.leave()?;
    keep_unattended(draft, change.to, &kept.channels)?;
    for query in kept.queries {
        keep_query(draft, query)?;
    }
    Ok(())
}

/// Lets the attached client clear the lines with which the queries were made, and give each target its size.
pub fn set_sizes(draft: &mut Draft, change: &Change, kept: &Kept) -> Result<(), ProposalFault> {
    draft.ask(Action::ClearQueries)?;
    for query in kept.queries {
        set_size(draft, query, query_sizes(change))?;
    }
    for channel in kept.channels.iter().copied() {
        set_size(draft, channel.target(), channel_sizes(change))?;
    }
    Ok(())
}

fn set_size(draft: &mut Draft, target: &Target, sizes: Sizes) -> Result<(), ProposalFault> {
    let size = sizes.moved(target.lines().size());
    if size > MOST_LINES as usize {
        return Err(ProposalFault::NotTheSame);
    }
    let name = target.name().copy(draft.allocator())?;
    draft.ask(Action::SetBuffer(name, BufferSize::new(size as u16)))
}

/// Lets the attached client detach channels: all, or those that are to be detached.
pub fn detach(draft: &mut Draft, channels: &[&Channel], all: bool) -> Result<(), ProposalFault> {
    for channel in channels.iter().copied() {
        if all || channel.is_detached() {
            let name = channel_name(draft, channel)?;
            draft.ask(Action::Detach(name))?;
        }
    }
    Ok(())
}

pub fn channel_name(draft: &Draft, channel: &Channel) -> Result<ChannelName, ProposalFault> {
    let name = channel.target().name().copy(draft.allocator())?;
    ChannelName::from_name(name).ok_or(ProposalFault::NotTheSame)
}

/// Whether a channel keeps what comes while a client is attached.
fn is_attended(channel: &Channel, setup: &Setup) -> bool {
    channel.is_detached() || !setup.clears_channels()
}

/// Adds the lines of the channels that keep what comes while a client is attached.
fn keep_attended(
    draft: &mut Draft,
    setup: &Setup,
    channels: &[&Channel],
) -> Result<(), ProposalFault> {
    for channel in channels.iter().copied() {
        if is_attended(channel, setup) {
            keep_channel(draft, channel.target())?;
        }
    }
    Ok(())
}

/// Adds the lines of all other channels, while no client is attached.
fn keep_unattended(
    draft: &mut Draft,
    setup: &Setup,
    channels: &[&Channel],
) -> Result<(), ProposalFault> {
    for channel in channels.iter().copied() {
        if !is_attended(channel, setup) {
            keep_heard(draft, channel.target())?;
        }
    }
    Ok(())
}

fn keep_channel(draft: &mut Draft, target: &Target) -> Result<(), ProposalFault> {
    for place in 0..target.lines().count() {
        if let Some(kept) = target.lines().line(place) {
            keep_line(draft, kept)?;
        }
    }
    Ok(())
}

/// Adds the lines of a channel from upstream only: a client that said one would empty what it is played.
fn keep_heard(draft: &mut Draft, target: &Target) -> Result<(), ProposalFault> {
    for place in 0..target.lines().count() {
        if let Some(kept) = target.lines().line(place) {
            hear_line(draft, kept)?;
        }
    }
    Ok(())
}

fn keep_query(draft: &mut Draft, target: &Target) -> Result<(), ProposalFault> {
    keep_between(draft, target, 0, target.lines().count())
}

/// Adds the lines of a query from one place up to another.
pub fn keep_between(
    draft: &mut Draft,
    target: &Target,
    from: usize,
    to: usize,
) -> Result<(), ProposalFault> {
    for place in from..to {
        if let Some(kept) = target.lines().line(place) {
            keep_told(draft, kept)?;
        }
    }
    Ok(())
}
