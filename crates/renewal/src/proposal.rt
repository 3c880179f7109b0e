//! Proposes a new list of bodies for what the buffers hold. It need not be trusted: what the list leads to is compared.
use crate::change::{Change, added, is_among};
use crate::draft::{Draft, Start};
use crate::fault::ProposalFault;
use crate::keeping::keep_all;
use crate::kept::Kept;
use crate::marking::keep_marked;
use bouncer_tower::TowerBody;
use buffer_machine::BufferMachine;
use buffer_targets::{Channel, Target};
use irc_line::{Line, Name};
use std::alloc::Global;
use std::collections::VecDeque;
use wire_bytes::Number;

/// The own nick while the list is made. The real one may have a `!`, and no line can come from such a nick.
const NICK: &[u8] = b"me";

/// Bodies that are to lead new buffers of the new setup to what these hold, moved to that setup, with these lines
/// waiting. The runs of each node below its floor are gone.
pub fn propose(
    alloc: Global,
    change: &Change,
    buffers: &BufferMachine,
    waiting: &VecDeque<Line>,
    start: &Start,
    floors: &[(u8, Number)],
) -> Result<Vec<TowerBody>, ProposalFault> {
    let kept = Kept::of(alloc, buffers, change)?;
    let mut draft = Draft::new(alloc, start);
    draft.blank()?;
    draft.open()?;
    draft.be(NICK)?;
    part(
        &mut draft,
        &added(alloc, buffers.channels(), change)?,
        change,
    )?;
    for (_, id) in kept.ids.iter().copied() {
        draft.look_in(id)?;
    }
    make_queries(&mut draft, kept.queries)?;
    join(&mut draft, &kept.channels)?;
    draft.shut()?;
    draft.open()?;
    if kept.ids.is_empty() {
        keep_all(&mut draft, change, &kept, waiting)?;
    } else {
        keep_marked(&mut draft, change, &kept, waiting)?;
    }
    draft.be(buffers.nick().as_bytes())?;
    draft.shut()?;
    for (node, floor) in floors.iter().copied() {
        draft.gone(node, floor)?;
    }
    Ok(draft.into_bodies())
}

/// Parts the channels that exist from the start, except the new ones.
fn part(draft: &mut Draft, added: &[Name], change: &Change) -> Result<(), ProposalFault> {
    for channel in change.to.channels() {
        if !is_among(channel, added) {
            let mut line = Vec::from_slice(draft.allocator(), b":me PART ")?;
            line.extend_from_slice(channel.as_bytes())?;
            draft.hear_bytes(&line)?;
        }
    }
    Ok(())
}

/// Adds a line for each query, with the name with which it was made.
fn make_queries(draft: &mut Draft, queries: &[Target]) -> Result<(), ProposalFault> {
    for query in queries {
        let mut line = Vec::from_slice(draft.allocator(), b":")?;
        line.extend_from_slice(query.name().as_bytes())?;
        line.extend_from_slice(b" PRIVMSG me :x")?;
        draft.hear_bytes(&line)?;
    }
    Ok(())
}

/// Makes the channels, with their names as written.
fn join(draft: &mut Draft, channels: &[&Channel]) -> Result<(), ProposalFault> {
    for channel in channels.iter().copied() {
        let mut line = Vec::from_slice(draft.allocator(), b":me JOIN ")?;
        line.extend_from_slice(channel.target().name().as_bytes())?;
        draft.hear_bytes(&line)?;
    }
    Ok(())
}
