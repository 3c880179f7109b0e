//! Bringing about what is kept, and what each name has seen of it, where clients gave names. Playing empties nothing
//! then, so that clients may come and go between the lines. All channels except one are detached, so that a name that
//! attaches sees that one, and the queries.
use crate::change::Change;
use crate::draft::Draft;
use crate::fault::ProposalFault;
use crate::keeping::{channel_name, detach, keep_between, set_sizes};
use crate::kept::Kept;
use crate::saying::{keep_line, send_again};
use buffer_commands::Action;
use buffer_targets::{Channel, Target};
use irc_line::{Line, Name};
use std::alloc::{AllocError, Global};
use std::collections::VecDeque;

/// Gives the channels and queries, which have no lines yet, their sizes, their lines and their marks. The queries come
/// last: until then none of their lines can be seen. Lets the lines for upstream wait again.
pub fn keep_marked(
    draft: &mut Draft,
    change: &Change,
    kept: &Kept,
    waiting: &VecDeque<Line>,
) -> Result<(), ProposalFault> {
    draft.attach()?;
    set_sizes(draft, change, kept)?;
    detach(draft, &kept.channels, true)?;
    draft.leave()?;
    for channel in kept.channels.iter().copied() {
        keep_seen(draft, channel, &kept.ids)?;
    }
    keep_queries(draft, kept.queries, &kept.ids)?;
    draft.attach()?;
    for channel in kept.channels.iter().copied() {
        if !channel.is_detached() {
            reattach(draft, channel)?;
        }
    }
    send_again(draft, waiting)?;
    draft.leave()
}

/// Lets the attached client reattach a channel, and claims the JOIN that this sends.
fn reattach(draft: &mut Draft, channel: &Channel) -> Result<(), ProposalFault> {
    let name = channel_name(draft, channel)?;
    draft.ask(Action::Reattach(name))?;
    draft.claim()
}

/// How many of a target's lines the reader has seen.
fn seen_of(target: &Target, reader: usize) -> usize {
    match target.seen().get(reader) {
        Some(count) => *count,
        None => 0,
    }
}

/// Adds the lines of a channel; between them names attach and leave. The channel is detached before and after.
fn keep_seen(
    draft: &mut Draft,
    channel: &Channel,
    ids: &[(usize, &Name)],
) -> Result<(), ProposalFault> {
    let target = channel.target();
    // no name has to see a channel of which none has seen a line
    let marked = is_seen(target, ids);
    if marked {
        draft.attach()?;
        reattach(draft, channel)?;
        draft.leave()?;
    }
    for place in 0..target.lines().count() {
        if let Some(kept) = target.lines().line(place) {
            keep_line(draft, kept)?;
            look_in(draft, target, ids, place + 1)?;
        }
    }
    if marked {
        draft.attach()?;
        let name = channel_name(draft, channel)?;
        draft.ask(Action::Detach(name))?;
        draft.leave()?;
    }
    Ok(())
}

/// Whether some reader has seen a line of a target.
fn is_seen(target: &Target, ids: &[(usize, &Name)]) -> bool {
    for (reader, _) in ids.iter().copied() {
        if seen_of(target, reader) > 0 {
            return true;
        }
    }
    false
}

/// Lets the names that have seen this many lines of a target attach and leave.
fn look_in(
    draft: &mut Draft,
    target: &Target,
    ids: &[(usize, &Name)],
    count: usize,
) -> Result<(), ProposalFault> {
    for (reader, id) in ids.iter().copied() {
        if seen_of(target, reader) == count {
            draft.look_in(id)?;
        }
    }
    Ok(())
}

/// Adds the lines of the queries; between them names attach and leave. A name sees all queries at once, so of two names
/// one has seen the first part of what the other has.
fn keep_queries(
    draft: &mut Draft,
    queries: &[Target],
    ids: &[(usize, &Name)],
) -> Result<(), ProposalFault> {
    let order = in_order(draft.allocator(), queries, ids)?;
    let mut kept = vec![in draft.allocator(); 0usize; queries.len()]?;
    for (seen, place) in order.iter().copied() {
        if seen > 0 && place < ids.len() {
            let (reader, id) = ids[place];
            keep_up_to(draft, queries, &mut kept, Some(reader))?;
            draft.look_in(id)?;
        }
    }
    keep_up_to(draft, queries, &mut kept, None)
}

/// The places of the names, in the order of how many lines of all queries their readers have seen, each after that
/// number.
fn in_order(
    alloc: Global,
    queries: &[Target],
    ids: &[(usize, &Name)],
) -> Result<Vec<(usize, usize)>, AllocError> {
    let mut order = Vec::new(alloc);
    for place in 0..ids.len() {
        let (reader, _) = ids[place];
        order.push((seen_in_all(queries, reader), place))?;
    }
    order.sort()?;
    Ok(order)
}

/// How many lines of all queries a reader has seen.
fn seen_in_all(queries: &[Target], reader: usize) -> usize {
    let mut all = 0usize;
    for query in queries {
        all = all.saturating_add(seen_of(query, reader));
    }
    all
}

/// Adds the lines of each query after those that are there already, up to those that a reader has seen, or all.
fn keep_up_to(
    draft: &mut Draft,
    queries: &[Target],
    kept: &mut [usize],
    reader: Option<usize>,
) -> Result<(), ProposalFault> {
    for place in 0..queries.len() {
        if place < kept.len() {
            let query = &queries[place];
            let end = match reader {
                Some(reader) => seen_of(query, reader),
                None => query.lines().count(),
            };
            keep_between(draft, query, kept[place], end)?;
            kept[place] = kept[place].max(end);
        }
    }
    Ok(())
}
