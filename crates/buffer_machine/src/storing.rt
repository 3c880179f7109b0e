//! Where a line is stored: in the query or the channel that it is for. Each call gets the place of the line's channel.
ghost use Rattle.std.specs.Prelude.{◌≡◌, Some, IfOk, IsTrue, OnOk};
ghost use Rattle.irc_line.specs.Names.{is_name};
ghost use Rattle.buffer_machine.specs.Buffers.{keeps};
ghost use Rattle.buffer_machine.specs.Machine.{held_of};
ghost use Rattle.buffer_machine.specs.Messages.{is_query_line, source};
ghost use Rattle.buffer_machine.specs.Steps.{HasPlace, IsKeptAt, channels_storing, queries_storing, storing, stores_in_channel, stores_in_query, with_channels, with_queries};

use crate::buffers::Buffers;
use crate::lines::{is_query_line, may_store, source_of};
use buffer_commands::Setup;
use buffer_lines::KeptLine;
use buffer_targets::READERS;
use irc_line::{Line, Name};
use std::alloc::{AllocError, Global};
use wire_bytes::Moment;

/// Stores a line in the target that it is for, where that keeps lines now.
pub fn store(
    alloc: Global,
    setup: &Setup,
    buffers: &mut Buffers,
    place: Option<usize>,
    at: Moment,
    line: Line,
) -> Result<(), AllocError>
    requires { HasPlace line (held_of buffers.old) place }
    ensures { OnOk result (held_of buffers.new ≡
        storing setup.now (held_of buffers.old) (Some (at, line))) }
{
    // the query first, while the line is still there to be copied
    store_in_query(alloc, setup, buffers, place, at, &line)?;
    if stores_in_channel(setup, buffers, place, &line) {
        keep_in_channel(buffers, place, KeptLine::new(at, line));
    }
    Ok(())
}

/// Stores a copy of a line in the channel that it is for, where that keeps lines now.
pub fn store_in_channel(
    alloc: Global,
    setup: &Setup,
    buffers: &mut Buffers,
    place: Option<usize>,
    at: Moment,
    line: &Line,
) -> Result<(), AllocError>
    requires { HasPlace line.now (held_of buffers.old) place }
    ensures { OnOk result (held_of buffers.new ≡ with_channels (held_of buffers.old)
        (channels_storing setup.now (held_of buffers.old) (Some (at, line.now)))) }
{
    // tested before the line is copied: most lines may be for no channel that keeps them
    if place.is_none() {
        return Ok(());
    }
    if !stores_in_channel(setup, buffers, place, line) {
        return Ok(());
    }
    let line = line.share()?;
    keep_in_channel(buffers, place, KeptLine::new(at, line));
    Ok(())
}

/// Keeps a line in the channel at a place; the names that are here see it, unless it is detached.
fn keep_in_channel(buffers: &mut Buffers, place: Option<usize>, line: KeptLine)
    ensures { IsKeptAt place line (held_of buffers.old) (held_of buffers.new) }
{
    if buffers.is_detached(place) {
        let nobody = [false; READERS];
        let count = buffers.names.count();
        buffers.channels.store_at(place, line, &nobody[..count]);
    } else {
        buffers.channels.store_at(place, line, buffers.names.here());
    }
}

/// Stores a copy of a line that is for no known channel in the query that it is for, where queries keep lines now.
pub fn store_in_query(
    alloc: Global,
    setup: &Setup,
    buffers: &mut Buffers,
    place: Option<usize>,
    at: Moment,
    line: &Line,
) -> Result<(), AllocError>
    requires { HasPlace line.now (held_of buffers.old) place }
    ensures { OnOk result (held_of buffers.new ≡ with_queries (held_of buffers.old)
        (queries_storing setup.now (held_of buffers.old) (Some (at, line.now)))) }
{
    if !stores_in_query(setup, buffers, place, line) {
        return Ok(());
    }
    let name = sender(alloc, line)?;
    let line = line.share()?;
    let (size, most) = (setup.query_size(), setup.most_queries());
    buffers.queries.store(
        &name,
        KeptLine::new(at, line),
        buffers.names.here(),
        size,
        most,
    )
}

/// Whether the channel of a line stores it now: playing does not empty it, or nobody is attached, or it is detached.
fn stores_in_channel(setup: &Setup, buffers: &Buffers, place: Option<usize>, line: &Line) -> bool
    requires { HasPlace line.now (held_of buffers.now) place }
    ensures { result ≡ stores_in_channel setup.now (held_of buffers.now) line.now }
{
    (keeps_now(setup.clears_channels(), buffers) || buffers.is_detached(place)) && may_store(line)
}

/// Whether a query stores a line now: the line is for no known channel, but goes to the own nick from a sender who may
/// have a query.
fn stores_in_query(setup: &Setup, buffers: &Buffers, place: Option<usize>, line: &Line) -> bool
    requires { HasPlace line.now (held_of buffers.now) place }
    ensures { result ≡ stores_in_query setup.now (held_of buffers.now) line.now }
{
    // the line is checked last: most lines are for a known channel
    if buffers.is_known(place) {
        return false;
    }
    if !keeps_now(setup.clears_queries(), buffers) {
        return false;
    }
    may_store(line) && is_query_line(line, buffers.nick.as_bytes())
}

/// Whether targets keep lines now: playing does not empty them (`clears`), or nobody is attached, or a client had a
/// name.
fn keeps_now(clears: bool, buffers: &Buffers) -> bool
    ensures { result ≡ keeps clears buffers.now.clients buffers.now.names.ids }
{
    !clears || buffers.clients.is_empty() || !buffers.names.is_empty()
}

/// The nick that a line came from.
fn sender(alloc: Global, line: &Line) -> Result<Name, AllocError>
    requires { IsTrue (is_name (source line.now)) }
    ensures { IfOk result (λ n. n ≡ source line.now) }
{
    let bytes = Vec::from_slice(alloc, source_of(line))?;
    Ok(Name::from_bytes(bytes).unwrap())
}
