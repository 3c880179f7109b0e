//! Lists of events as text, a line each.
ghost use Rattle.std.specs.Prelude.{◌≡◌, ◌++◌, ◌∷◌, [], IfErr, IfOk, OnOk, option_map};
ghost use Rattle.recorder.specs.EventLists.{AreOf, AreWritable, FitsFirst, IsFaultOf, line_and};
ghost use Rattle.recorder.specs.Readings.{ReadsAs};

use crate::event::read_event;
use crate::events_fault::EventsFault;
use crate::splitting::split;
use buffer_commands::WireLine;
use irc_line::Name;
use std::alloc::{AllocError, Global};
use wire_bytes::Wire;
use world_events::Event;

/// The events of a text, one a line, each with its end. They can be written again.
pub fn parse_events<B: Wire>(
    alloc: Global,
    text: &[u8],
) -> Result<Vec<Event<B, WireLine, Name>>, EventsFault>
    ensures events { IfOk result (λ v. AreOf B.spelled B.fits text.now v.items) }
    ensures writable { IfOk result (λ v. AreWritable B.spelled B.fits v.items) }
    ensures bad { IfErr result (IsFaultOf B.spelled B.fits text.now) }
{
    let mut events = Vec::new(alloc);
    let mut rest = text;
    while !rest.is_empty() {
        match first_event(alloc, rest)? {
            Some((event, behind)) => {
                keep(&mut events, event)?;
                rest = behind;
            }
            None => return Err(EventsFault::BadLine(events.len() as u64 + 1)),
        }
    }
    Ok(events)
}

/// The event of the first line, and what follows the line.
fn first_event<B: Wire>(
    alloc: Global,
    text: &[u8],
) -> Result<Option<(Event<B, WireLine, Name>, &[u8])>, AllocError>
    ensures { IfOk result (λ r. ReadsAs (line_and B.spelled B.fits) (FitsFirst B.spelled B.fits)
        text.now (option_map (λ p. (p.0, p.1.now)) r)) }
{
    match split(text, b'\n') {
        Some((line, behind)) => match read_event(alloc, line)? {
            Some(event) => Ok(Some((event, behind))),
            None => Ok(None),
        },
        None => Ok(None),
    }
}

/// Appends an event.
fn keep<E: Drop>(events: &mut Vec<E>, event: E) -> Result<(), AllocError>
    ensures { OnOk result (events.new.items ≡ events.old.items ++ event ∷ []) }
{
    Ok(events.push(event)?)
}
