//! Reading events.
ghost use Rattle.std.specs.Prelude.{◌≡◌, codes, IfOk};
ghost use Rattle.recorder.specs.InputReadings.{FitsEvent, ReadsBehind, ReadsDoes, text_of_event};
ghost use Rattle.recorder.specs.Kinds.{side_of_word};
ghost use Rattle.recorder.specs.Readings.{ReadsAs};

use crate::fields::read_node;
use crate::input::read_input;
use crate::splitting::split;
use buffer_commands::WireLine;
use irc_line::{Name, is_same};
use std::alloc::{AllocError, Global};
use wire_bytes::Wire;
use world_events::Event;

/// The event of a line without its end.
pub fn read_event<B: Wire>(
    alloc: Global,
    line: &[u8],
) -> Result<Option<Event<B, WireLine, Name>>, AllocError>
    ensures { IfOk result
        (ReadsAs (text_of_event B.spelled B.fits) (FitsEvent B.spelled B.fits) line.now) }
{
    match split(line, b' ') {
        Some((word, rest)) => if is_same(word, b"restart") {
            Ok(read_restart(rest))
        } else if is_same(word, b"stop") {
            read_stop(alloc, rest)
        } else {
            read_does(alloc, line)
        },
        None => Ok(None),
    }
}

/// An event that is no restart and no stop, from its line.
fn read_does<B: Wire>(
    alloc: Global,
    line: &[u8],
) -> Result<Option<Event<B, WireLine, Name>>, AllocError>
    ensures { IfOk result (ReadsDoes B.spelled B.fits line.now) }
{
    match read_input(alloc, line)? {
        Some(input) => Ok(Some(Event::Does(input))),
        None => Ok(None),
    }
}

/// The restart of the node that follows its word.
fn read_restart<B: Wire>(rest: &[u8]) -> Option<Event<B, WireLine, Name>>
    ensures { ReadsBehind B.spelled B.fits (codes "restart ") rest.now result }
{
    match read_node(rest) {
        Some(node) => Some(Event::Restart(node)),
        None => None,
    }
}

/// The stop described after its word: whether what is saved is as before or as after, and what
/// happens.
fn read_stop<B: Wire>(
    alloc: Global,
    rest: &[u8],
) -> Result<Option<Event<B, WireLine, Name>>, AllocError>
    ensures { IfOk result (ReadsBehind B.spelled B.fits (codes "stop ") rest.now) }
{
    match split(rest, b' ') {
        Some((word, behind)) => match side(word) {
            Some(after) => match read_input(alloc, behind)? {
                Some(input) => Ok(Some(Event::StopIn(input, after))),
                None => Ok(None),
            },
            None => Ok(None),
        },
        None => Ok(None),
    }
}

/// Whether what was saved is as after the event, from the word of a stop.
fn side(word: &[u8]) -> Option<bool>
    ensures { result ≡ side_of_word word.now }
{
    if is_same(word, b"before") {
        Some(false)
    } else if is_same(word, b"after") {
        Some(true)
    } else {
        None
    }
}
