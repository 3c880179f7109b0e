//! Reading what happens to one node.
ghost use Rattle.std.specs.Prelude.{IfOk};
ghost use Rattle.recorder.specs.declared.kind.Kind.TheVariants.{Ask, Deliver, Heard, Look};
ghost use Rattle.recorder.specs.InputReadings.{FitsInput, ReadsFields, text_of_input};
ghost use Rattle.recorder.specs.Readings.{ReadsAs};

use crate::fields::{node_first, number_first, read_node, read_number};
use crate::kind::Kind;
use crate::splitting::split;
use crate::words::{read_body, read_line, read_name};
use buffer_commands::WireLine;
use irc_line::Name;
use std::alloc::{AllocError, Global};
use wire_bytes::{LAST_SECOND, Moment, Wire};
use world_events::Input;

/// What happens, from a line without its end.
pub fn read_input<B: Wire>(
    alloc: Global,
    line: &[u8],
) -> Result<Option<Input<B, WireLine, Name>>, AllocError>
    ensures { IfOk result
        (ReadsAs (text_of_input B.spelled B.fits) (FitsInput B.spelled B.fits) line.now) }
{
    match split(line, b' ') {
        Some((word, rest)) => match Kind::of_word(word) {
            Some(kind) => read_fields(alloc, kind, rest),
            None => Ok(None),
        },
        None => Ok(None),
    }
}

/// What happens, of this kind, from the fields after its word.
fn read_fields<B: Wire>(
    alloc: Global,
    kind: Kind,
    rest: &[u8],
) -> Result<Option<Input<B, WireLine, Name>>, AllocError>
    ensures { IfOk result (ReadsFields B.spelled B.fits kind rest.now) }
{
    match kind {
        Kind::Timeout => match read_node(rest) {
            Some(node) => Ok(Some(Input::Timeout(node))),
            None => Ok(None),
        },
        Kind::Beat => match read_node(rest) {
            Some(node) => Ok(Some(Input::Beat(node))),
            None => Ok(None),
        },
        Kind::Deliver => Ok(read_deliver(rest)),
        Kind::Ask => read_ask(alloc, rest),
        Kind::Opened => match read_node(rest) {
            Some(node) => Ok(Some(Input::Opened(node))),
            None => Ok(None),
        },
        Kind::Closed => match read_node(rest) {
            Some(node) => Ok(Some(Input::Closed(node))),
            None => Ok(None),
        },
        Kind::Heard => read_heard(alloc, rest),
        Kind::Claim => match read_node(rest) {
            Some(node) => Ok(Some(Input::Claim(node))),
            None => Ok(None),
        },
        Kind::Apply => match read_node(rest) {
            Some(node) => Ok(Some(Input::Apply(node))),
            None => Ok(None),
        },
        Kind::Look => read_look(alloc, rest),
    }
}

/// The node and the number of the message that arrives.
fn read_deliver<B: Wire>(rest: &[u8]) -> Option<Input<B, WireLine, Name>>
    ensures { ReadsFields B.spelled B.fits Deliver rest.now result }
{
    match node_first(rest) {
        Some((node, digits)) => match read_number(digits) {
            Some(number) => Some(Input::Deliver(node, number)),
            None => None,
        },
        None => None,
    }
}

/// The node and the body that is requested.
fn read_ask<B: Wire>(
    alloc: Global,
    rest: &[u8],
) -> Result<Option<Input<B, WireLine, Name>>, AllocError>
    ensures { IfOk result (ReadsFields B.spelled B.fits Ask rest.now) }
{
    match node_first(rest) {
        Some((node, digits)) => match read_body(alloc, digits)? {
            Some(body) => Ok(Some(Input::Ask(node, body))),
            None => Ok(None),
        },
        None => Ok(None),
    }
}

/// The node, when it heard, and the line.
fn read_heard<B: Wire>(
    alloc: Global,
    rest: &[u8],
) -> Result<Option<Input<B, WireLine, Name>>, AllocError>
    ensures { IfOk result (ReadsFields B.spelled B.fits Heard rest.now) }
{
    match node_first(rest) {
        Some((node, behind)) => match number_first(behind) {
            Some((seconds, spelled)) => {
                if seconds > LAST_SECOND {
                    return Ok(None);
                }
                match read_line(alloc, spelled)? {
                    Some(line) => Ok(Some(Input::Heard(node, Moment::new(seconds), line))),
                    None => Ok(None),
                }
            }
            None => Ok(None),
        },
        None => Ok(None),
    }
}

/// The node, the place and the target of a playback.
fn read_look<B: Wire>(
    alloc: Global,
    rest: &[u8],
) -> Result<Option<Input<B, WireLine, Name>>, AllocError>
    ensures { IfOk result (ReadsFields B.spelled B.fits Look rest.now) }
{
    match node_first(rest) {
        Some((node, behind)) => match number_first(behind) {
            Some((place, target)) => match read_name(alloc, target)? {
                Some(target) => Ok(Some(Input::Look(node, place, target))),
                None => Ok(None),
            },
            None => Ok(None),
        },
        None => Ok(None),
    }
}
