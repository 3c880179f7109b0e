//! Writing events.
ghost use Rattle.std.specs.Prelude.{◌≡◌, ◌++◌, ◌∷◌, decimal, IfOk, OnOk};
ghost use Rattle.hex.specs.Hex.{IsBytes, encode_lower};
ghost use Rattle.recorder.specs.EventLists.{AreOf, AreWritable};
ghost use Rattle.recorder.specs.InputReadings.{FitsEvent, FitsInput, IsWritable, IsWritableInput};
ghost use Rattle.recorder.specs.InputReadings.{text_of_event, text_of_input};
ghost use Rattle.recorder.specs.Kinds.{word};

use crate::kind::Kind;
use buffer_commands::WireLine;
use irc_line::Name;
use itoa::Buffer;
use raft_log::NodeId;
use std::alloc::{AllocError, Global};
use wire_bytes::Wire;
use world_events::{Event, Input};

/// The text of events, one a line, each with its end.
pub fn write_events<B: Wire>(
    alloc: Global,
    events: &[Event<B, WireLine, Name>],
) -> Result<Vec<u8>, AllocError>
    requires { AreWritable B.spelled B.fits events.now }
    ensures { IfOk result (λ v. AreOf B.spelled B.fits v.items events.now) }
{
    let mut out = Vec::new(alloc);
    for event in events {
        push_event(alloc, &mut out, event)?;
        out.push(b'\n')?;
    }
    Ok(out)
}

/// Appends an event as a line without its end. After an error a part of it may have been appended.
pub fn push_event<B: Wire>(
    alloc: Global,
    out: &mut Vec<u8>,
    event: &Event<B, WireLine, Name>,
) -> Result<(), AllocError>
    requires { IsWritable B.spelled B.fits event.now }
    ensures text { OnOk result
        (out.new.items ≡ out.old.items ++ text_of_event B.spelled B.fits event.now) }
    ensures fits { OnOk result (FitsEvent B.spelled B.fits event.now) }
{
    match event {
        Event::Does(input) => push_input(alloc, out, input),
        Event::Restart(node) => {
            out.extend_from_slice(b"restart ")?;
            push_number(out, node.value() as u64)
        }
        Event::StopIn(input, after) => {
            let words: &[u8] = if *after {
                b"stop after "
            } else {
                b"stop before "
            };
            out.extend_from_slice(words)?;
            push_input(alloc, out, input)
        }
    }
}

/// Appends what happens as a line without its end. After an error a part of it may have been
/// appended.
pub fn push_input<B: Wire>(
    alloc: Global,
    out: &mut Vec<u8>,
    input: &Input<B, WireLine, Name>,
) -> Result<(), AllocError>
    requires { IsWritableInput B.spelled B.fits input.now }
    ensures text { OnOk result
        (out.new.items ≡ out.old.items ++ text_of_input B.spelled B.fits input.now) }
    ensures fits { OnOk result (FitsInput B.spelled B.fits input.now) }
{
    match input {
        Input::Timeout(node) => push_front(out, Kind::Timeout, *node),
        Input::Beat(node) => push_front(out, Kind::Beat, *node),
        Input::Deliver(node, number) => {
            push_front(out, Kind::Deliver, *node)?;
            out.push(b' ')?;
            push_number(out, *number)
        }
        Input::Ask(node, body) => {
            push_front(out, Kind::Ask, *node)?;
            out.push(b' ')?;
            push_body(alloc, out, body)
        }
        Input::Opened(node) => push_front(out, Kind::Opened, *node),
        Input::Closed(node) => push_front(out, Kind::Closed, *node),
        Input::Heard(node, at, line) => {
            push_front(out, Kind::Heard, *node)?;
            out.push(b' ')?;
            push_number(out, at.seconds())?;
            out.push(b' ')?;
            line.line().write_to(out)
        }
        Input::Claim(node) => push_front(out, Kind::Claim, *node),
        Input::Apply(node) => push_front(out, Kind::Apply, *node),
        Input::Look(node, place, target) => {
            push_front(out, Kind::Look, *node)?;
            out.push(b' ')?;
            push_number(out, *place)?;
            out.push(b' ')?;
            out.extend_from_slice(target.as_bytes())
        }
    }
}

/// Appends the word of a kind and its node.
fn push_front(out: &mut Vec<u8>, kind: Kind, node: NodeId) -> Result<(), AllocError>
    ensures { OnOk result (out.new.items ≡ out.old.items ++ word kind ++ 32 ∷ decimal node) }
{
    out.extend_from_slice(kind.word())?;
    out.push(b' ')?;
    push_number(out, node.value() as u64)
}

/// Appends a body in lower-case hex digits. After an error a part of them may have been appended.
pub fn push_body<B: Wire>(alloc: Global, out: &mut Vec<u8>, body: &B) -> Result<(), AllocError>
    requires { B.fits body.now }
    ensures text { OnOk result
        (out.new.items ≡ out.old.items ++ encode_lower (B.spelled body.now)) }
    ensures bytes { OnOk result (IsBytes (B.spelled body.now)) }
{
    let mut bytes = Vec::new(alloc);
    body.put(&mut bytes)?;
    let digits = hex::encode(alloc, bytes.as_slice())?;
    out.extend_from_slice(digits.as_bytes())
}

/// Appends a number in decimal digits.
#[tactic(auto, using(std::proofs::lemmas::Fmt::decimal_digit))]
pub fn push_number(out: &mut Vec<u8>, number: u64) -> Result<(), AllocError>
    ensures { OnOk result (out.new.items ≡ out.old.items ++ decimal number) }
{
    if number < 10 {
        return Ok(out.push(b'0' + number as u8)?);
    }
    let mut buffer = Buffer::new();
    out.extend_from_slice(buffer.format(number).as_bytes())
}
