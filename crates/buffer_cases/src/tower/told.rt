//! A machine as the tower is, whose effects are told as text.
use crate::tower::bodies::taken;
use bouncer_tower::{Tower, TowerEffect, answer_all};
use buffer_commands::Setup;
use buffer_lines::Shown;
use machine_laws::{ApplyFault, Class, Hosted};
use request_once::Answer;
use std::alloc::{AllocError, Global};
use std::test::Fail;
use upstream_claim::ClaimsEffect;
use wire_bytes::{Origin, SessionId};

/// What an effect says of a request.
#[derive(Clone, Copy)]
pub enum Word {
    /// The request of this number is done.
    Done(u64),
    /// Its line is not sent.
    Busy,
    /// Something else.
    Other,
}

/// The examples speak of machines with these calls, so that they are proved for any of them.
pub trait Told: Hosted {
    fn word(effect: &Self::Effect) -> Word;

    /// The spelling of a line of a playback.
    fn spelling(line: &Self::Played) -> &[u8];

    /// What these bodies bring about.
    fn answers(
        alloc: Global,
        setup: &Self::Setup,
        bodies: &[Self::Command],
    ) -> Result<Vec<Self::Effect>, ApplyFault>;
}

impl Told for Tower {
    fn word(effect: &TowerEffect) -> Word {
        match effect {
            Answer::Done(_, number) => Word::Done(*number),
            Answer::Effect(ClaimsEffect::Busy(_)) => Word::Busy,
            _ => Word::Other,
        }
    }

    fn spelling(line: &Shown) -> &[u8] {
        line.spelling()
    }

    fn answers(
        alloc: Global,
        setup: &Setup,
        bodies: &[Self::Command],
    ) -> Result<Vec<TowerEffect>, ApplyFault> {
        answer_all(alloc, setup, bodies)
    }
}

/// Appends the digit of a number below 10, and a question mark for any other.
fn push_digit(out: &mut Vec<u8>, number: u64) -> Result<(), AllocError> {
    Ok(out.push(if number < 10 {
        b'0' + number as u8
    } else {
        b'?'
    })?)
}

/// Appends a word, a session's id and a space.
fn push_session(out: &mut Vec<u8>, word: &[u8], id: SessionId) -> Result<(), AllocError> {
    out.extend_from_slice(word)?;
    push_digit(out, id.term())?;
    out.push(b'.')?;
    push_digit(out, id.attempt())?;
    Ok(out.push(b' ')?)
}

/// Appends an effect.
fn push_effect<M: Told>(out: &mut Vec<u8>, effect: &M::Effect) -> Result<(), AllocError> {
    match M::class(effect) {
        Class::To(origin) => push_answer(out, origin, M::word(effect)),
        Class::Hand(id, number, line) => {
            push_session(out, b"hand ", id)?;
            push_digit(out, number)?;
            out.push(b' ')?;
            line.write_to(out)
        }
        Class::Rejoin(id, line) => {
            push_session(out, b"rejoin ", id)?;
            line.write_to(out)
        }
        Class::Nowhere => out.extend_from_slice(b"nowhere"),
    }
}

/// Appends what a client is answered.
fn push_answer(out: &mut Vec<u8>, origin: Origin, word: Word) -> Result<(), AllocError> {
    match word {
        Word::Done(number) => {
            out.extend_from_slice(b"done ")?;
            push_digit(out, origin.node() as u64)?;
            out.push(b'.')?;
            push_digit(out, origin.boot())?;
            out.push(b'.')?;
            push_digit(out, origin.client())?;
            out.push(b' ')?;
            push_digit(out, number)
        }
        Word::Busy | Word::Other => out.extend_from_slice(b"another"),
    }
}

/// Appends a line for each effect of the body at a place.
fn push_effects<M: Told>(
    out: &mut Vec<u8>,
    place: u64,
    effects: &[M::Effect],
) -> Result<(), AllocError> {
    for effect in effects {
        push_digit(out, place)?;
        out.push(b' ')?;
        push_effect::<M>(out, effect)?;
        out.push(b'\n')?;
    }
    Ok(())
}

/// The body that these bytes spell comes to a machine, and a line for each of its effects is appended.
fn come<M: Told>(
    alloc: Global,
    machine: &mut M,
    out: &mut Vec<u8>,
    place: u64,
    bytes: &[u8],
) -> Result<(), Fail> {
    let body = taken::<M::Command>(alloc, bytes)?;
    let effects = machine.apply(place, &body)?;
    Ok(push_effects::<M>(out, place, &effects)?)
}

/// These bodies come to a machine, and a line for each effect of each is appended.
pub fn come_all<M: Told>(
    alloc: Global,
    machine: &mut M,
    out: &mut Vec<u8>,
    bodies: &[&[u8]],
) -> Result<(), Fail> {
    let mut place = 0u64;
    for bytes in bodies {
        place = place.wrapping_add(1);
        come::<M>(alloc, machine, out, place, bytes)?;
    }
    Ok(())
}

/// A machine to which these bodies came.
pub fn machine_after<M: Told>(alloc: Global, setup: M::Setup, bodies: &[&[u8]]) -> Result<M, Fail> {
    let mut machine = M::start(alloc, &setup)?;
    come_all::<M>(alloc, &mut machine, &mut Vec::new(alloc), bodies)?;
    Ok(machine)
}
