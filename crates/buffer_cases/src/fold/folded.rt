//! What a machine answers to bodies, as lines of text.
use crate::fold::said::Said;
use machine_laws::{Machine, run_all};
use recorder::{Words, push_answers};
use request_once::Answer;
use std::alloc::Global;
use std::test::Fail;
use wire_bytes::Wire;

fn body<W: Wire>(alloc: Global, said: &Said<'_>) -> Result<W, Fail> {
    let mut bytes = Vec::new(alloc);
    said.push(&mut bytes)?;
    let (body, len) = W::take(alloc, &bytes)?;
    if len == bytes.len() {
        Ok(body)
    } else {
        Err(Fail::from("more than a body"))
    }
}

/// A body comes to a machine, and its answers are appended.
fn come<M, E: Words + Drop>(
    alloc: Global,
    machine: &mut M,
    out: &mut Vec<u8>,
    place: u64,
    said: &Said<'_>,
) -> Result<(), Fail>
where
    M: Machine<Effect = Answer<E>>,
{
    let body = body::<M::Command>(alloc, said)?;
    let answers = machine.apply(place, &body)?;
    Ok(push_answers(out, place, &answers)?)
}

/// These bodies come to a machine, at places from 1, and their answers are appended.
fn come_all<M, E: Words + Drop>(
    alloc: Global,
    machine: &mut M,
    out: &mut Vec<u8>,
    all: &[Said<'_>],
) -> Result<(), Fail>
where
    M: Machine<Effect = Answer<E>>,
{
    let mut place = 0u64;
    for said in all {
        place = place.wrapping_add(1);
        come(alloc, machine, out, place, said)?;
    }
    Ok(())
}

/// The answers to all bodies, at places from 1.
pub fn answered<M, E: Words + Drop>(
    alloc: Global,
    setup: &M::Setup,
    all: &[Said<'_>],
) -> Result<Vec<u8>, Fail>
where
    M: Machine<Effect = Answer<E>>,
{
    let mut machine = M::start(alloc, setup)?;
    let mut out = Vec::new(alloc);
    come_all(alloc, &mut machine, &mut out, all)?;
    Ok(out)
}

fn bodies<W: Wire>(alloc: Global, all: &[Said<'_>]) -> Result<Vec<W>, Fail> {
    let mut bodies = Vec::new(alloc);
    for said in all {
        bodies.push(body(alloc, said)?)?;
    }
    Ok(bodies)
}

/// The answers to all bodies in one run, which do not tell their places: at the place 0.
pub fn answered_in_one_run<M, E: Words + Drop>(
    alloc: Global,
    setup: &M::Setup,
    all: &[Said<'_>],
) -> Result<Vec<u8>, Fail>
where
    M: Machine<Effect = Answer<E>>,
{
    let bodies = bodies::<M::Command>(alloc, all)?;
    let mut machine = M::start(alloc, setup)?;
    let answers = run_all(alloc, &mut machine, &bodies)?;
    let mut out = Vec::new(alloc);
    push_answers(&mut out, 0, &answers)?;
    Ok(out)
}
