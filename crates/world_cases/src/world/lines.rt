//! Lines of what comes out, by examples.
use buffer_commands::Effect;
use buffer_lines::Shown;
use node_steps::Refusal;
use raft_log::NodeId;
use std::alloc::{AllocError, Global};
use std::test::Fail;
use wire_bytes::{Number, Origin};
use world_events::{Event, Input};
use world_lines::{push_outcome, push_outcomes};
use world_run::Outcome;

type BufferOutcome = Outcome<Effect, Shown>;

/// Whether the event 12, which names node 3, and what came out of it are told so.
fn is_told(alloc: Global, outcome: &BufferOutcome, lines: &[u8]) -> Result<bool, AllocError> {
    let mut out = Vec::new(alloc);
    push_outcome(&mut out, 12, NodeId::new(3), outcome)?;
    Ok(out.as_slice() == lines)
}

/// Whether a refusal has this line.
fn is_refused(alloc: Global, refusal: Refusal, line: &[u8]) -> Result<bool, AllocError> {
    is_told(alloc, &Outcome::Refused(refusal), line)
}

#[test]
fn refusals_are_told_by_number_and_name(rt: HostRuntime) -> Result<(), Fail> {
    let (alloc, behind) = (rt.alloc(), Refusal::Behind(Number::new(10)));
    assert!(rt; is_refused(alloc, Refusal::LogFull, b"12 3 refused 3 LogFull\n")?);
    assert!(rt; is_refused(alloc, Refusal::TermsSpent, b"12 3 refused 4 TermsSpent\n")?);
    assert!(rt; is_refused(alloc, Refusal::NoLeader, b"12 3 refused 5 NoLeader\n")?);
    assert!(rt; is_refused(alloc, behind, b"12 3 refused 6 Behind 10\n")?);
    assert!(rt; is_refused(alloc, Refusal::BadOrigin, b"12 3 refused 7 BadOrigin\n")?);
    Ok(())
}

/// Whether two connections that are closed at place 7 have these lines.
fn are_closed(alloc: Global, lines: &[u8]) -> Result<bool, AllocError> {
    let mut effects = Vec::new(alloc);
    effects.push(Effect::Close(Origin::new(3, 1, 1)))?;
    effects.push(Effect::Close(Origin::new(3, 1, 2)))?;
    let place = Number::new(7);
    is_told(alloc, &Outcome::Left { place, effects }, lines)
}

const LONG: &[u8] = &[b'a'; 600];

/// Whether a playback of a line with 600 letters is told behind this, and cut.
fn is_cut(alloc: Global, front: &[u8]) -> Result<bool, Fail> {
    let mut lines = Vec::new(alloc);
    lines.push(Shown::of_parts(alloc, None, b"X", &[LONG])?)?;
    let mut wanted = Vec::from_slice(alloc, front)?;
    wanted.extend_from_slice(&LONG[..508])?;
    wanted.push(b'\n')?;
    let place = Number::new(7);
    Ok(is_told(alloc, &Outcome::Looked { place, lines }, &wanted)?)
}

/// Whether a restart of which nothing comes, a stop at no node and a refused delivery are told so.
fn are_numbered(alloc: Global, lines: &[u8]) -> Result<bool, AllocError> {
    let mut events: Vec<Event<u8, u8, u8>> = Vec::new(alloc);
    events.push(Event::Restart(NodeId::new(2)))?;
    events.push(Event::StopIn(Input::Beat(NodeId::new(4)), true))?;
    events.push(Event::Does(Input::Deliver(NodeId::new(5), 9)))?;
    let mut outs: Vec<BufferOutcome> = Vec::new(alloc);
    outs.push(Outcome::Quiet)?;
    outs.push(Outcome::Missing)?;
    outs.push(Outcome::Refused(Refusal::LogFull))?;
    let mut out = Vec::new(alloc);
    push_outcomes(&mut out, &events, &outs)?;
    Ok(out.as_slice() == lines)
}

/// Each effect has a line, a long line is cut, and events are numbered from one.
#[test]
fn what_comes_out_stands_on_lines(rt: HostRuntime) -> Result<(), Fail> {
    let alloc = rt.alloc();
    assert!(rt; are_closed(alloc, b"12 3 7 close 3.1.1\n12 3 7 close 3.1.2\n")?);
    assert!(rt; is_cut(alloc, b"12 3 7 looked 1\n12 3 line X ")?);
    assert!(rt; are_numbered(alloc, b"2 none\n3 5 refused 3 LogFull\n")?);
    Ok(())
}
