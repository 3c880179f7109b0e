//! Events, and what leaves by them, as text, by examples.
use buffer_commands::{Command, Effect, WireLine};
use irc_line::Name;
use raft_log::NodeId;
use recorder::{Words, parse_events, push_answers, write_events};
use request_once::Answer;
use session_fence::FenceEffect;
use std::alloc::{AllocError, Global};
use std::slice;
use std::test::Fail;
use upstream_claim::ClaimsEffect;
use wire_bytes::{Origin, Wire};
use world_events::{Event, Input};

/// Every kind of event; the body is that node 2 is gone up to its run 5.
const EVERY_KIND: &[u8] = b"timeout 1
beat 2
deliver 3 18446744073709551615
deliver 7 0
ask 1 03020000000000000005
opened 1
closed 2
heard 3 1700000000 :a!b@c PRIVMSG #x :hi
claim 1
apply 6
look 3 4 #x
restart 2
stop before timeout 1
stop after ask 1 03020000000000000005
";

/// What the tower brings about.
type TowerEffect = Answer<ClaimsEffect<FenceEffect<Effect>>>;

/// Whether a text is that of so many events.
fn is_text<B: Wire>(alloc: Global, text: &[u8], count: usize) -> Result<bool, Fail> {
    let events = parse_events::<B>(alloc, text)?;
    let written = write_events(alloc, &events)?;
    Ok(events.len() == count && written.as_slice() == text)
}

/// Whether a restart and a delivery have this text.
fn are_written(alloc: Global, text: &[u8]) -> Result<bool, AllocError> {
    let mut events: Vec<Event<u8, WireLine, Name>> = Vec::new(alloc);
    events.push(Event::Restart(NodeId::new(3)))?;
    events.push(Event::Does(Input::Deliver(NodeId::new(3), 12)))?;
    let written = write_events(alloc, &events)?;
    Ok(written.as_slice() == text)
}

#[test]
fn a_line_is_one_event_and_is_written_as_it_was(rt: HostRuntime) -> Result<(), Fail> {
    assert!(rt; is_text::<Command>(rt.alloc(), EVERY_KIND, 14)?);
    assert!(rt; is_text::<Command>(rt.alloc(), b"", 0)?);
    assert!(rt; are_written(rt.alloc(), b"restart 3\ndeliver 3 12\n")?);
    Ok(())
}

/// Whether what leaves is told in these words.
fn is_told<E: Words>(alloc: Global, effect: &E, words: &[u8]) -> Result<bool, AllocError> {
    let mut out = Vec::new(alloc);
    effect.push_words(&mut out)?;
    Ok(out.as_slice() == words)
}

/// Whether a line is not numbered, and a request comes too early, in these words.
fn tower_tells(alloc: Global, busy: &[u8], gap: &[u8]) -> Result<bool, AllocError> {
    let origin = Origin::new(2, 5, 7);
    let not_numbered: TowerEffect = Answer::Effect(ClaimsEffect::Busy(origin));
    let early: TowerEffect = Answer::Gap(origin, 3);
    Ok(is_told(alloc, &not_numbered, busy)? && is_told(alloc, &early, gap)?)
}

/// Whether the end of a client is told so as an answer at place 12.
fn is_answered(alloc: Global, line: &[u8]) -> Result<bool, AllocError> {
    let mut out = Vec::new(alloc);
    let close = Answer::Effect(Effect::Close(Origin::new(1, 1, 1)));
    push_answers(&mut out, 12, slice::from_ref(&close))?;
    Ok(out.as_slice() == line)
}

#[test]
fn what_leaves_is_told_in_words(rt: HostRuntime) -> Result<(), Fail> {
    assert!(rt; tower_tells(rt.alloc(), b"busy 2.5.7", b"gap 2.5.7 3")?);
    assert!(rt; is_answered(rt.alloc(), b"12 close 1.1.1\n")?);
    Ok(())
}
