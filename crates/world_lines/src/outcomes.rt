//! What comes out of events, as lines.
ghost use Rattle.std.specs.Prelude.{◌≡◌, ◌++◌, ◌∷◌, [], decimal, flat_map, length, OnOk};
ghost use Rattle.world_lines.specs.OutcomeText.{outcome_lines, outcomes_lines};
ghost use Rattle.world_lines.specs.OutputText.{front, left_lines, looked_line, looked_lines};
ghost use Rattle.world_lines.specs.OutputText.{played_line, refusal_words, refused_line};

use crate::named::named_by;
use crate::spelled::Spelled;
use node_steps::Refusal;
use raft_log::NodeId;
use recorder::{Words, printed, push_number};
use std::alloc::AllocError;
use wire_bytes::Number;
use world_events::Event;
use world_run::Outcome;

/// Appends what came out of each event, the events being numbered from 1. After an error a part of it
/// may have been appended.
pub fn push_outcomes<B, L, T, E: Words, P: Spelled>(
    out: &mut Vec<u8>,
    events: &[Event<B, L, T>],
    outs: &[Outcome<E, P>],
) -> Result<(), AllocError>
    ensures { OnOk result (out.new.items ≡ out.old.items ++
        outcomes_lines E.words P.spelled 1 events.now outs.now) }
{
    for (place, event) in events.iter().enumerate() {
        let Some(outcome) = outs.get(place) else {
            return Ok(());
        };
        push_outcome(out, place as u64 + 1, named_by(event), outcome)?;
    }
    Ok(())
}

/// Appends what came out of the event of this number, which names this node: a line for each effect
/// that leaves, a look and each line that it played, a refusal, or that there is no such node or
/// message. After an error a part of it may have been appended.
pub fn push_outcome<E: Words, P: Spelled>(
    out: &mut Vec<u8>,
    number: u64,
    node: NodeId,
    outcome: &Outcome<E, P>,
) -> Result<(), AllocError>
    ensures { OnOk result (out.new.items ≡ out.old.items ++
        outcome_lines E.words P.spelled number node outcome.now) }
{
    match outcome {
        Outcome::Quiet => Ok(()),
        Outcome::Left { place, effects } => push_left(out, number, node, *place, effects),
        Outcome::Looked { place, lines } => push_looked(out, number, node, *place, lines),
        Outcome::Refused(refusal) => push_refused(out, number, node, *refusal),
        Outcome::Missing => {
            push_number(out, number)?;
            out.extend_from_slice(b" none")?;
            Ok(out.push(b'\n')?)
        }
    }
}

/// Appends a line for each effect of the entry at a place.
fn push_left<E: Words>(
    out: &mut Vec<u8>,
    number: u64,
    node: NodeId,
    place: Number,
    effects: &[E],
) -> Result<(), AllocError>
    ensures { OnOk result (out.new.items ≡ out.old.items ++
        left_lines E.words number node place effects.now) }
{
    for effect in effects {
        push_front(out, number, node)?;
        push_number(out, place.value())?;
        out.push(b' ')?;
        effect.push_words(out)?;
        out.push(b'\n')?;
    }
    Ok(())
}

/// Appends a look at a place, and the lines that it played.
fn push_looked<P: Spelled>(
    out: &mut Vec<u8>,
    number: u64,
    node: NodeId,
    place: Number,
    lines: &[P],
) -> Result<(), AllocError>
    ensures { OnOk result (out.new.items ≡ out.old.items ++
        looked_lines P.spelled number node place lines.now) }
{
    push_look(out, number, node, place, lines.len())?;
    for line in lines {
        push_played(out, number, node, line.spelling())?;
    }
    Ok(())
}

/// Appends where a look was answered, and how many lines it played.
fn push_look(
    out: &mut Vec<u8>,
    number: u64,
    node: NodeId,
    place: Number,
    count: usize,
) -> Result<(), AllocError>
    ensures { OnOk result (out.new.items ≡ out.old.items ++
        looked_line number node place count) }
{
    push_front(out, number, node)?;
    push_number(out, place.value())?;
    out.extend_from_slice(b" looked ")?;
    push_number(out, count as u64)?;
    Ok(out.push(b'\n')?)
}

/// Appends a line that was played.
fn push_played(
    out: &mut Vec<u8>,
    number: u64,
    node: NodeId,
    spelling: &[u8],
) -> Result<(), AllocError>
    ensures { OnOk result (out.new.items ≡ out.old.items ++
        played_line (λ s. s) number node spelling.now) }
{
    push_front(out, number, node)?;
    out.extend_from_slice(b"line ")?;
    // cut to what fits in a line of IRC
    out.extend_from_slice(printed(spelling))?;
    Ok(out.push(b'\n')?)
}

/// Appends that a node was unchanged, and why.
fn push_refused(
    out: &mut Vec<u8>,
    number: u64,
    node: NodeId,
    refusal: Refusal,
) -> Result<(), AllocError>
    ensures { OnOk result (out.new.items ≡ out.old.items ++ refused_line number node refusal) }
{
    push_front(out, number, node)?;
    out.extend_from_slice(b"refused ")?;
    push_refusal(out, refusal)?;
    Ok(out.push(b'\n')?)
}

/// Appends why.
fn push_refusal(out: &mut Vec<u8>, refusal: Refusal) -> Result<(), AllocError>
    ensures { OnOk result (out.new.items ≡ out.old.items ++ refusal_words refusal) }
{
    match refusal {
        Refusal::LogFull => out.extend_from_slice(b"3 LogFull"),
        Refusal::TermsSpent => out.extend_from_slice(b"4 TermsSpent"),
        Refusal::NoLeader => out.extend_from_slice(b"5 NoLeader"),
        Refusal::Behind(applied) => {
            out.extend_from_slice(b"6 Behind ")?;
            push_number(out, applied.value())
        }
        Refusal::BadOrigin => out.extend_from_slice(b"7 BadOrigin"),
    }
}

/// Appends the number of an event and a node.
fn push_front(out: &mut Vec<u8>, number: u64, node: NodeId) -> Result<(), AllocError>
    ensures { OnOk result (out.new.items ≡ out.old.items ++ front number node) }
{
    push_number(out, number)?;
    out.push(b' ')?;
    push_number(out, node.value() as u64)?;
    Ok(out.push(b' ')?)
}
