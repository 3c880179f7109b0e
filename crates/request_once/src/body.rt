//! What comes to a machine whose requests are numbered.
ghost use Rattle.std.specs.Prelude.{◌≡◌, ◌≢◌, ◌<◌, ◌≤◌, ◌+◌, drop, length, vec_capacity, vec_len, IfOk, IfErr, IsTrue, OnErr, Ok, Err};
ghost use Rattle.wire_bytes.specs.Fields.{appended, behind};
ghost use Rattle.request_once.specs.Spelling.{FitsBody, asked_taken, asked_wants, body_taken, body_wants};
ghost use Rattle.request_once.specs.Spelling.{inner_taken, marking_taken, spelled_asked, spelled_body};
ghost use Rattle.request_once.specs.BodyCodec.{body_is_codec};
ghost use Rattle.irc_line.specs.Lines.{LacksRoom};
ghost use Rattle.wire_bytes.specs.Reads.{Reads, Refuses, WantsWhere};

use std::alloc::{AllocError, Global};
use wire_bytes::{Copied, Mark, Moment, Number, Origin, Wire, WireFault, take_behind, undo};

/// A command of the machine below, a numbered request of a client, or one of two bodies that change nothing.
///
/// An origin numbers its requests from 1.
#[derive(Drop)]
pub enum Body<C, A> {
    Inner(C),
    Asked(Origin, Number, Moment, A),
    /// Has no answer.
    Blank,
    /// Is answered `Marked`.
    Mark(Mark),
}

impl<C: Copied, A: Copied> Copied for Body<C, A> {
    fn copy(&self, alloc: Global) -> Result<Self, AllocError> {
        match self {
            Body::Inner(command) => Ok(Body::Inner(command.copy(alloc)?)),
            Body::Asked(origin, number, at, action) => Ok(Body::Asked(
                *origin,
                *number,
                *at,
                action.copy(alloc)?,
            )),
            Body::Blank => Ok(Body::Blank),
            Body::Mark(mark) => Ok(Body::Mark(*mark)),
        }
    }
}

/// A kind byte, 0 for a command, 1 for a request, 2 for a blank and 3 for a mark; a request is spelled origin, number,
/// moment, action.
impl<C: Wire, A: Wire> Wire for Body<C, A> {
    ghost spelled = { spelled_body C.spelled A.spelled };

    ghost fits = { FitsBody C.fits A.fits };

    ghost taken = { body_taken C.taken A.taken };

    ghost wants = { body_wants C.wants A.wants };

    fn put(&self, out: &mut Vec<u8>) -> Result<(), AllocError> {
        let len = out.len();
        match self {
            Body::Inner(command) => {
                out.push(0)?;
                let outcome = command.put(out);
                undo(out, len, outcome)
            }
            Body::Asked(origin, number, at, action) => {
                out.push(1)?;
                let outcome = put_asked(out, *origin, *number, *at, action);
                undo(out, len, outcome)
            }
            Body::Blank => Ok(out.push(2)?),
            Body::Mark(mark) => {
                out.push(3)?;
                let outcome = mark.put(out);
                undo(out, len, outcome)
            }
        }
    }

    #[tactic(auto, using(wire_bytes::proofs::Steps::composed))]
    fn take(alloc: Global, input: &[u8]) -> Result<(Self, usize), WireFault> {
        match input {
            [] => Err(WireFault::Short),
            [0, ..] => take_inner(alloc, input),
            [1, ..] => take_asked(alloc, input),
            [2, ..] => Ok((Body::Blank, 1)),
            [3, ..] => take_mark(alloc, input),
            _ => Err(WireFault::Bad(0)),
        }
    }

    ghost is_codec = { body_is_codec C.spelled C.fits C.taken A.spelled A.fits A.taken
        C.is_codec A.is_codec };
}

/// Appends the fields of a request, after its kind byte, or leaves the items as they were.
fn put_asked<A: Wire>(
    out: &mut Vec<u8>,
    origin: Origin,
    number: Number,
    at: Moment,
    action: &A,
) -> Result<(), AllocError>
    requires { A.fits action.now }
    ensures items { out.new.items
        ≡ appended result out.old.items (spelled_asked A.spelled origin number at action.now) }
    ensures full { OnErr result (LacksRoom out.old (length
        (spelled_asked A.spelled origin number at action.now))) }
    ensures capacity { vec_capacity out.old ≤ vec_capacity out.new }
{
    let len = out.len();
    ((origin, number), at).put(out)?;
    let outcome = action.put(out);
    undo(out, len, outcome)
}

/// The command after a kind byte.
fn take_inner<C: Wire, A: Wire>(
    alloc: Global,
    input: &[u8],
) -> Result<(Body<C, A>, usize), WireFault>
    requires { 1 ≤ length input.now }
    ensures ok { Reads result (behind 1 (inner_taken {A = A} C.taken)) input.now }
    ensures err { Refuses result (behind 1 (inner_taken {A = A} C.taken)) input.now }
    ensures memory { WantsWhere result (C.wants (drop 1 input.now)) }
{
    let (command, end) = take_behind::<C>(alloc, input, 1)?;
    Ok((Body::Inner(command), end))
}

/// The request after a kind byte.
fn take_asked<C: Wire, A: Wire>(
    alloc: Global,
    input: &[u8],
) -> Result<(Body<C, A>, usize), WireFault>
    requires { 1 ≤ length input.now }
    ensures ok { Reads result (behind 1 (asked_taken A.taken)) input.now }
    ensures err { Refuses result (behind 1 (asked_taken {C = C} A.taken)) input.now }
    ensures memory { WantsWhere result (asked_wants A.wants (drop 1 input.now)) }
{
    let ((((origin, number), at), action), end) = take_behind::<(((Origin, Number), Moment), A)>(
        alloc, input, 1,
    )?;
    Ok((Body::Asked(origin, number, at, action), end))
}

/// The mark after a kind byte.
#[tactic(auto, using(wire_bytes::proofs::Steps::composed))]
fn take_mark<C: Drop, A: Drop>(
    alloc: Global,
    input: &[u8],
) -> Result<(Body<C, A>, usize), WireFault>
    requires { 1 ≤ length input.now }
    ensures ok { Reads result (behind 1 (marking_taken {C = C} {A = A})) input.now }
    ensures err { Refuses result (behind 1 (marking_taken {C = C} {A = A})) input.now }
    ensures no_memory { IfErr result (λ e. e ≢ WireFault.Memory) }
{
    let (mark, end) = take_behind::<Mark>(alloc, input, 1)?;
    Ok((Body::Mark(mark), end))
}
