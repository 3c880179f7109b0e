//! What comes to a machine whose sessions follow one another.
ghost use Rattle.std.specs.Prelude.{◌≡◌, ◌≢◌, ◌<◌, ◌≤◌, ◌+◌, drop, length, vec_capacity, vec_len, IfOk, IfErr, IsTrue, OnErr, Ok, Err};
ghost use Rattle.wire_bytes.specs.Fields.{appended, behind};
ghost use Rattle.session_fence.specs.Spelling.{FitsCommand, command_taken, command_wants, heard_taken, heard_wants, inner_taken, opened_taken, shut_taken, spelled_command, spelled_heard};
ghost use Rattle.session_fence.specs.CommandCodec.{command_is_codec};
ghost use Rattle.irc_line.specs.Lines.{LacksRoom};
ghost use Rattle.wire_bytes.specs.Reads.{Reads, Refuses, WantsWhere};

use std::alloc::{AllocError, Global};
use wire_bytes::{Copied, Moment, Number, SessionId, Wire, WireFault, take_behind, undo};

/// A command of the machine below, or a report about the sessions with upstream.
#[derive(Drop)]
pub enum FenceCommand<C, L> {
    Inner(C),
    /// The session is opened; it is up.
    Opened(SessionId),
    /// The session is shut; it is down.
    Shut(SessionId),
    /// A line of the session that came at this moment; each session numbers its lines from 1.
    Heard(SessionId, Number, Moment, L),
}

impl<C: Copied, L: Copied> Copied for FenceCommand<C, L> {
    fn copy(&self, alloc: Global) -> Result<Self, AllocError> {
        match self {
            FenceCommand::Inner(command) => Ok(FenceCommand::Inner(command.copy(alloc)?)),
            FenceCommand::Opened(id) => Ok(FenceCommand::Opened(*id)),
            FenceCommand::Shut(id) => Ok(FenceCommand::Shut(*id)),
            FenceCommand::Heard(id, number, at, line) => Ok(FenceCommand::Heard(
                *id,
                *number,
                *at,
                line.copy(alloc)?,
            )),
        }
    }
}

/// A kind byte, 0 for a command below, 1 for opened, 2 for shut, 3 for a line; then the session and, for a line, its
/// number, its moment and the line itself.
impl<C: Wire, L: Wire> Wire for FenceCommand<C, L> {
    ghost spelled = { spelled_command C.spelled L.spelled };

    ghost fits = { FitsCommand C.fits L.fits };

    ghost taken = { command_taken C.taken L.taken };

    ghost wants = { command_wants C.wants L.wants };

    fn put(&self, out: &mut Vec<u8>) -> Result<(), AllocError> {
        let len = out.len();
        match self {
            FenceCommand::Inner(command) => {
                out.push(0)?;
                let outcome = command.put(out);
                undo(out, len, outcome)
            }
            FenceCommand::Opened(id) => {
                out.push(1)?;
                let outcome = id.put(out);
                undo(out, len, outcome)
            }
            FenceCommand::Shut(id) => {
                out.push(2)?;
                let outcome = id.put(out);
                undo(out, len, outcome)
            }
            FenceCommand::Heard(id, number, at, line) => {
                out.push(3)?;
                let outcome = put_heard(out, *id, *number, *at, line);
                undo(out, len, outcome)
            }
        }
    }

    fn take(alloc: Global, input: &[u8]) -> Result<(Self, usize), WireFault> {
        match input {
            [] => Err(WireFault::Short),
            [0, ..] => take_inner(alloc, input),
            [1, ..] => take_opened(alloc, input),
            [2, ..] => take_shut(alloc, input),
            [3, ..] => take_heard(alloc, input),
            _ => Err(WireFault::Bad(0)),
        }
    }

    ghost is_codec = { command_is_codec C.spelled C.fits C.taken L.spelled L.fits L.taken
        C.is_codec L.is_codec };
}

/// Appends the fields of a session's line, after its kind byte, or leaves the items as they were.
fn put_heard<L: Wire>(
    out: &mut Vec<u8>,
    id: SessionId,
    number: Number,
    at: Moment,
    line: &L,
) -> Result<(), AllocError>
    requires { L.fits line.now }
    ensures items { out.new.items
        ≡ appended result out.old.items (spelled_heard L.spelled id number at line.now) }
    ensures full { OnErr result (LacksRoom out.old (length
        (spelled_heard L.spelled id number at line.now))) }
    ensures capacity { vec_capacity out.old ≤ vec_capacity out.new }
{
    let len = out.len();
    ((id, number), at).put(out)?;
    let outcome = line.put(out);
    undo(out, len, outcome)
}

/// The command below, after a kind byte.
#[tactic(auto, using(wire_bytes::proofs::Steps::composed))]
fn take_inner<C: Wire, L: Wire>(
    alloc: Global,
    input: &[u8],
) -> Result<(FenceCommand<C, L>, usize), WireFault>
    requires { 1 ≤ length input.now }
    ensures ok { Reads result (behind 1 (inner_taken {L = L} C.taken)) input.now }
    ensures err { Refuses result (behind 1 (inner_taken {L = L} C.taken)) input.now }
    ensures memory { WantsWhere result (C.wants (drop 1 input.now)) }
{
    let (command, end) = take_behind::<C>(alloc, input, 1)?;
    Ok((FenceCommand::Inner(command), end))
}

/// The opening of a session, after a kind byte.
#[tactic(auto, using(wire_bytes::proofs::Steps::composed))]
fn take_opened<C: Drop, L: Drop>(
    alloc: Global,
    input: &[u8],
) -> Result<(FenceCommand<C, L>, usize), WireFault>
    requires { 1 ≤ length input.now }
    ensures ok { Reads result (behind 1 (opened_taken {C = C} {L = L})) input.now }
    ensures err { Refuses result (behind 1 (opened_taken {C = C} {L = L})) input.now }
    ensures memory { IfErr result (λ e. e ≢ WireFault.Memory) }
{
    let (id, end) = take_behind::<SessionId>(alloc, input, 1)?;
    Ok((FenceCommand::Opened(id), end))
}

/// The shutting of a session, after a kind byte.
#[tactic(auto, using(wire_bytes::proofs::Steps::composed))]
fn take_shut<C: Drop, L: Drop>(
    alloc: Global,
    input: &[u8],
) -> Result<(FenceCommand<C, L>, usize), WireFault>
    requires { 1 ≤ length input.now }
    ensures ok { Reads result (behind 1 (shut_taken {C = C} {L = L})) input.now }
    ensures err { Refuses result (behind 1 (shut_taken {C = C} {L = L})) input.now }
    ensures memory { IfErr result (λ e. e ≢ WireFault.Memory) }
{
    let (id, end) = take_behind::<SessionId>(alloc, input, 1)?;
    Ok((FenceCommand::Shut(id), end))
}

/// The line of a session, after a kind byte.
#[tactic(auto, using(wire_bytes::proofs::Steps::composed))]
fn take_heard<C: Drop, L: Wire>(
    alloc: Global,
    input: &[u8],
) -> Result<(FenceCommand<C, L>, usize), WireFault>
    requires { 1 ≤ length input.now }
    ensures ok { Reads result (behind 1 (heard_taken {C = C} L.taken)) input.now }
    ensures err { Refuses result (behind 1 (heard_taken {C = C} L.taken)) input.now }
    ensures memory { WantsWhere result (heard_wants L.wants (drop 1 input.now)) }
{
    let ((((id, number), at), line), end) = take_behind::<(((SessionId, Number), Moment), L)>(
        alloc, input, 1,
    )?;
    Ok((FenceCommand::Heard(id, number, at, line), end))
}
