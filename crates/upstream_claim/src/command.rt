//! What comes to a machine whose lines for upstream are claimed.
ghost use Rattle.std.specs.Prelude.{◌≡◌, ◌≢◌, ◌≤◌, drop, length, IfOk, IfErr, IsTrue, Ok, Err};
ghost use Rattle.wire_bytes.specs.Fields.{behind};
ghost use Rattle.upstream_claim.specs.Spelling.{FitsCommand, claim_taken, command_taken, command_wants, inner_taken, spelled_command};
ghost use Rattle.upstream_claim.specs.CommandCodec.{command_is_codec};
ghost use Rattle.wire_bytes.specs.Reads.{Reads, Refuses, WantsWhere};

use std::alloc::{AllocError, Global};
use wire_bytes::{Copied, Number, SessionId, Wire, WireFault, take_behind, undo};

/// A command of the machine below, or the claim of a line.
#[derive(Drop)]
pub enum ClaimsCommand<C> {
    Inner(C),
    /// The session claims the line of this number, to send it upstream.
    Claim(SessionId, Number),
}

impl<C: Copied> Copied for ClaimsCommand<C> {
    fn copy(&self, alloc: Global) -> Result<Self, AllocError> {
        match self {
            ClaimsCommand::Inner(command) => Ok(ClaimsCommand::Inner(command.copy(alloc)?)),
            ClaimsCommand::Claim(id, number) => Ok(ClaimsCommand::Claim(*id, *number)),
        }
    }
}

/// A kind byte, 0 for a command below and 1 for a claim; a claim is spelled session, number.
impl<C: Wire> Wire for ClaimsCommand<C> {
    ghost spelled = { spelled_command C.spelled };

    ghost fits = { FitsCommand C.fits };

    ghost taken = { command_taken C.taken };

    ghost wants = { command_wants C.wants };

    fn put(&self, out: &mut Vec<u8>) -> Result<(), AllocError> {
        let len = out.len();
        match self {
            ClaimsCommand::Inner(command) => {
                out.push(0)?;
                let outcome = command.put(out);
                undo(out, len, outcome)
            }
            ClaimsCommand::Claim(id, number) => {
                out.push(1)?;
                let outcome = (*id, *number).put(out);
                undo(out, len, outcome)
            }
        }
    }

    fn take(alloc: Global, input: &[u8]) -> Result<(Self, usize), WireFault> {
        match input {
            [] => Err(WireFault::Short),
            [0, ..] => take_inner(alloc, input),
            [1, ..] => take_claim(alloc, input),
            _ => Err(WireFault::Bad(0)),
        }
    }

    ghost is_codec = { command_is_codec C.spelled C.fits C.taken C.is_codec };
}

/// The command below, after a kind byte.
#[tactic(auto, using(wire_bytes::proofs::Steps::composed))]
fn take_inner<C: Wire>(alloc: Global, input: &[u8]) -> Result<(ClaimsCommand<C>, usize), WireFault>
    requires { 1 ≤ length input.now }
    ensures ok { Reads result (behind 1 (inner_taken C.taken)) input.now }
    ensures err { Refuses result (behind 1 (inner_taken C.taken)) input.now }
    ensures memory { WantsWhere result (C.wants (drop 1 input.now)) }
{
    let (command, end) = take_behind::<C>(alloc, input, 1)?;
    Ok((ClaimsCommand::Inner(command), end))
}

/// The claim after a kind byte.
#[tactic(auto, using(wire_bytes::proofs::Steps::composed))]
fn take_claim<C: Drop>(alloc: Global, input: &[u8]) -> Result<(ClaimsCommand<C>, usize), WireFault>
    requires { 1 ≤ length input.now }
    ensures ok { Reads result (behind 1 (claim_taken {C = C})) input.now }
    ensures err { Refuses result (behind 1 (claim_taken {C = C})) input.now }
    ensures memory { IfErr result (λ e. e ≢ WireFault.Memory) }
{
    let ((id, number), end) = take_behind::<(SessionId, Number)>(alloc, input, 1)?;
    Ok((ClaimsCommand::Claim(id, number), end))
}
