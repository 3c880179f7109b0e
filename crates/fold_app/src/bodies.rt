//! The bodies of lines, and the text of their answers.
ghost use Rattle.std.specs.Prelude.{◌≡◌, ◌≢◌, ◌∷◌, ◌⊎◌, IfOk, IfErr, OnOk, Ok, Err, false};
ghost use Rattle.machine_laws.specs.Runs.{History};
ghost use Rattle.fold_app.specs.Fold.{Request, body_of, judged_line, printed};
ghost use Rattle.fold_app.specs.Faults.{IsOfALine};

use crate::fault::FoldFault;
use crate::lines::decode_line;
use buffer_commands::{Action, Command, Effect};
use machine_laws::Machine;
use recorder::push_answers;
use request_once::{Answer, Body};
use std::alloc::{AllocError, Global};
use wire_bytes::{Wire, WireFault};

/// The body that bytes encode, with nothing before or after it.
#[tactic(auto, unfolding(crate::specs::Fold::body_of))]
fn read_body(alloc: Global, bytes: &[u8]) -> Result<Option<Body<Command, Action>>, AllocError>
    ensures { IfOk result (λ body. body ≡ body_of bytes.now) }
{
    match Body::<Command, Action>::take(alloc, bytes) {
        Ok((body, len)) => Ok(if len == bytes.len() { Some(body) } else { None }),
        Err(WireFault::Memory) => Err(AllocError),
        Err(WireFault::Short) => Ok(None),
        Err(WireFault::Bad(_)) => Ok(None),
    }
}

/// The body of a line, which has this number. Its bytes replace those in the buffer.
#[tactic(auto, unfolding(crate::specs::Fold::judged_line))]
fn read_line(
    bytes: &mut Vec<u8>,
    number: u64,
    line: &[u8],
) -> Result<Body<Command, Action>, FoldFault>
    ensures ok { IfOk result (λ body. judged_line number line.now ≡ Ok body) }
    ensures err { IfErr result (λ e. e ≢ FoldFault.Memory → judged_line number line.now ≡ Err e) }
    ensures fault { IfErr result (λ e. (e ≡ FoldFault.Memory) ⊎ IsOfALine e) }
{
    if !decode_line(bytes, line)? {
        return Err(FoldFault::BadHex(number));
    }
    match read_body(*bytes.allocator(), bytes)? {
        Some(body) => Ok(body),
        None => Err(FoldFault::BadBody(number)),
    }
}

/// Applies a body at a place, and appends the text of its answers.
fn fold_body<M>(
    machine: &mut M,
    output: &mut Vec<u8>,
    place: u64,
    body: &Body<Command, Action>,
) -> Result<(), FoldFault>
where
    M: Machine<Command = Body<Command, Action>, Effect = Answer<Effect>>,
    requires { M.spoilt machine.old ≡ false }
    ensures applied { OnOk result ((s : M.Setup) (earlier : History Request)
        → M.stands machine.old s earlier → output.old.items ≡ printed (M.effects s) earlier
        → M.stands machine.new s ((place, body.now) ∷ earlier)
        × (output.new.items ≡ printed (M.effects s) ((place, body.now) ∷ earlier))) }
    ensures fault { IfErr result (λ e. e ≡ FoldFault.Memory) }
    ensures whole { OnOk result (M.spoilt machine.new ≡ false) }
{
    let answers = machine.apply(place, body).map_err(|_| FoldFault::Memory)?;
    push_answers(output, place, &answers)?;
    Ok(())
}

/// Applies the body of a line at a place, and appends the text of its answers. The line's bytes replace those in the
/// buffer.
pub fn fold_line<M>(
    machine: &mut M,
    output: &mut Vec<u8>,
    bytes: &mut Vec<u8>,
    place: u64,
    line: &[u8],
) -> Result<(), FoldFault>
where
    M: Machine<Command = Body<Command, Action>, Effect = Answer<Effect>>,
    requires { M.spoilt machine.old ≡ false }
    ensures applied { OnOk result ((body : Request) × (judged_line place line.now ≡ Ok body)
        × ((s : M.Setup) (earlier : History Request)
        → M.stands machine.old s earlier → output.old.items ≡ printed (M.effects s) earlier
        → M.stands machine.new s ((place, body) ∷ earlier)
        × (output.new.items ≡ printed (M.effects s) ((place, body) ∷ earlier)))) }
    ensures err { IfErr result (λ e. e ≢ FoldFault.Memory → judged_line place line.now ≡ Err e) }
    ensures fault { IfErr result (λ e. (e ≡ FoldFault.Memory) ⊎ IsOfALine e) }
    ensures whole { OnOk result (M.spoilt machine.new ≡ false) }
{
    let body = read_line(bytes, place, line)?;
    fold_body(machine, output, place, &body)?;
    Ok(())
}
