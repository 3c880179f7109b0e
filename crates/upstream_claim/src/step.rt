//! What a command does to the machine below and to the lines that wait to be claimed.
ghost use Rattle.std.specs.Prelude.{◌≡◌, ◌+◌, ◌++◌, ◌∷◌, [], ℕ, List, length, take, IfOk, IfErr, OnOk, false};
ghost use Rattle.machine_laws.specs.Runs.{History};
ghost use Rattle.upstream_claim.specs.Numbered.{Numbered, answer, answered, answers_by, line_of, lines_of, numbered_after, with_command};
ghost use Rattle.upstream_claim.specs.States.{IsKept, claimed_next, handed_next, space};

use crate::command::ClaimsCommand;
use crate::effect::ClaimsEffect;
use crate::unclaimed::Unclaimed;
use machine_laws::{ApplyFault, HasSession, single};
use std::alloc::{AllocError, Global};
use wire_bytes::{Number, SessionId};

/// Numbers the line that an effect sends, while there is room for it; any other effect is passed
/// on.
fn answer_one<M: HasSession>(
    unclaimed: &mut Unclaimed,
    answers: &mut Vec<ClaimsEffect<M::Effect>>,
    effect: M::Effect,
) -> Result<(), AllocError>
    ensures answers { OnOk result (answers.new.items
        ≡ answers.old.items ++ answer (space unclaimed.old.lines.items) effect (M.sends effect)) }
    ensures lines { OnOk result (unclaimed.new.lines.items
        ≡ unclaimed.old.lines.items ++ take (space unclaimed.old.lines.items) (line_of
        (M.sends effect))) }
    ensures count { unclaimed.new.count ≡ unclaimed.old.count }
{
    match M::sends(effect) {
        Ok((origin, line)) => {
            if unclaimed.is_full() {
                answers.push(ClaimsEffect::Busy(origin))?;
            } else {
                unclaimed.keep(line)?;
            }
        }
        Err(effect) => answers.push(ClaimsEffect::Inner(effect))?,
    }
    Ok(())
}

/// Numbers the lines that effects send, as far as there is room for them.
fn answer_all<M: HasSession>(
    alloc: Global,
    unclaimed: &mut Unclaimed,
    effects: Vec<M::Effect>,
) -> Result<Vec<ClaimsEffect<M::Effect>>, AllocError>
    ensures answers { IfOk result (λ v. v.items
        ≡ answered M.sends (space unclaimed.old.lines.items) effects.items) }
    ensures lines { OnOk result (unclaimed.new.lines.items
        ≡ unclaimed.old.lines.items ++ take (space unclaimed.old.lines.items)
        (lines_of M.sends effects.items)) }
    ensures count { unclaimed.new.count ≡ unclaimed.old.count }
{
    let mut answers = Vec::with_capacity(alloc, effects.len())?;
    for effect in effects {
        answer_one::<M>(unclaimed, &mut answers, effect)?;
    }
    Ok(answers)
}

/// The line of a number, handed out by a session, if it is the next to be claimed.
fn hand<E: Drop>(
    alloc: Global,
    unclaimed: &mut Unclaimed,
    id: SessionId,
    number: Number,
) -> Result<Vec<ClaimsEffect<E>>, AllocError>
    ensures answers { (q : Numbered) → IsKept unclaimed.old.count unclaimed.old.lines.items q
        → IfOk result (λ v. v.items ≡ handed_next q id number) }
    ensures kept { (q : Numbered) → IsKept unclaimed.old.count unclaimed.old.lines.items q
        → IsKept unclaimed.new.count unclaimed.new.lines.items (claimed_next q id number) }
{
    match unclaimed.claim(number) {
        Some(line) => single(alloc, ClaimsEffect::Hand(id, number.value(), line)),
        None => Ok(Vec::new(alloc)),
    }
}

/// Applies a command to the machine below and to the lines that wait to be claimed.
pub fn step<M: HasSession>(
    alloc: Global,
    machine: &mut M,
    unclaimed: &mut Unclaimed,
    place: u64,
    command: &ClaimsCommand<M::Command>,
) -> Result<Vec<ClaimsEffect<M::Effect>>, ApplyFault>
    requires { M.spoilt machine.old ≡ false }
    ensures stands { (s : M.Setup) (below : History M.Command) → M.stands machine.old s below
        → OnOk result (M.stands machine.new s (with_command place command.now below)) }
    ensures effects { (s : M.Setup) (below : History M.Command) (q : Numbered)
        → M.stands machine.old s below
        → IsKept unclaimed.old.count unclaimed.old.lines.items q
        → IfOk result (λ v. v.items
        ≡ answers_by M.session M.sends (M.effects s) q below place command.now) }
    ensures kept { (s : M.Setup) (below : History M.Command) (q : Numbered)
        → M.stands machine.old s below
        → IsKept unclaimed.old.count unclaimed.old.lines.items q
        → OnOk result (IsKept unclaimed.new.count unclaimed.new.lines.items
        (numbered_after M.session M.sends (M.effects s) q below place command.now)) }
    ensures fault { IfErr result (λ e. e ≡ ApplyFault.Memory) }
    ensures whole { OnOk result (M.spoilt machine.new ≡ false) }
{
    match command {
        ClaimsCommand::Inner(command) => {
            let effects = machine.apply(place, command)?;
            Ok(answer_all::<M>(alloc, unclaimed, effects)?)
        }
        ClaimsCommand::Claim(id, number) => {
            if machine.session() == Some(*id) {
                Ok(hand(alloc, unclaimed, *id, *number)?)
            } else {
                Ok(Vec::new(alloc))
            }
        }
    }
}
