//! What a body does to the machine below and to the numbers of the last requests.
ghost use Rattle.std.specs.Prelude.{◌≡◌, unwrap_or, ℕ, List, [], ◌∷◌, map, IfOk, IfErr, OnOk, OnErr, false};
ghost use Rattle.std.specs.BTreeMap.{get};
ghost use Rattle.machine_laws.specs.Runs.{History};
ghost use Rattle.request_once.specs.Fresh.{plain, answers, HasNumbers, IsNoted};

use crate::answer::Answer;
use crate::body::Body;
use machine_laws::{ApplyFault, HasClients, single};
use std::alloc::{AllocError, Global};
use std::collections::BTreeMap;
use wire_bytes::{Moment, Number, Origin};

/// The effects of the machine below, as answers.
fn passed_on<E: Drop>(alloc: Global, effects: Vec<E>) -> Result<Vec<Answer<E>>, AllocError>
    ensures { IfOk result (λ v. v.items ≡ map Answer.Effect effects.items) }
{
    effects.into_iter().map(Answer::Effect).collect(alloc)
}

/// The number of an origin's last request that took effect, 0 without one.
fn last_of(last: &BTreeMap<Origin, u64>, origin: &Origin) -> u64
    ensures { result ≡ unwrap_or (get (⟦<Origin as Ord>⟧.cmp) last.now origin.now) 0 }
{
    match last.get(origin) {
        Some(number) => *number,
        None => 0,
    }
}

/// Sets the number of an origin's last request.
fn note(last: &mut BTreeMap<Origin, u64>, origin: Origin, number: u64) -> Result<(), AllocError>
    ensures { OnOk result (IsNoted (get (⟦<Origin as Ord>⟧.cmp) last.old) (get
        (⟦<Origin as Ord>⟧.cmp) last.new) origin number) }
{
    last.insert(origin, number)?;
    Ok(())
}

/// Applies and notes a request that is the next of its origin; any other changes nothing.
fn ask<M: HasClients>(
    alloc: Global,
    machine: &mut M,
    last: &mut BTreeMap<Origin, u64>,
    place: u64,
    origin: Origin,
    number: Number,
    at: Moment,
    action: &M::Action,
) -> Result<Vec<Answer<M::Effect>>, ApplyFault>
    requires { M.spoilt machine.old ≡ false }
    ensures stands { (s : M.Setup) (earlier : History (Body M.Command M.Action))
        → M.stands machine.old s (plain M.client earlier)
        → HasNumbers (get (⟦<Origin as Ord>⟧.cmp) last.old) earlier
        → OnOk result (M.stands machine.new s (plain M.client
        ((place, Body.Asked origin number at action.now)
        ∷ earlier))
        × HasNumbers (get (⟦<Origin as Ord>⟧.cmp) last.new)
        ((place, Body.Asked origin number at action.now)
        ∷ earlier)) }
    ensures effects { (s : M.Setup) (earlier : History (Body M.Command M.Action))
        → M.stands machine.old s (plain M.client earlier)
        → HasNumbers (get (⟦<Origin as Ord>⟧.cmp) last.old) earlier
        → IfOk result (λ es. es.items
        ≡ answers M.client (M.effects s) earlier place (Body.Asked origin number at action.now)) }
    ensures fault { IfErr result (λ e. e ≡ ApplyFault.Memory) }
    ensures whole { OnOk result (M.spoilt machine.new ≡ false) }
{
    let was = last_of(last, &origin);
    let number = number.value();
    if number <= was {
        return Ok(single(alloc, Answer::Repeat(origin, was))?);
    }
    // a request may be lost and asked again, so a later one must not take effect before it
    if number - was > 1 {
        return Ok(single(alloc, Answer::Gap(origin, was + 1))?);
    }
    let command = M::client(alloc, origin, at, action)?;
    let effects = machine.apply(place, &command)?;
    let mut answers = passed_on(alloc, effects)?;
    answers
        .push(Answer::Done(origin, number))
        .map_err(AllocError::from)?;
    note(last, origin, number)?;
    Ok(answers)
}

/// Applies a body to the machine below and to the numbers of the last requests.
pub fn step<M: HasClients>(
    alloc: Global,
    machine: &mut M,
    last: &mut BTreeMap<Origin, u64>,
    place: u64,
    body: &Body<M::Command, M::Action>,
) -> Result<Vec<Answer<M::Effect>>, ApplyFault>
    requires { M.spoilt machine.old ≡ false }
    ensures stands { (s : M.Setup) (earlier : History (Body M.Command M.Action))
        → M.stands machine.old s (plain M.client earlier)
        → HasNumbers (get (⟦<Origin as Ord>⟧.cmp) last.old) earlier
        → OnOk result (M.stands machine.new s (plain M.client ((place, body.now) ∷ earlier))
        × HasNumbers (get (⟦<Origin as Ord>⟧.cmp) last.new) ((place, body.now) ∷ earlier)) }
    ensures effects { (s : M.Setup) (earlier : History (Body M.Command M.Action))
        → M.stands machine.old s (plain M.client earlier)
        → HasNumbers (get (⟦<Origin as Ord>⟧.cmp) last.old) earlier
        → IfOk result (λ es. es.items ≡ answers M.client (M.effects s) earlier place body.now) }
    ensures fault { IfErr result (λ e. e ≡ ApplyFault.Memory) }
    ensures whole { OnOk result (M.spoilt machine.new ≡ false) }
{
    match body {
        Body::Inner(command) => {
            let effects = machine.apply(place, command)?;
            Ok(passed_on(alloc, effects)?)
        }
        Body::Asked(origin, number, at, action) => {
            ask(alloc, machine, last, place, *origin, *number, *at, action)
        }
        Body::Blank => Ok(Vec::new(alloc)),
        Body::Mark(mark) => Ok(single(alloc, Answer::Marked(*mark))?),
    }
}
