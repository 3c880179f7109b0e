//! The layers after a list that one leader brings.
ghost use Rattle.std.specs.Prelude.{◌≡◌, ◌∷◌, [], is_some, IfOk, IfSome, IsTrue};
ghost use Rattle.machine_laws.specs.Runs.{came, run};
ghost use Rattle.led_lists.specs.Led.{are_led, is_led, is_led_by, new_leader};

use crate::claiming::Claiming;
use crate::leading::Leading;
use crate::may_bring::{Whose, brought, is_blank};
use bouncer_tower::{Layers, TowerBody};
use buffer_commands::Setup;
use machine_laws::{ApplyFault, Machine};
use std::alloc::{AllocError, Global};
use wire_bytes::{Number, Origin};

/// The layers to which only these bodies came, if they are a list that the leader of this term brings for this client;
/// else nothing.
pub fn fold_led(
    alloc: Global,
    setup: &Setup,
    bodies: &[TowerBody],
    term: Number,
    client: Origin,
) -> Result<Option<Layers>, AllocError>
    ensures led { IfOk result
        (λ l. is_some l ≡ is_led setup.now term client bodies.now) }
    ensures stands { IfOk result (λ l. IfSome l
        (λ l. ⟦<Layers as Machine>⟧.stands l setup.now (run bodies.now))) }
{
    let Ok(mut layers) = Layers::start(alloc, setup) else {
        return Err(AllocError);
    };
    match all_led(&mut layers, bodies, &Whose { term, client }) {
        Ok(true) => Ok(Some(layers)),
        Ok(false) => Ok(None),
        Err(_) => Err(AllocError),
    }
}

/// Whether one leader brings these bodies. If so, all of them have come to the machine, whose history was empty.
fn all_led<M: Machine<Command = TowerBody> + Claiming>(
    machine: &mut M,
    bodies: &[TowerBody],
    whose: &Whose,
) -> Result<bool, ApplyFault>
    ensures led { (s : M.Setup) → M.stands machine.old s []
        → IfOk result (λ led. led ≡ is_led_by (M.next_claim s) whose.now.term whose.now.client
        bodies.now) }
    ensures stands { (s : M.Setup) → M.stands machine.old s []
        → IfOk result (λ led. IsTrue led → M.stands machine.new s (run bodies.now)) }
{
    match bodies {
        [first, later @ ..] if is_blank(first) => led_behind(machine, first, later, whose),
        _ => Ok(false),
    }
}

/// Whether the leader may bring these bodies after its first one, which comes to a machine with an empty history. If
/// so, all of them have come to it.
fn led_behind<M: Machine<Command = TowerBody> + Claiming>(
    machine: &mut M,
    first: &TowerBody,
    bodies: &[TowerBody],
    whose: &Whose,
) -> Result<bool, ApplyFault>
    ensures led { (s : M.Setup) → M.stands machine.old s []
        → IfOk result (λ led. led ≡ are_led (M.next_claim s) whose.now.term whose.now.client
        new_leader 2 ((1, first.now) ∷ []) bodies.now) }
    ensures stands { (s : M.Setup) → M.stands machine.old s []
        → IfOk result (λ led. IsTrue led
        → M.stands machine.new s (came 2 bodies.now ((1, first.now) ∷ []))) }
{
    machine.apply(1, first)?;
    let mut leading = Leading::new();
    let mut place = 1u64;
    for body in bodies {
        let Some(next) = brought(whose, leading, machine.next_claim(), body) else {
            return Ok(false);
        };
        leading = next;
        place += 1;
        machine.apply(place, body)?;
    }
    Ok(true)
}
