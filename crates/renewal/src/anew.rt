//! Renewing a list.
ghost use Rattle.std.specs.Prelude.{◌≡◌, ◌≢◌, ◌≤◌, List, length, false, true, IfErr, IfOk, IsTrue, OnOk};
ghost use Rattle.irc_line.specs.Keys.{is_in};
ghost use Rattle.machine_laws.specs.Runs.{History, came_at, run};
ghost use Rattle.buffer_commands.specs.Settings.{Settings};
ghost use Rattle.buffer_machine.specs.Machine.{Stands};
ghost use Rattle.bouncer_tower.specs.Bodies.{TowerBody, plain};
ghost use Rattle.bouncer_tower.specs.Hosting.{of_buffers};
ghost use Rattle.led_lists.specs.Led.{IsLed};
ghost use Rattle.renewal.specs.Lists.{BegunAnew, are_known, most, settled, settling, waiting};

use crate::bound::most_bodies;
use crate::brought::are_brought;
use crate::change::{Change, are_known};
use crate::draft::Start;
use crate::fault::RenewalFault;
use crate::moved::is_moved_machine;
use crate::proposal::propose;
use crate::same::are_same_waiting;
use bouncer_tower::{Layers, TowerBody};
use buffer_commands::Command;
use buffer_machine::BufferMachine;
use irc_line::{Line, Name};
use led_lists::fold_led;
use machine_laws::{ApplyFault, Machine};
use request_once::Body;
use session_fence::FenceCommand;
use std::alloc::{AllocError, Global};
use std::collections::VecDeque;
use upstream_claim::ClaimsCommand;
use wire_bytes::Number;

/// A list of bodies that leads to the same as the layers, moved to another setup, once the runs of these nodes below
/// their floors are gone and no session is in force. The layers are then in that state, or must be thrown away.
/// `UnknownName` if no client has a name that is to be forgotten, `NotTheSame` if no such list is found, `TooLong` if
/// it would have too many bodies: nothing is lost then, since nothing was written.
pub fn begun_anew(
    alloc: Global,
    change: &Change,
    layers: &mut Layers,
    start: &Start,
    floors: &[(u8, Number)],
) -> Result<Vec<TowerBody>, RenewalFault>
    ensures few { (old : History TowerBody)
        → ⟦<Layers as Machine>⟧.stands layers.old change.now.from.now old
        → IfOk result (λ v. length v.items ≤ most change.now.from.now change.now.to.now
        (settled floors.now old) (length floors.now)) }
    ensures anew { (old : History TowerBody)
        → ⟦<Layers as Machine>⟧.stands layers.old change.now.from.now old
        → IfOk result (λ v. BegunAnew change.now.from.now change.now.to.now change.now.forgotten.now
        (λ key. is_in key change.now.joined.now) start.now.term start.now.client
        (settled floors.now old) v.items) }
    ensures known { (old : History TowerBody)
        → ⟦<Layers as Machine>⟧.stands layers.old change.now.from.now old
        → OnOk result (are_known change.now.from.now (settled floors.now old)
        change.now.forgotten.now ≡ true) }
    ensures unknown { (old : History TowerBody)
        → ⟦<Layers as Machine>⟧.stands layers.old change.now.from.now old
        → IfErr result (λ e. e ≡ RenewalFault.UnknownName → are_known change.now.from.now
        (settled floors.now old) change.now.forgotten.now ≡ false) }
    ensures settled { (old : History TowerBody)
        → ⟦<Layers as Machine>⟧.stands layers.old change.now.from.now old
        → OnOk result (⟦<Layers as Machine>⟧.stands layers.new change.now.from.now
        (settled floors.now old)) }
{
    settle(alloc, layers, floors)?;
    if !knows(layers, change.forgotten) {
        return Err(RenewalFault::UnknownName);
    }
    let bodies = moved_list(alloc, change, layers, start, floors)?;
    let most = room(change, layers, floors);
    if bodies.len() > most {
        return Err(RenewalFault::TooLong);
    }
    Ok(bodies)
}

/// Applies that the runs of these nodes below their floors are gone, and that no session is in force.
fn settle(alloc: Global, layers: &mut Layers, floors: &[(u8, Number)]) -> Result<(), AllocError>
    ensures { (s : Settings) (old : History TowerBody)
        → ⟦<Layers as Machine>⟧.stands layers.old s old
        → OnOk result (⟦<Layers as Machine>⟧.stands layers.new s (settled floors.now old)) }
{
    let bodies = settling(alloc, floors)?;
    match come_as(layers, &bodies) {
        Ok(()) => Ok(()),
        Err(_) => Err(AllocError),
    }
}

/// Whether all names that are to be forgotten are those of clients.
fn knows(layers: &Layers, forgotten: &[Name]) -> bool
    ensures { (s : Settings) (h : History TowerBody)
        → ⟦<Layers as Machine>⟧.stands layers.now s h → result ≡ are_known s h forgotten.now }
{
    are_known(forgotten, buffers_of(layers).ids())
}

/// How many bodies may renew what the layers hold.
fn room(change: &Change, layers: &Layers, floors: &[(u8, Number)]) -> usize
    ensures { (old : History TowerBody)
        → ⟦<Layers as Machine>⟧.stands layers.now change.now.from.now old
        → result ≤ most change.now.from.now change.now.to.now old (length floors.now) }
{
    let others = change
        .to
        .channels()
        .len()
        .saturating_add(waiting_of(layers).len())
        .saturating_add(floors.len());
    most_bodies(buffers_of(layers), others)
}

/// A list of bodies that leads to the same as the layers, moved to another setup.
fn moved_list(
    alloc: Global,
    change: &Change,
    layers: &Layers,
    start: &Start,
    floors: &[(u8, Number)],
) -> Result<Vec<TowerBody>, RenewalFault>
    ensures anew { (old : History TowerBody)
        → ⟦<Layers as Machine>⟧.stands layers.now change.now.from.now old
        → IfOk result (λ v. BegunAnew change.now.from.now change.now.to.now change.now.forgotten.now
        (λ key. is_in key change.now.joined.now) start.now.term start.now.client old v.items) }
    ensures fault { IfErr result (λ e. e ≢ RenewalFault.UnknownName) }
{
    let (buffers, waiting) = (buffers_of(layers), waiting_of(layers));
    let bodies = propose(alloc, change, buffers, waiting, start, floors)?;
    let Some(anew) = fold_led(alloc, change.to, &bodies, start.term, start.client)? else {
        return Err(RenewalFault::NotTheSame);
    };
    if is_begun_anew(alloc, change, layers, &anew, &bodies, start)? {
        Ok(bodies)
    } else {
        Err(RenewalFault::NotTheSame)
    }
}

/// Applies the commands one after the other. Their effects are dropped, so that their place does not matter.
fn come<M: Machine>(machine: &mut M, commands: &[M::Command]) -> Result<(), ApplyFault>
    ensures { (s : M.Setup) (h : History M.Command) → M.stands machine.old s h
        → OnOk result (M.stands machine.new s (came_at 0 commands.now h)) }
{
    match commands {
        [] => Ok(()),
        [command, commands @ ..] => {
            machine.apply(0, command)?;
            come(machine, commands)
        }
    }
}

/// Applies these commands, given in another form.
fn come_as<M: Machine>(machine: &mut M, commands: &[M::Command]) -> Result<(), ApplyFault>
    ensures { (s : M.Setup) (h : History M.Command) (xs : List M.Command) → commands.now ≡ xs
        → M.stands machine.old s h → OnOk result (M.stands machine.new s (came_at 0 xs h)) }
{
    come(machine, commands)
}

/// The bodies that say that the runs of these nodes below their floors are gone, and that no session is in force.
fn settling(alloc: Global, floors: &[(u8, Number)]) -> Result<Vec<TowerBody>, AllocError>
    ensures { IfOk result (λ v. v.items ≡ settling floors.now) }
{
    let mut bodies = Vec::new(alloc);
    for (node, floor) in floors {
        bodies.push(of_buffers(Command::NodeGone(*node, *floor)))?;
    }
    bodies.push(of_buffers(Command::Down))?;
    Ok(bodies)
}

/// A command of the buffers as a body.
fn of_buffers(command: Command) -> TowerBody
    ensures { result ≡ of_buffers command }
{
    Body::Inner(ClaimsCommand::Inner(FenceCommand::Inner(command)))
}

/// The buffers below the layers.
pub fn buffers_of(layers: &Layers) -> &BufferMachine
    ensures { (s : Settings) (h : History TowerBody)
        → ⟦<Layers as Machine>⟧.stands layers.now s h → Stands result.now s (plain h) }
{
    let claims = layers.machine();
    let fence = claims.machine();
    fence.machine()
}

/// The lines that wait to go upstream.
fn waiting_of(layers: &Layers) -> &VecDeque<Line>
    ensures { (s : Settings) (h : History TowerBody)
        → ⟦<Layers as Machine>⟧.stands layers.now s h → result.now.items ≡ waiting s h }
{
    layers.machine().waiting()
}

/// Whether these bodies, which are all that came to the new layers and which one leader brings, renew what the old
/// layers hold.
fn is_begun_anew(
    alloc: Global,
    change: &Change,
    old: &Layers,
    new: &Layers,
    bodies: &[TowerBody],
    start: &Start,
) -> Result<bool, AllocError>
    ensures { (before : History TowerBody)
        → ⟦<Layers as Machine>⟧.stands old.now change.now.from.now before
        → ⟦<Layers as Machine>⟧.stands new.now change.now.to.now (run bodies.now)
        → IsLed change.now.to.now start.now.term start.now.client bodies.now
        → IfOk result (λ begun. IsTrue begun → BegunAnew change.now.from.now change.now.to.now
        change.now.forgotten.now (λ key. is_in key change.now.joined.now)
        start.now.term start.now.client before bodies.now) }
{
    if !are_brought(bodies, start) {
        return Ok(false);
    }
    if !wait_same(old, new) {
        return Ok(false);
    }
    is_moved_machine(alloc, buffers_of(old), buffers_of(new), change)
}

/// Whether the same lines wait to go upstream.
fn wait_same(old: &Layers, new: &Layers) -> bool
    ensures { (s t : Settings) (before after : History TowerBody)
        → ⟦<Layers as Machine>⟧.stands old.now s before
        → ⟦<Layers as Machine>⟧.stands new.now t after
        → IsTrue result → waiting t after ≡ waiting s before }
{
    are_same_waiting(waiting_of(old), waiting_of(new))
}
