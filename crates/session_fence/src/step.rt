//! What a command does to the machine below and to what is kept about the sessions.
ghost use Rattle.std.specs.Prelude.{◌≡◌, ◌∷◌, [], map, IfOk, IfErr, OnOk, false};
ghost use Rattle.machine_laws.specs.Runs.{Brings, Moves, effects_at};
ghost use Rattle.session_fence.specs.Sessions.{for_session};
ghost use Rattle.session_fence.specs.States.{brought_by, given_by, next_of};

use crate::command::FenceCommand;
use crate::effect::FenceEffect;
use crate::session::Session;
use machine_laws::{ApplyFault, HasLines};
use std::alloc::{AllocError, Global};
use wire_bytes::{Moment, Number, SessionId};

/// The effects of the machine below as they are.
fn passed_on<E: Drop>(alloc: Global, effects: Vec<E>) -> Result<Vec<FenceEffect<E>>, AllocError>
    ensures { IfOk result (λ v. v.items ≡ map FenceEffect.Inner effects.items) }
{
    effects.into_iter().map(FenceEffect::Inner).collect(alloc)
}

/// An effect of the machine below; where it joins a channel again, as one of this session.
fn for_session<M: HasLines>(id: SessionId, effect: M::Effect) -> FenceEffect<M::Effect>
    ensures { result ≡ for_session id effect (M.rejoined effect) }
{
    match M::rejoined(effect) {
        Ok(line) => FenceEffect::Rejoin(id, line),
        Err(effect) => FenceEffect::Inner(effect),
    }
}

/// The effects of the machine below; those that join a channel again are this session's.
fn all_for_session<M: HasLines>(
    alloc: Global,
    id: SessionId,
    effects: Vec<M::Effect>,
) -> Result<Vec<FenceEffect<M::Effect>>, AllocError>
    ensures { IfOk result (λ v. v.items
        ≡ map (λ e. for_session id e (M.rejoined e)) effects.items) }
{
    effects
        .into_iter()
        .map(|effect| for_session::<M>(id, effect))
        .collect(alloc)
}

/// The commands for the machine below when a new session replaces one.
fn go_down_and_up<M: HasLines>(machine: &mut M, place: u64) -> Result<Vec<M::Effect>, ApplyFault>
    requires { M.spoilt machine.old ≡ false }
    ensures stands { Moves (M.stands machine.old) (M.stands machine.new) result place (M.down ∷ M.up
        ∷ []) }
    ensures effects { Brings (M.stands machine.old) result (λ v. v.items) (λ s below. effects_at
        (M.effects s) place (M.down
        ∷ M.up ∷ []) below) }
    ensures fault { IfErr result (λ e. e ≡ ApplyFault.Memory) }
    ensures whole { OnOk result (M.spoilt machine.new ≡ false) }
{
    let (down, up) = (M::down(), M::up());
    let mut effects = machine.apply(place, &down)?;
    let mut of_up = machine.apply(place, &up)?;
    effects.append(&mut of_up)?;
    Ok(effects)
}

/// Opens a session: it is up, after the one before it is down. An id that is not above all earlier ones changes
/// nothing.
fn open<M: HasLines>(
    alloc: Global,
    machine: &mut M,
    session: &mut Session,
    place: u64,
    id: SessionId,
) -> Result<Vec<FenceEffect<M::Effect>>, ApplyFault>
    requires { M.spoilt machine.old ≡ false }
    ensures session { OnOk result (session.new
        ≡ next_of {C = M.Command} {L = M.Line} session.old (FenceCommand.Opened id)) }
    ensures stands { Moves (M.stands machine.old) (M.stands machine.new) result place
        (given_by M.up M.down M.heard session.old (FenceCommand.Opened id)) }
    ensures effects { Brings (M.stands machine.old) result (λ v. v.items)
        (brought_by M.up M.down M.heard M.rejoined M.effects session.old place
        (FenceCommand.Opened id)) }
    ensures fault { IfErr result (λ e. e ≡ ApplyFault.Memory) }
    ensures whole { OnOk result (M.spoilt machine.new ≡ false) }
{
    if !session.is_new(id) {
        return Ok(Vec::new(alloc));
    }
    // only its own leader shuts a session, so that of an earlier leader may still be in force
    let effects = if session.now().is_some() {
        go_down_and_up(machine, place)?
    } else {
        let up = M::up();
        machine.apply(place, &up)?
    };
    *session = Session::InForce(id, Number::new(0));
    Ok(all_for_session::<M>(alloc, id, effects)?)
}

/// Shuts the session in force: it is down. Any other changes nothing.
fn shut<M: HasLines>(
    alloc: Global,
    machine: &mut M,
    session: &mut Session,
    place: u64,
    id: SessionId,
) -> Result<Vec<FenceEffect<M::Effect>>, ApplyFault>
    requires { M.spoilt machine.old ≡ false }
    ensures session { OnOk result (session.new
        ≡ next_of {C = M.Command} {L = M.Line} session.old (FenceCommand.Shut id)) }
    ensures stands { Moves (M.stands machine.old) (M.stands machine.new) result place
        (given_by M.up M.down M.heard session.old (FenceCommand.Shut id)) }
    ensures effects { Brings (M.stands machine.old) result (λ v. v.items)
        (brought_by M.up M.down M.heard M.rejoined M.effects session.old place
        (FenceCommand.Shut id)) }
    ensures fault { IfErr result (λ e. e ≡ ApplyFault.Memory) }
    ensures whole { OnOk result (M.spoilt machine.new ≡ false) }
{
    if !session.is_now(id) {
        return Ok(Vec::new(alloc));
    }
    let down = M::down();
    let effects = machine.apply(place, &down)?;
    *session = Session::Over(id);
    Ok(passed_on(alloc, effects)?)
}

/// Passes the line of a session to the machine below where it is the next of the session in force.
fn hear<M: HasLines>(
    alloc: Global,
    machine: &mut M,
    session: &mut Session,
    place: u64,
    id: SessionId,
    number: Number,
    at: Moment,
    line: &M::Line,
) -> Result<Vec<FenceEffect<M::Effect>>, ApplyFault>
    requires { M.spoilt machine.old ≡ false }
    ensures session { OnOk result (session.new
        ≡ next_of {C = M.Command} session.old (FenceCommand.Heard id number at line.now)) }
    ensures stands { Moves (M.stands machine.old) (M.stands machine.new) result place
        (given_by M.up M.down M.heard session.old (FenceCommand.Heard id number at line.now)) }
    ensures effects { Brings (M.stands machine.old) result (λ v. v.items)
        (brought_by M.up M.down M.heard M.rejoined M.effects session.old place
        (FenceCommand.Heard id number at line.now)) }
    ensures fault { IfErr result (λ e. e ≡ ApplyFault.Memory) }
    ensures whole { OnOk result (M.spoilt machine.new ≡ false) }
{
    if !session.is_next(id, number) {
        return Ok(Vec::new(alloc));
    }
    let command = M::heard(alloc, at, line)?;
    let effects = machine.apply(place, &command)?;
    *session = Session::InForce(id, number);
    Ok(passed_on(alloc, effects)?)
}

/// Applies a command to the machine below and to what is kept about the sessions.
pub fn step<M: HasLines>(
    alloc: Global,
    machine: &mut M,
    session: &mut Session,
    place: u64,
    command: &FenceCommand<M::Command, M::Line>,
) -> Result<Vec<FenceEffect<M::Effect>>, ApplyFault>
    requires { M.spoilt machine.old ≡ false }
    ensures session { OnOk result (session.new ≡ next_of session.old command.now) }
    ensures stands { Moves (M.stands machine.old) (M.stands machine.new) result place
        (given_by M.up M.down M.heard session.old command.now) }
    ensures effects { Brings (M.stands machine.old) result (λ v. v.items)
        (brought_by M.up M.down M.heard M.rejoined M.effects session.old place command.now) }
    ensures fault { IfErr result (λ e. e ≡ ApplyFault.Memory) }
    ensures whole { OnOk result (M.spoilt machine.new ≡ false) }
{
    match command {
        FenceCommand::Inner(command) => {
            let effects = machine.apply(place, command)?;
            Ok(passed_on(alloc, effects)?)
        }
        FenceCommand::Opened(id) => open(alloc, machine, session, place, *id),
        FenceCommand::Shut(id) => shut(alloc, machine, session, place, *id),
        FenceCommand::Heard(id, number, at, line) => {
            hear(alloc, machine, session, place, *id, *number, *at, line)
        }
    }
}
