//! The channels that the own nick was in when a session was last in force, noted while a log is applied.
ghost use Rattle.std.specs.Prelude.{◌≡◌, ◌∷◌, ℕ, [], false, map, IfErr, IfOk, OnOk};
ghost use Rattle.machine_laws.specs.Runs.{History, run};
ghost use Rattle.buffer_commands.specs.Settings.{Settings};
ghost use Rattle.buffer_machine.specs.Held.{commands, held};
ghost use Rattle.buffer_machine.specs.Machine.{Stands};
ghost use Rattle.wire_bytes.specs.declared.session_id.SessionId.{SessionId};
ghost use Rattle.bouncer_tower.specs.Bodies.{TowerBody, answers, session};
ghost use Rattle.renewal.specs.Lists.{AreNoted, WereNoted, bodies_of, joined_names, may_end};

use crate::anew::buffers_of;
use crate::fault::RenewalFault;
use bouncer_tower::{Layers, TowerBody, TowerEffect};
use buffer_commands::Setup;
use buffer_targets::Channel;
use irc_line::Name;
use machine_laws::{ApplyFault, HasSession, Machine};
use raft_log::Log;
use request_once::Body;
use session_fence::FenceCommand;
use std::alloc::{AllocError, Global};
use upstream_claim::ClaimsCommand;
use wire_bytes::{Number, SessionId};

/// Layers, and the channels that the own nick was in when a session was last in force: they are noted before each body
/// with which the session may end.
#[derive(Drop)]
struct Noting {
    alloc: Global,
    layers: Layers,
    joined: Vec<Name>,
    spoilt: bool,
}

impl Machine for Noting {
    ghost use Rattle.bouncer_tower.specs.Bodies.{answers};

    type Setup = Setup;

    type Command = TowerBody;

    type Effect = TowerEffect;

    ghost stands = { λ m s h. ⟦<Layers as Machine>⟧.stands m.layers s h
        × WereNoted s h m.joined.items × (m.spoilt ≡ false) };

    ghost effects = { answers };

    ghost spoilt = { λ m. m.spoilt };

    fn start(alloc: Global, setup: &Setup) -> Result<Self, AllocError> {
        Ok(Noting {
            alloc,
            layers: Layers::start(alloc, setup)?,
            joined: Vec::new(alloc),
            spoilt: false,
        })
    }

    fn apply(&mut self, place: u64, body: &TowerBody) -> Result<Vec<TowerEffect>, ApplyFault> {
        if self.spoilt {
            return Err(ApplyFault::Spoilt);
        }
        let result = step(self.alloc, &mut self.layers, &mut self.joined, place, body);
        if result.is_err() {
            self.spoilt = true;
        }
        result
    }

    ghost stands_whole = { λ m s h st. st.2 };
}

/// The layers after the bodies of a log, and the channels that the own nick was in when a session was last in force.
pub fn folded_log(
    alloc: Global,
    setup: &Setup,
    log: &Log<TowerBody>,
) -> Result<(Layers, Vec<Name>), RenewalFault>
    ensures stands { IfOk result (λ f. ⟦<Layers as Machine>⟧.stands f.0 setup.now
        (run (bodies_of log.now))) }
    ensures joined { IfOk result (λ f. AreNoted setup.now (run (bodies_of log.now)) f.1.items) }
    ensures fault { IfErr result (λ e. e ≡ RenewalFault.Memory) }
{
    let mut noting = Noting::start(alloc, setup)?;
    match apply_all(&mut noting, log) {
        Ok(()) => {}
        Err(_) => return Err(RenewalFault::Memory),
    }
    let Noting {
        layers,
        mut joined,
        ..
    } = noting;
    note(alloc, &layers, &mut joined)?;
    Ok((layers, joined))
}

/// Applies the bodies of a log, the first at place 1, to a machine with an empty history. After an error the machine is
/// to be thrown away.
#[tactic(auto, using(crate::proofs::Comes::run_more))]
fn apply_all<M: Machine>(machine: &mut M, log: &Log<M::Command>) -> Result<(), ApplyFault>
    ensures { (s : M.Setup) → M.stands machine.old s []
        → OnOk result (M.stands machine.new s (run (map (λ e. e.body) log.now))) }
{
    for applied in 0..log.len().value() {
        let place = Number::new(applied + 1);
        machine.apply(place.value(), log.body(place).get())?;
    }
    Ok(())
}

/// Applies a body. The joined channels are noted before it.
fn step(
    alloc: Global,
    layers: &mut Layers,
    joined: &mut Vec<Name>,
    place: u64,
    body: &TowerBody,
) -> Result<Vec<TowerEffect>, ApplyFault>
    ensures stands { (s : Settings) (h : History TowerBody)
        → ⟦<Layers as Machine>⟧.stands layers.old s h
        → OnOk result (⟦<Layers as Machine>⟧.stands layers.new s ((place, body.now) ∷ h)) }
    ensures joined { (s : Settings) (h : History TowerBody)
        → ⟦<Layers as Machine>⟧.stands layers.old s h → WereNoted s h joined.old.items
        → OnOk result (WereNoted s ((place, body.now) ∷ h) joined.new.items) }
    ensures effects { (s : Settings) (h : History TowerBody)
        → ⟦<Layers as Machine>⟧.stands layers.old s h
        → IfOk result (λ es. es.items ≡ answers s h place body.now) }
    ensures fault { IfErr result (λ e. e ≡ ApplyFault.Memory) }
{
    note_before(alloc, layers, joined, body)?;
    match layers.apply(place, body) {
        Ok(effects) => Ok(effects),
        Err(_) => Err(ApplyFault::Memory),
    }
}

/// Notes the joined channels where the session may end with a body.
fn note_before(
    alloc: Global,
    layers: &Layers,
    joined: &mut Vec<Name>,
    body: &TowerBody,
) -> Result<(), AllocError>
    ensures { (s : Settings) (h : History TowerBody) (place : ℕ)
        → ⟦<Layers as Machine>⟧.stands layers.now s h → WereNoted s h joined.old.items
        → OnOk result (WereNoted s ((place, body.now) ∷ h) joined.new.items) }
{
    if may_end(body) {
        note(alloc, layers, joined)?;
    }
    Ok(())
}

/// Whether a session may end with a body.
fn may_end(body: &TowerBody) -> bool
    ensures { result ≡ may_end body.now }
{
    matches!(
        body,
        Body::Inner(ClaimsCommand::Inner(FenceCommand::Opened(_) | FenceCommand::Shut(_)))
    )
}

/// Notes the channels that are joined, if a session is in force.
fn note(alloc: Global, layers: &Layers, joined: &mut Vec<Name>) -> Result<(), AllocError>
    ensures { (s : Settings) (h : History TowerBody) → ⟦<Layers as Machine>⟧.stands layers.now s h
        → WereNoted s h joined.old.items → OnOk result (AreNoted s h joined.new.items) }
{
    if session_of(layers).is_some() {
        *joined = joined_channels(alloc, buffers_of(layers).channels())?;
    }
    Ok(())
}

/// The session in force.
fn session_of(layers: &Layers) -> Option<SessionId>
    ensures { (s : Settings) (h : History TowerBody)
        → ⟦<Layers as Machine>⟧.stands layers.now s h → result ≡ session h }
{
    let claims = layers.machine();
    let fence = claims.machine();
    fence.session()
}

/// The names of the channels that are joined.
fn joined_channels(alloc: Global, channels: &[Channel]) -> Result<Vec<Name>, AllocError>
    ensures { IfOk result (λ v. v.items ≡ joined_names channels.now) }
{
    let mut names = Vec::new(alloc);
    for channel in channels {
        if channel.is_joined() {
            names.push(channel.target().name().copy(alloc)?)?;
        }
    }
    Ok(names)
}
