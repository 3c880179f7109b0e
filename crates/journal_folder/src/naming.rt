//! The names of the clients in a log.
ghost use Rattle.std.specs.Prelude.{◌≡◌, [], false, map, IfNone, IfOk, IfSome, IsTrue, OnOk, Contains};
ghost use Rattle.std.specs.List.{list_all};
ghost use Rattle.machine_laws.specs.Runs.{History, run};
ghost use Rattle.buffer_machine.specs.Crowd.{is_id_in};
ghost use Rattle.buffer_machine.specs.Held.{commands, held};
ghost use Rattle.buffer_commands.specs.Settings.{Settings};
ghost use Rattle.bouncer_tower.specs.Bodies.{TowerBody, plain};
ghost use Rattle.journal_folder.specs.Naming.{AreNamesOf, names_in};

use crate::counting::most_up_to_date;
use bouncer_tower::{Layers, TowerBody};
use buffer_commands::Setup;
use irc_line::{Name, is_same};
use machine_laws::{ApplyFault, Machine};
use raft_log::Log;
use stable_store::Saved;
use std::alloc::{AllocError, Global};
use wire_bytes::{Copied, Number, copied_all};

/// The names that clients gave when they attached, in the order in which they first came, under the setup of the log.
pub fn names_in(alloc: Global, setup: &Setup, log: &Log<TowerBody>) -> Result<Vec<Name>, AllocError>
    ensures { IfOk result (λ names. names.items ≡ names_in setup.now log.now) }
{
    let mut layers = Layers::start(alloc, setup)?;
    let names = names_behind(alloc, &mut layers, log)?;
    Ok(names)
}

/// The names after a log, which comes to layers with an empty history.
fn names_behind(
    alloc: Global,
    layers: &mut Layers,
    log: &Log<TowerBody>,
) -> Result<Vec<Name>, AllocError>
    ensures { (s : Settings) → ⟦<Layers as Machine>⟧.stands layers.old s []
        → IfOk result (λ names. names.items ≡ names_in s log.now) }
{
    match apply_all(layers, log) {
        Ok(()) => copied_names(alloc, layers),
        Err(_) => Err(AllocError),
    }
}

/// The names that the buffers below the layers hold.
fn copied_names(alloc: Global, layers: &Layers) -> Result<Vec<Name>, AllocError>
    ensures { (s : Settings) (history : History TowerBody)
        → ⟦<Layers as Machine>⟧.stands layers.now s history
        → IfOk result (λ names. names.items ≡ (held s (commands (plain history))).names.ids) }
{
    let buffers = layers.machine().machine().machine();
    copied_all(alloc, buffers.ids())
}

/// Applies the bodies of a log, the first at place 1, to a machine with an empty history. After an error the machine is
/// to be thrown away.
#[tactic(auto, using(crate::proofs::Comes::run_more))]
fn apply_all<M: Machine>(machine: &mut M, log: &Log<M::Command>) -> Result<(), ApplyFault>
    ensures { (s : M.Setup) → M.stands machine.old s []
        → OnOk result (M.stands machine.new s (run (map (λ e. e.body) log.now))) }
{
    for applied in 0..log.len().value() {
        let place = Number::new(applied + 1);
        machine.apply(place.value(), log.body(place).get())?;
    }
    Ok(())
}

/// The names that clients gave in the log of a group that counts, under its setup.
pub fn names_of(
    alloc: Global,
    setup: &Setup,
    group: &[Saved<TowerBody>],
) -> Result<Vec<Name>, AllocError>
    ensures { IfOk result (λ names. AreNamesOf setup.now group.now names.items) }
{
    match group {
        [] => Ok(Vec::new(alloc)),
        [first, others @ ..] => names_in(alloc, setup, &most_up_to_date(first, others).log),
    }
}

/// The first of these names that no client gave in the log of a group that counts, as it is shown.
pub fn first_unknown(
    alloc: Global,
    setup: &Setup,
    group: &[Saved<TowerBody>],
    forgotten: &[Name],
) -> Result<Option<String>, AllocError> {
    if forgotten.is_empty() {
        return Ok(None);
    }
    let names = names_of(alloc, setup, group)?;
    match first_other(&names, forgotten) {
        Some(name) => Ok(Some(text_of(alloc, name)?)),
        None => Ok(None),
    }
}

/// The first of these names that is none of the others.
fn first_other<'a>(names: &[Name], forgotten: &'a [Name]) -> Option<&'a Name>
    ensures some { IfSome result (λ id. is_id_in id.now names.now ≡ false) }
    ensures none { IfNone result (IsTrue (list_all (λ id. is_id_in id names.now) forgotten.now)) }
{
    match forgotten {
        [] => None,
        [id, forgotten @ ..] => {
            if is_among(id, names) {
                first_other(names, forgotten)
            } else {
                Some(id)
            }
        }
    }
}

/// Whether a name is one of these, byte by byte.
fn is_among(id: &Name, names: &[Name]) -> bool
    ensures { result ≡ is_id_in id.now names.now }
{
    names
        .iter()
        .any(|name| is_same(id.as_bytes(), name.as_bytes()))
}

/// A name as it is shown to an operator.
fn text_of(alloc: Global, name: &Name) -> Result<String, AllocError> {
    String::from_utf8_lossy(alloc, name.as_bytes())
}

/// Names as they are shown to an operator.
pub fn texts_of(alloc: Global, names: &[Name]) -> Result<Vec<String>, AllocError> {
    let mut texts = Vec::new(alloc);
    for name in names {
        texts.push(text_of(alloc, name)?)?;
    }
    Ok(texts)
}
