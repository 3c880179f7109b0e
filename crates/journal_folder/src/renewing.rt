//! `bouncer renew`, and what a start does if a log has another setup.
ghost use Rattle.std.specs.Prelude.{◌≡◌, ◌≤◌, [], IfErr, IfOk, length, map, string_bytes};
ghost use Rattle.raft_log.specs.Peers.{IsGroupSize};
ghost use Rattle.journal_folder.specs.Beside.{AreOldFolders};
ghost use Rattle.journal_folder.specs.Faults.{IsOfFiles, IsOfLists, IsUnnamedIn};
ghost use Rattle.journal_folder.specs.Planning.{IsPlan, IsToldOfSome, Tells};
ghost use Rattle.wire_bytes.specs.Limits.{node_limit};

use crate::fault::RenewFault;
use crate::held::{Held, hold};
use crate::locking::are_missing;
use crate::making::{make_journals, remove};
use crate::naming::first_unknown;
use crate::paths::{NoPaths, Paths, renewing_of};
use crate::placing::{decide, finish_renewal, put_in_place};
use crate::planning::{Plan, behind, planned};
use crate::renewed::Renewed;
use crate::store::size_of;
use crate::store_name::name_behind;
use bouncer_config::Config;
use bouncer_tower::TowerBody;
use irc_line::Name;
use stable_store::Saved;
use std::alloc::Global;
use std::fs::{File, Files};
use std::rt::Clock;
use store_setup::StoreSetup;

/// Renews the log of a configuration's bouncer in these folders, which must not run: from the setup and the number of
/// nodes of its store to those of the configuration. `forgotten` are names of clients that are dropped with what they
/// have seen. At any moment the old journals or the new ones are whole, and are those that the next run uses; the old
/// ones are kept beside them. If it fails, either the next run finishes what was begun, or nothing has changed.
pub fn renew<R: Files<File = File> + Clock + AllocGlobal>(
    rt: &R,
    folders: &[String],
    config: &Config,
    forgotten: &[Name],
) -> Result<Renewed, RenewFault>
    requires some { 1 ≤ length folders.now }
    requires nodes { IsGroupSize (length config.now.listen.items) }
    ensures told { IfOk result (IsToldOfSome config.now.setup forgotten.now
        (length config.now.listen.items)) }
    ensures old { IfOk result
        (λ told. AreOldFolders (map string_bytes folders.now) told.old) }
    ensures unnamed { IfErr result (IsUnnamedIn (map string_bytes folders.now)) }
{
    let alloc = rt.alloc();
    paths_of(alloc, folders)?;
    finish_renewal(rt, folders)?;
    let held = hold(rt, folders, config)?;
    let plan = plan_for(
        alloc,
        config,
        forgotten,
        &held.store,
        &held.group.standing.saved,
    )?;
    carry_out(rt, folders, config, &held, &plan)
}

/// The paths of each of these folders.
fn paths_of(alloc: Global, folders: &[String]) -> Result<Vec<Paths>, RenewFault>
    ensures folders { IfOk result (λ all. map (λ paths. string_bytes paths.folder) all.items
        ≡ map string_bytes folders.now) }
    ensures count { IfOk result (λ all. length all.items ≡ length folders.now) }
    ensures unnamed { IfErr result (IsUnnamedIn (map string_bytes folders.now)) }
{
    match Paths::of_all(alloc, folders) {
        Ok(all) => Ok(all),
        Err(NoPaths::Nameless(path)) => Err(RenewFault::Unnamed(path)),
        Err(NoPaths::Memory) => Err(RenewFault::Memory),
    }
}

/// The plan for renewing a store, given the states of its journals, for a configuration.
pub fn plan_for(
    alloc: Global,
    config: &Config,
    forgotten: &[Name],
    store: &StoreSetup,
    group: &[Saved<TowerBody>],
) -> Result<Plan, RenewFault>
    requires nodes { IsGroupSize (length config.now.listen.items) }
    requires some { 1 ≤ length group.now }
    requires few { length group.now ≤ node_limit }
    ensures plan { IfOk result (IsPlan store.now.setup config.now.setup
        (length config.now.listen.items) forgotten.now group.now) }
    ensures boots { IfOk result
        (λ plan. length plan.boots.items ≡ length config.now.listen.items) }
    ensures fault { IfErr result IsOfLists }
{
    if let Some(name) = first_unknown(alloc, &store.setup, group, forgotten)? {
        return Err(RenewFault::UnknownName(name));
    }
    let (nodes, to) = (size_of(config), &config.setup);
    planned(alloc, &store.setup, to, nodes, forgotten, group)
}

/// The same, if the new log has no more than this many entries, and no name is forgotten.
pub fn short_plan(
    alloc: Global,
    config: &Config,
    store: &StoreSetup,
    group: &[Saved<TowerBody>],
    entries: u64,
) -> Result<Plan, RenewFault>
    requires nodes { IsGroupSize (length config.now.listen.items) }
    requires some { 1 ≤ length group.now }
    requires few { length group.now ≤ node_limit }
    ensures plan { IfOk result (IsPlan store.now.setup config.now.setup
        (length config.now.listen.items) [] group.now) }
    ensures boots { IfOk result
        (λ plan. length plan.boots.items ≡ length config.now.listen.items) }
    ensures short { IfOk result (λ plan. length plan.renewal.log ≤ entries) }
    ensures fault { IfErr result IsOfLists }
{
    plan_for(alloc, config, &[], store, group)?.within(entries)
}

/// Renews the log of a store as planned for a configuration, in journals that replace the old ones in these folders,
/// which stay locked until then.
pub fn carry_out<R: Files<File = File> + Clock + AllocGlobal>(
    rt: &R,
    folders: &[String],
    config: &Config,
    held: &Held,
    plan: &Plan,
) -> Result<Renewed, RenewFault>
    requires some { 1 ≤ length folders.now }
    requires nodes { IsGroupSize (length config.now.listen.items) }
    requires boots { length plan.now.boots.items ≡ length config.now.listen.items }
    ensures told { IfOk result (Tells plan.now) }
    ensures lost { IfOk result
        (λ told. told.lost.journals.items ≡ held.now.group.standing.lost.journals.items) }
    ensures old { IfOk result
        (λ told. AreOldFolders (map string_bytes folders.now) told.old) }
    ensures unnamed { IfErr result (IsUnnamedIn (map string_bytes folders.now)) }
{
    let alloc = rt.alloc();
    let all = paths_of(alloc, folders)?;
    let renewing = renewing_of(alloc, &all)?;
    let renewals = behind(held.store.renewals)?;
    let name = name_behind(rt, &held.store);
    let now = StoreSetup::of(alloc, size_of(config), renewals, Some(name), &config.setup)?;
    let outcome = replace(rt, &all, &renewing, held, plan, &now);
    if outcome.is_err() {
        for folder in &renewing {
            // nobody uses what is there
            let _ = remove(rt, folder.as_str());
        }
    }
    outcome
}

/// Replaces the old journals at these paths by the planned ones.
fn replace<R: Files<File = File> + AllocGlobal>(
    rt: &R,
    all: &[Paths],
    renewing: &[String],
    held: &Held,
    plan: &Plan,
    now: &StoreSetup,
) -> Result<Renewed, RenewFault>
    requires some { 1 ≤ length renewing.now }
    requires boots { length plan.now.boots.items ≡ now.now.nodes }
    ensures told { IfOk result (Tells plan.now) }
    ensures lost { IfOk result
        (λ told. told.lost.journals.items ≡ held.now.group.standing.lost.journals.items) }
    ensures old { IfOk result (λ told.
        AreOldFolders (map (λ paths. string_bytes paths.folder) all.now) told.old) }
    ensures fault { IfErr result IsOfFiles }
{
    let lost = held.group.standing.lost.again(rt.alloc())?;
    let _journals = make_journals(rt, renewing, plan, now)?;
    decide(rt, all)?;
    let old = put_in_place(rt, all, !are_missing(&held.group.locks))?;
    Ok(Renewed {
        before: plan.before,
        now: plan.renewal.log.len(),
        targets: plan.renewal.targets,
        lines: plan.renewal.lines,
        lost,
        old,
    })
}
