//! What a start does before any journal is opened: from then on the store has the configuration's setup.
ghost use Rattle.std.specs.Prelude.{◌≡◌, ◌≢◌, ◌<◌, ◌≤◌, ℕ, [], IfErr, IfOk, length, map, string_bytes};
ghost use Rattle.raft_log.specs.Peers.{IsGroupSize};
ghost use Rattle.journal_folder.specs.Faults.{IsOfFiles, IsUnnamedIn};
ghost use Rattle.journal_folder.specs.Counting.{most_entries};
ghost use Rattle.journal_folder.specs.Settling.{IsChanged, IsSettled, IsWithout};
ghost use Rattle.store_setup.specs.Changes.{IsOf, changed_keys};
ghost use Rattle.journal_folder.specs.Holding.{StandsForSome};
ghost use Rattle.wire_bytes.specs.Limits.{node_limit};

use crate::changed_keys::ChangedKeys;
use crate::counting::most_entries;
use crate::fault::RenewFault;
use crate::held::{Held, hold};
use crate::locking::lock_all;
use crate::looking::{Look, look_at};
use crate::renewed::Renewed;
use crate::renewing::{carry_out, plan_for, short_plan};
use crate::settled::Settled;
use crate::standing::Standing;
use crate::store::{Next, find, next_of, size_of};
use crate::store_file::{describe_all, first_described};
use crate::store_name::new_name;
use bouncer_config::Config;
use file_disk::MadeFile;
use std::fs::{File, Files};
use std::rt::Clock;
use store_setup::StoreSetup;
use wire_bytes::Number;

/// Makes the store in these folders, which exist and in which no renewal waits to be finished, one of a configuration's
/// setup and of as many nodes. A log with other ones is renewed, and so is one of more than `renew_at` entries, if that
/// is not 0, and one some of whose journals are missing or empty. If it fails, the folders are unchanged, or the next
/// start finishes what was begun.
pub fn settle<R: Files<File = File> + Clock + AllocGlobal>(
    rt: &R,
    folders: &[String],
    config: &Config,
    renew_at: u64,
) -> Result<Settled, RenewFault>
    requires folders { 1 ≤ length folders.now }
    requires nodes { IsGroupSize (length config.now.listen.items) }
    ensures settled { IfOk result
        (IsSettled config.now.setup (length config.now.listen.items) renew_at) }
    ensures unnamed { IfErr result (IsUnnamedIn (map string_bytes folders.now)) }
{
    let alloc = rt.alloc();
    let nodes = size_of(config);
    let found = find(rt, folders)?;
    match next_of(alloc, &found, &config.setup, nodes)? {
        Next::Make => make(rt, folders, config),
        Next::Describe => settle_older(rt, folders, config, renew_at),
        Next::GoOn => {
            // journals are read here only if one may be lost, or too long
            match look_at(rt, folders, nodes)? {
                Look::New => Ok(Settled::Same),
                Look::Full if renew_at == 0 => Ok(Settled::Same),
                Look::Full | Look::Partly => settle_by_reading(rt, folders, config, renew_at),
            }
        }
        Next::BeginAnew => settle_by_reading(rt, folders, config, renew_at),
    }
}

/// The same for a store from before stores recorded what they are, with the configuration's number of nodes.
fn settle_older<R: Files<File = File> + Clock + AllocGlobal>(
    rt: &R,
    folders: &[String],
    config: &Config,
    renew_at: u64,
) -> Result<Settled, RenewFault>
    requires folders { 1 ≤ length folders.now }
    requires nodes { IsGroupSize (length config.now.listen.items) }
    ensures settled { IfOk result
        (IsSettled config.now.setup (length config.now.listen.items) renew_at) }
    ensures unnamed { IfErr result (IsUnnamedIn (map string_bytes folders.now)) }
{
    if look_at(rt, folders, size_of(config))? == Look::Partly {
        match settle_by_reading(rt, folders, config, renew_at)? {
            Settled::Same => {}
            settled => return Ok(settled),
        }
    }
    describe_locked(rt, folders, config)
}

/// Lets a new store record what it is.
fn make<R: Files<File = File> + Clock + AllocGlobal>(
    rt: &R,
    folders: &[String],
    config: &Config,
) -> Result<Settled, RenewFault>
    requires { IsGroupSize (length config.now.listen.items) }
    ensures settled { (renew_at : ℕ) → IfOk result
        (IsSettled config.now.setup (length config.now.listen.items) renew_at) }
    ensures fault { IfErr result IsOfFiles }
{
    Ok(Settled::Made(describe_as(rt, folders, config)?))
}

/// Lets a store from before that record what it is, while its journals are locked.
fn describe_locked<R: Files<File = File> + Clock + AllocGlobal>(
    rt: &R,
    folders: &[String],
    config: &Config,
) -> Result<Settled, RenewFault>
    requires { IsGroupSize (length config.now.listen.items) }
    ensures settled { (renew_at : ℕ) → IfOk result
        (IsSettled config.now.setup (length config.now.listen.items) renew_at) }
    ensures fault { IfErr result IsOfFiles }
{
    let _locks = lock_all(rt, folders)?;
    if let Some(described) = first_described(rt, folders)? {
        // another program was at work on it before these locks were taken
        return Err(RenewFault::Busy(described.path));
    }
    Ok(Settled::Described(describe_as(rt, folders, config)?))
}

/// Lets a store record the setup of a configuration, that its log was never renewed, and its name from here on.
fn describe_as<R: Files<File = File> + Clock + AllocGlobal>(
    rt: &R,
    folders: &[String],
    config: &Config,
) -> Result<Vec<MadeFile>, RenewFault>
    requires { IsGroupSize (length config.now.listen.items) }
    ensures { IfErr result IsOfFiles }
{
    let (none, name) = (Number::new(0), Some(new_name(rt)));
    let store = StoreSetup::of(rt.alloc(), size_of(config), none, name, &config.setup)?;
    describe_all(rt, folders, &store)
}

/// The same for a store each of whose journals is read, after they are locked: its log is also renewed if one is
/// damaged.
pub fn settle_by_reading<R: Files<File = File> + Clock + AllocGlobal>(
    rt: &R,
    folders: &[String],
    config: &Config,
    renew_at: u64,
) -> Result<Settled, RenewFault>
    requires folders { 1 ≤ length folders.now }
    requires nodes { IsGroupSize (length config.now.listen.items) }
    ensures settled { IfOk result
        (IsSettled config.now.setup (length config.now.listen.items) renew_at) }
    ensures unnamed { IfErr result (IsUnnamedIn (map string_bytes folders.now)) }
{
    let held = hold(rt, folders, config)?;
    let keys = ChangedKeys::of(rt.alloc(), &held.store, config)?;
    let standing = &held.group.standing;
    if !standing.lost.is_none() {
        let renewed = begin_without(rt, folders, config, &held, &keys)?;
        Ok(Settled::Lost(keys, renewed))
    } else if !keys.is_none() {
        let (keys, renewed) = begin_changed(rt, folders, config, &held, keys)?;
        Ok(Settled::Changed(keys, renewed))
    } else if renew_at > 0 && most_entries(&standing.saved).value() > renew_at {
        settle_long(rt, folders, config, renew_at, &held)
    } else {
        Ok(Settled::Same)
    }
}

/// Renews the log of a store, some of whose journals are lost, from the other journals. The values of these keys differ,
/// if there are any.
fn begin_without<R: Files<File = File> + Clock + AllocGlobal>(
    rt: &R,
    folders: &[String],
    config: &Config,
    held: &Held,
    keys: &ChangedKeys,
) -> Result<Renewed, RenewFault>
    requires folders { 1 ≤ length folders.now }
    requires nodes { IsGroupSize (length config.now.listen.items) }
    requires keys { keys.now.keys.items
        ≡ changed_keys held.now.store config.now.setup (length config.now.listen.items) }
    requires stands { StandsForSome held.now.store.nodes held.now.group.standing }
    requires first { 1 ≤ length held.now.group.standing.saved.items }
    requires few { length held.now.group.standing.saved.items ≤ node_limit }
    requires lost { held.now.group.standing.lost.journals.items ≢ [] }
    ensures without { IfOk result
        (IsWithout config.now.setup (length config.now.listen.items) keys.now) }
    ensures unnamed { IfErr result (IsUnnamedIn (map string_bytes folders.now)) }
{
    let alloc = rt.alloc();
    let Standing { saved, lost } = &held.group.standing;
    let plan = match plan_for(alloc, config, &[], &held.store, saved) {
        Ok(plan) => plan,
        Err(fault) => return Err(fault.for_loss(lost.again(alloc)?)),
    };
    let renewed = carry_out(rt, folders, config, held, &plan)?;
    Ok(renewed)
}

/// Renews the log of a store for which the values of these keys differ.
fn begin_changed<R: Files<File = File> + Clock + AllocGlobal>(
    rt: &R,
    folders: &[String],
    config: &Config,
    held: &Held,
    keys: ChangedKeys,
) -> Result<(ChangedKeys, Renewed), RenewFault>
    requires folders { 1 ≤ length folders.now }
    requires nodes { IsGroupSize (length config.now.listen.items) }
    requires keys { keys.keys.items
        ≡ changed_keys held.now.store config.now.setup (length config.now.listen.items) }
    requires some { keys.keys.items ≢ [] }
    requires count { length held.now.group.standing.saved.items ≡ held.now.store.nodes }
    requires first { 1 ≤ length held.now.group.standing.saved.items }
    requires few { length held.now.group.standing.saved.items ≤ node_limit }
    ensures changed { IfOk result
        (λ begun. IsChanged config.now.setup (length config.now.listen.items) begun.0 begun.1) }
    ensures unnamed { IfErr result (IsUnnamedIn (map string_bytes folders.now)) }
{
    let saved = &held.group.standing.saved;
    let plan = match plan_for(rt.alloc(), config, &[], &held.store, saved) {
        Ok(plan) => plan,
        Err(fault) => return Err(fault.for_change(keys)),
    };
    let renewed = carry_out(rt, folders, config, held, &plan)?;
    Ok((keys, renewed))
}

/// Lets a store go on, a log of which has more entries than this many: renewed, if that is shorter.
fn settle_long<R: Files<File = File> + Clock + AllocGlobal>(
    rt: &R,
    folders: &[String],
    config: &Config,
    renew_at: u64,
    held: &Held,
) -> Result<Settled, RenewFault>
    requires folders { 1 ≤ length folders.now }
    requires nodes { IsGroupSize (length config.now.listen.items) }
    requires count { length held.now.group.standing.saved.items ≡ held.now.store.nodes }
    requires first { 1 ≤ length held.now.group.standing.saved.items }
    requires few { length held.now.group.standing.saved.items ≤ node_limit }
    requires same { IsOf held.now.store config.now.setup (length config.now.listen.items) }
    requires some { 0 < renew_at }
    requires long { renew_at < most_entries held.now.group.standing.saved.items }
    ensures settled { IfOk result
        (IsSettled config.now.setup (length config.now.listen.items) renew_at) }
    ensures unnamed { IfErr result (IsUnnamedIn (map string_bytes folders.now)) }
{
    let (store, group) = (&held.store, held.group.standing.saved.as_slice());
    match short_plan(rt.alloc(), config, store, group, renew_at) {
        Ok(plan) => Ok(Settled::Long(carry_out(rt, folders, config, held, &plan)?)),
        Err(fault) if fault.is_of_log() => Ok(Settled::StaysLong(fault)),
        Err(fault) => Err(fault),
    }
}
