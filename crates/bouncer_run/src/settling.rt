//! What a start does with the store before its journals are opened.
ghost use Rattle.std.specs.Prelude.{IfErr};
ghost use Rattle.bouncer_run.specs.Faults.{IsOrMemory};

use crate::absent::{Absent, is_absent};
use crate::made::Made;
use crate::run_fault::RunFault;
use crate::store_news::{tell_finished, tell_settled};
use crate::system::System;
use bouncer_config::{Config, folder_of};
use journal_folder::{FolderFault, Paths, RenewFault, Settled, finish_renewal};
use raft_log::{GroupSize, NodeId};
use std::fs;

/// A renewal that was decided is finished. If it was not finished before, a line was written that
/// says where the old folders are now.
pub fn finish<R: System>(rt: &R, folders: &[String]) -> Result<(), RunFault>
    ensures { IfErr result (IsOrMemory RunFault.Store) }
{
    match finish_all(rt, folders) {
        Ok(()) => Ok(()),
        Err(fault) => Err(told(rt, &fault)),
    }
}

/// The same without some nodes. If the system does not say what is beside their folders, and no
/// renewed folder is beside one of the others, there is nothing to finish for these.
pub fn finish_without<R: System>(
    rt: &R,
    folders: &[String],
    size: GroupSize,
    absent: &[Absent],
) -> Result<(), RunFault>
    ensures { IfErr result (IsOrMemory RunFault.Store) }
{
    match finish_all(rt, folders) {
        Ok(()) => Ok(()),
        Err(fault) if !fault.is_memory() && are_in_place(rt, folders, size, absent) => Ok(()),
        Err(fault) => Err(told(rt, &fault)),
    }
}

/// A renewal that was decided is finished, which is logged.
fn finish_all<R: System>(rt: &R, folders: &[String]) -> Result<(), FolderFault> {
    if let Some(old) = finish_renewal(rt, folders)? {
        for one in &old.folders {
            tell_finished(rt, one);
        }
    }
    Ok(())
}

/// A line is written that says why a renewal is not finished. Returns what that means to the
/// program.
fn told<R: System>(rt: &R, fault: &FolderFault) -> RunFault
    ensures { IsOrMemory RunFault.Store result }
{
    let _ = eprintln!(rt; "{fault}");
    RunFault::of_store(fault.is_memory())
}

/// Whether no renewed folder is beside that of any node except the absent ones, as the system says.
fn are_in_place<R: System>(rt: &R, folders: &[String], size: GroupSize, absent: &[Absent]) -> bool {
    for index in 0..size.value() {
        let node = NodeId::new(index + 1);
        if !is_absent(absent, node) && !is_in_place(rt, folder_of(folders, node)) {
            return false;
        }
    }
    true
}

/// Whether no renewed folder is beside this one, as the system says.
fn is_in_place<R: System>(rt: &R, folder: &str) -> bool {
    match Paths::of(rt.alloc(), folder) {
        Ok(Some(paths)) => matches!(fs::exists(rt, paths.renewed.as_str()), Ok(false)),
        _ => false,
    }
}

/// What was done to make the store fit a configuration is logged, unless it is new or goes on, and
/// noted. If it was refused a line was written to standard error that says why.
pub fn take<R: System>(
    rt: &R,
    config: &Config,
    settled: Result<Settled, RenewFault>,
    made: &mut Made,
) -> Result<(), RunFault>
    ensures { IfErr result (IsOrMemory RunFault.Store) }
{
    match settled {
        Ok(settled) => {
            tell_settled(rt, config, &settled);
            note(settled, made)
        }
        Err(fault) => {
            let _ = eprintln!(rt; "{fault}");
            Err(RunFault::of_store(fault.is_memory()))
        }
    }
}

/// The files that a start made, in which a store says which setup it has, are noted.
fn note(settled: Settled, made: &mut Made) -> Result<(), RunFault>
    ensures { IfErr result (IsOrMemory RunFault.Store) }
{
    match settled {
        Settled::Made(files) | Settled::Described(files) => Ok(made.add_all(files)?),
        _ => Ok(()),
    }
}
