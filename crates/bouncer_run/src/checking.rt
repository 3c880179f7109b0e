//! What a run would do, reported without one.
ghost use Rattle.std.specs.Prelude.{◌≤◌, IfErr, IfOk, length};
ghost use Rattle.raft_log.specs.Peers.{IsGroupSize};
ghost use Rattle.bouncer_run.specs.Checks.{IsCheckFault, IsSomePlan};
ghost use Rattle.bouncer_run.specs.Faults.{IsOrMemory};

use crate::absent::{absent_to_be, tell_absent};
use crate::group::size_of;
use crate::journal_files::goes_on_without;
use crate::reading::read;
use crate::run_fault::RunFault;
use crate::warnings::warn_of_readers;
use bouncer_config::Config;
use journal_folder::{Foretold, RenewFault, foretold};
use run_plan::{Warning, plan};
use std::fs::File;
use std::rt::Runtime;

/// What a run would do.
#[derive(Drop)]
pub struct Checked {
    /// Lines of text.
    pub plan: Vec<u8>,
    /// What would become of the store, if it may be looked at.
    pub store: Option<Foretold>,
}

/// What a run over the configuration in the file of this path would do. Its warnings were written
/// to standard error. Nothing is made or changed, and no journal is locked: this gets no net and no
/// threads. `Store` if the run would be refused because of the store. If the store may not be read,
/// a line was written to standard error.
#[tactic(auto, using(crate::proofs::CheckFaults::of_store))]
pub fn check<R: Runtime<File = File> + AllocGlobal>(rt: &R, path: &str) -> Result<Checked, RunFault>
    ensures plan { IfOk result (λ checked. IsSomePlan path.now checked.plan.items) }
    ensures fault { IfErr result IsCheckFault }
{
    let config = read(rt, path)?;
    warn(rt, path, &config);
    let plan = plan(rt.alloc(), &config)?;
    match store_of(rt, &config) {
        Ok(store) => Ok(Checked { plan, store }),
        Err(fault) => Err(fault),
    }
}

/// What would become of the store of a configuration. If it is not known, a line was written that
/// says why.
fn store_of<R: Runtime<File = File> + AllocGlobal>(
    rt: &R,
    config: &Config,
) -> Result<Option<Foretold>, RunFault>
    requires group { IsGroupSize (length config.now.listen.items) }
    requires folders { 1 ≤ length config.now.store.items }
    ensures { IfErr result (IsOrMemory RunFault.Store) }
{
    let (folders, size) = (config.store.as_slice(), size_of(config));
    let absent = absent_to_be(rt, folders, size)?;
    if !absent.is_empty() && goes_on_without(rt, config, size, &absent)?.is_some() {
        tell_absent(rt, &absent);
        return Ok(None);
    }
    let fault = match foretold(rt, folders, config, config.renew_at as u64) {
        Ok(store) => return Ok(Some(store)),
        Err(fault) => fault,
    };
    let _ = eprintln!(rt; "{fault}");
    match fault {
        // the user who checks may not be the bouncer's user
        RenewFault::Unread(_, _) => Ok(None),
        fault => Err(RunFault::of_store(fault.is_memory())),
    }
}

/// Writes the warnings about a configuration.
fn warn<R: Runtime<File = File> + AllocGlobal>(rt: &R, path: &str, config: &Config) {
    warn_of_readers(rt, path);
    for warning in Warning::all() {
        if warning.is_of(config) {
            let _ = eprintln!(rt; "{path}: {warning}");
        }
    }
}
