//! The record of a run, written to its file.
ghost use Rattle.std.specs.Prelude.{◌≡◌, IfErr, IsOk, None};
ghost use Rattle.std.specs.IoError.{error_kind};
ghost use Rattle.bouncer_run.specs.Faults.{IsFaultOfError, IsOrMemory};

use crate::run_fault::RunFault;
use crate::system::System;
use bouncer_config::Config;
use bouncer_tower::{Tower, TowerBody, TowerEffect};
use buffer_commands::{Setup, WireLine};
use buffer_lines::Shown;
use irc_line::Name;
use node_cells::NodeRecord;
use raft_log::GroupSize;
use records::{TextFault, run_text};
use setup_spelling::WireSetup;
use std::fs::OpenOptions;
use std::io::{self, Write};
use std::os::unix::fs::OpenOptionsExt;

/// Only its owner may read what people said.
const OWNERS: u32 = 0o600;

/// What a node of a bouncer did.
pub type TowerRecord = NodeRecord<TowerBody, WireLine, Name, TowerEffect, Shown>;

/// The record of a run is written to the file that the configuration names, if it names one. If
/// that can't be done, a line was written to standard error that says why.
pub fn write_record<R: System>(
    rt: &R,
    config: Config,
    size: GroupSize,
    records: Vec<TowerRecord>,
) -> Result<(), RunFault>
    ensures unnamed { config.record ≡ None → IsOk result }
    ensures fault { IfErr result (IsOrMemory RunFault.Write) }
{
    let Config { setup, record, .. } = config;
    match record {
        Some(path) => write_to(rt, path.as_str(), setup, size, records),
        None => Ok(()),
    }
}

/// The file that the configuration names for the record, if it names one, is made if it is not
/// there, and stays as it is if it is: so a file that could never be written is reported at the
/// start. If that can't be done, a line was written to standard error that says why.
pub fn try_record<R: System>(rt: &R, config: &Config) -> Result<(), RunFault>
    ensures unnamed { config.now.record ≡ None → IsOk result }
    ensures fault { IfErr result (IsOrMemory RunFault.Write) }
{
    let Some(path) = &config.record else {
        return Ok(());
    };
    let path = path.as_str();
    match OpenOptions::new()
        .append(true)
        .create(true)
        .mode(OWNERS)
        .open(rt, path)
    {
        Ok(_) => Ok(()),
        Err(error) => Err(unwritten(rt, path, &error)),
    }
}

/// The record of a run is written to the file of a path.
fn write_to<R: System>(
    rt: &R,
    path: &str,
    setup: Setup,
    size: GroupSize,
    records: Vec<TowerRecord>,
) -> Result<(), RunFault>
    ensures { IfErr result (IsOrMemory RunFault.Write) }
{
    let setup = WireSetup::new(setup);
    let text = match run_text::<Tower>(rt.alloc(), size, &setup, records) {
        Ok(text) => text,
        Err(TextFault::Memory) => {
            let _ = eprintln!(rt; "{path}: out of memory");
            return Err(RunFault::Memory);
        }
        Err(TextFault::Stranger) => {
            let _ = eprintln!(rt; "{path}: a message came that no node sent");
            return Err(RunFault::Write);
        }
    };
    match write_new(rt, path, text.as_slice()) {
        Ok(()) => Ok(()),
        Err(error) => Err(unwritten(rt, path, &error)),
    }
}

/// The file of a path has these bytes and no others.
fn write_new<R: System>(rt: &R, path: &str, bytes: &[u8]) -> io::Result<()> {
    let mut file = OpenOptions::new()
        .write(true)
        .create(true)
        .truncate(true)
        .mode(OWNERS)
        .open(rt, path)?;
    file.write_all(bytes)
}

/// A file can't be written, which is said on standard error.
fn unwritten<R: System>(rt: &R, path: &str, error: &io::Error) -> RunFault
    ensures kind { IsFaultOfError (error_kind error.now) RunFault.Write result }
    ensures either { IsOrMemory RunFault.Write result }
{
    let _ = eprintln!(rt; "{path}: {error}");
    RunFault::of_error(error, RunFault::Write)
}
