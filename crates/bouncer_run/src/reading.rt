//! The configuration of a file.
ghost use Rattle.std.specs.Prelude.{◌≡◌, ◌≤◌, IfErr, IfOk, length};
ghost use Rattle.bouncer_run.specs.Configs.{IsConfigOf, IsSaidIn, IsUnread, IsUnreadFault, fault_of_unread};

use crate::first_lines::has_unspoken;
use crate::run_fault::RunFault;
use bouncer_config::{Config, ConfigFault, Problem, parse_config};
use std::alloc::Global;
use std::fs;
use std::fs::File;
use std::io::Read;
use std::rt::Runtime;
use whole_input::{ReadFault, read_whole};

/// Why no configuration was read.
#[derive(Drop)]
pub enum Unread {
    /// There is no text.
    Unreadable(ReadFault),
    /// There is a text, and it is no configuration.
    Refused(ConfigFault),
}

impl Unread {
    /// What it means to the program. Out of memory is that, also if a text could be no
    /// configuration.
    fn fault(&self) -> RunFault
        ensures { result ≡ fault_of_unread self.now }
    {
        match self {
            Unread::Unreadable(fault) => RunFault::from(*fault),
            Unread::Refused(fault) => match &fault.problem {
                Problem::Memory => RunFault::Memory,
                _ => RunFault::Config,
            },
        }
    }
}

/// The configuration in the file of this path; its own paths are relative to the folder of that
/// file. If there is none, and not for lack of memory, a line was written to standard error that
/// names the file and says why.
pub fn read<R: Runtime<File = File> + AllocGlobal>(rt: &R, path: &str) -> Result<Config, RunFault>
    ensures said { IfOk result (IsSaidIn path.now) }
    ensures folders { IfOk result (λ config. 1 ≤ length config.store.items) }
    ensures fault { IfErr result IsUnreadFault }
{
    let mut file = match fs::open(rt, path) {
        Ok(file) => file,
        Err(error) => {
            let fault = RunFault::of_error(&error, RunFault::Read);
            let _ = eprintln!(rt; "{path}: {error}");
            return Err(fault);
        }
    };
    match read_config(rt.alloc(), &mut file) {
        Ok(mut config) => {
            config.place(rt.alloc(), path)?;
            hold_lines(rt, path, &config)?;
            Ok(config)
        }
        Err(unread) => {
            tell(rt, path, &unread);
            Err(unread.fault())
        }
    }
}

/// Refuses a configuration whose `on_connect` has a text that is no line. If it does, a line was
/// written to standard error that says so, without the text, which may have a password in it.
fn hold_lines<R: Runtime + AllocGlobal>(rt: &R, path: &str, config: &Config) -> Result<(), RunFault>
    ensures { IfErr result IsUnreadFault }
{
    if !has_unspoken(rt.alloc(), config.on_connect.as_slice())? {
        return Ok(());
    }
    let _ = eprintln!(rt;
        "{path}: on_connect: needs lines of IRC, of a command and at most 15 words after it"
    );
    Err(RunFault::Config)
}

/// The configuration that all the bytes of a reader say.
pub fn read_config<F: Read>(alloc: Global, file: &mut F) -> Result<Config, Unread>
    ensures ok { IfOk result (IsConfigOf (F.remaining file.old)) }
    ensures err { IfErr result (IsUnread (F.remaining file.old)) }
{
    let text = match read_whole(alloc, file) {
        Ok(text) => text,
        Err(fault) => return Err(Unread::Unreadable(fault)),
    };
    match parse_config(alloc, text.as_slice()) {
        Ok(config) => Ok(config),
        Err(fault) => Err(Unread::Refused(fault)),
    }
}

/// Says on standard error why there is no configuration in a file.
fn tell<R: Runtime>(rt: &R, path: &str, unread: &Unread) {
    let why = match unread {
        Unread::Unreadable(ReadFault::InputTooLong) => "is too long",
        Unread::Unreadable(ReadFault::Read) => "can't be read",
        Unread::Unreadable(ReadFault::Memory) => "out of memory",
        Unread::Refused(fault) => return tell_faults(rt, path, fault),
    };
    let _ = eprintln!(rt; "{path}: {why}");
}

/// Says on standard error all that is wrong with the text of a configuration, a line each.
fn tell_faults<R: Runtime>(rt: &R, path: &str, fault: &ConfigFault) {
    match &fault.all {
        Some(faults) => {
            for fault in faults.iter() {
                let _ = eprintln!(rt; "{path}:{fault}");
            }
        }
        None => {
            let _ = eprintln!(rt; "{path}:{fault}");
        }
    }
}
