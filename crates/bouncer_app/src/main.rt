//! `bouncer`: runs a bouncer; folds numbered commands into what its clients are shown; runs events over its nodes, and
//! reruns recorded ones; shows what a journal holds, and begins a log anew. Its arguments, exit codes and standard
//! error are tested; what its tasks do is promised by bouncer_run, journal_folder, fold_app, world_app and chat_log.
#![tactic(auto)]

mod help;
mod recorded;
mod show;
mod words;

use crate::help::{HELP, USAGE, VERSION, WAITING};
use crate::recorded::{print_picture, replay};
use crate::show::show;
use crate::words::{Task, asked};
use bouncer_run::{Hands, RunFault, check, read, run};
use chat_log::Extent;
use first_config::{Answers, InitFault, Written, ask, first_config, random_password, write_first};
use fold_app::{FoldFault, fold};
use irc_line::Name;
use journal_folder::renew;
use records::Verdict;
use std::env::args;
use std::fmt::Display;
use std::io;
use std::io::{ErrorKind, IsTerminal, Write};
use std::process::ExitCode;
use std::rt::Runtime;
use world_app::world;

/// The exit code if a record differs from a run of its events.
// 1 is for faults, 2 for wrong calls
const DIFFERS: u8 = 3;

/// Folds standard input. The exit code is 0, or 1 with the fault on standard error.
fn run_fold(rt: &HostRuntime) -> ExitCode {
    let mut input = rt.reader();
    tell_waiting(rt, &input);
    match fold(rt.alloc(), &mut input, &mut io::writer(rt)) {
        Ok(()) => ExitCode::SUCCESS,
        Err(fault) => failed(rt, fault),
    }
}

/// Runs the events of standard input over this many nodes. The exit code is 0, or 1 with the fault
/// on standard error.
fn run_world(rt: &HostRuntime, size: u32) -> ExitCode {
    let mut input = rt.reader();
    tell_waiting(rt, &input);
    match world(rt.alloc(), size, &mut input, &mut io::writer(rt)) {
        Ok(()) => ExitCode::SUCCESS,
        Err(fault) => failed(rt, fault),
    }
}

/// Reruns what is recorded in a file. The exit code is 0 if the same comes out, 3 if it does not, or 1 with the fault
/// on standard error.
fn run_replay(rt: &HostRuntime, path: &str) -> ExitCode {
    match replay(rt, path) {
        Ok(Verdict::Same) => ExitCode::SUCCESS,
        Ok(Verdict::Differs(_)) => ExitCode::from(DIFFERS),
        Err(fault) => failed(rt, fault),
    }
}

/// Draws the run that is recorded in a file. The exit code is 0, or 1 with the fault on standard error.
fn run_draw(rt: &HostRuntime, path: &str) -> ExitCode {
    match print_picture(rt, path) {
        Ok(()) => ExitCode::SUCCESS,
        Err(fault) => failed(rt, fault),
    }
}

/// Shows the journal in a file. The exit code is 0, or 1 with the fault on standard error.
fn run_show(rt: &HostRuntime, path: &str, extent: Extent, target: Option<&Name>) -> ExitCode {
    match show(rt, path, extent, target) {
        Ok(()) => ExitCode::SUCCESS,
        Err(fault) => failed(rt, fault),
    }
}

/// Says what a run over the configuration in a file would do. The exit code is 0, or 1 with the fault on
/// standard error.
fn run_check(rt: &HostRuntime, path: &str) -> ExitCode {
    let checked = match check(rt, path) {
        Ok(checked) => checked,
        Err(fault) => return failed(rt, fault),
    };
    let mut output = io::writer(rt);
    if output.write_all(&checked.plan).is_err() || output.flush().is_err() {
        return failed(rt, FoldFault::Write);
    }
    match &checked.store {
        Some(store) => told(rt, store),
        None => ExitCode::SUCCESS,
    }
}

/// Begins the log of the bouncer of a configuration anew, without these names of clients, and says what was done. The
/// exit code is 0, or 1 with the fault on standard error, and a line before it that says why.
fn run_renew(rt: &HostRuntime, path: &str, forgotten: &[Name]) -> ExitCode {
    let config = match read(rt, path) {
        Ok(config) => config,
        Err(fault) => return failed(rt, fault),
    };
    match renew(rt, config.store.as_slice(), &config, forgotten) {
        Ok(renewed) => told(rt, &renewed),
        Err(fault) => {
            let _ = eprintln!(rt; "{fault}");
            failed(rt, RunFault::of_store(fault.is_memory()))
        }
    }
}

/// Writes a first configuration into a folder, and says where it is. The exit code is 0, or 1 with the fault on standard
/// error.
fn run_init(rt: &HostRuntime, folder: &str, words: Vec<String>) -> ExitCode {
    match init(rt, folder, words) {
        Ok(written) => told(rt, &written),
        Err(fault) => failed(rt, fault),
    }
}

/// Writes a first configuration into a folder, from these words, or, if there are none, from the answers on standard
/// input.
fn init(rt: &HostRuntime, folder: &str, words: Vec<String>) -> Result<Written, InitFault> {
    let answers = if words.is_empty() {
        ask(rt, &mut rt.reader())?
    } else {
        Answers::of(rt.alloc(), words)?
    };
    let password = random_password(rt)?;
    let first = first_config(rt.alloc(), &answers, password.as_str())?;
    write_first(rt, folder, &first.text)
}

/// Tells a person at a terminal that the program waits for what they type.
fn tell_waiting(rt: &HostRuntime, input: &impl IsTerminal) {
    if input.is_terminal() {
        let _ = eprintln!(rt; "{WAITING}");
    }
}

/// Writes a text to standard output, as a line.
fn told<T: Display>(rt: &HostRuntime, line: &T) -> ExitCode {
    match println!(rt; "{line}") {
        Ok(()) => ExitCode::SUCCESS,
        Err(_) => failed(rt, FoldFault::Write),
    }
}

/// Reports a fault. If standard error fails too, only the exit code reports it.
fn failed<F: Display + Drop>(rt: &impl Runtime, fault: F) -> ExitCode {
    let _ = eprintln!(rt; "bouncer: {fault}");
    ExitCode::FAILURE
}

/// Prints how to call the program.
fn usage(rt: &HostRuntime) -> ExitCode {
    let _ = eprintln!(rt; "{USAGE}");
    ExitCode::from(2)
}

fn main(rt: HostRuntime) -> ExitCode {
    match args(&rt) {
        Ok(words) => match asked(rt.alloc(), words) {
            Ok(Some(Task::Fold)) => run_fold(&rt),
            Ok(Some(Task::World(size))) => run_world(&rt, size),
            Ok(Some(Task::Replay(path))) => run_replay(&rt, path.as_str()),
            Ok(Some(Task::Draw(path))) => run_draw(&rt, path.as_str()),
            Ok(Some(Task::Show(path, extent, target))) => {
                run_show(&rt, path.as_str(), extent, target.as_ref())
            }
            Ok(Some(Task::Run(path))) => match run(&rt, path.as_str(), rt.reader(), &Hands::new) {
                Ok(()) => ExitCode::SUCCESS,
                Err(fault) => failed(&rt, fault),
            },
            Ok(Some(Task::Check(path))) => run_check(&rt, path.as_str()),
            Ok(Some(Task::Renew(path, forgotten))) => run_renew(&rt, path.as_str(), &forgotten),
            Ok(Some(Task::Init(folder, words))) => run_init(&rt, folder.as_str(), words),
            Ok(Some(Task::Help)) => told(&rt, &HELP),
            Ok(Some(Task::Version)) => told(&rt, &VERSION),
            Ok(None) => usage(&rt),
            Err(_) => failed(&rt, FoldFault::Memory),
        },
        Err(error) => if error.kind() == ErrorKind::OutOfMemory {
            failed(&rt, FoldFault::Memory)
        } else {
            usage(&rt)
        },
    }
}
