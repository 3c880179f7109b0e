//! `bouncer_bench ether ROUNDS` and `bouncer_bench queue ROUNDS`: two threads trade messages, over an ether or over a
//! queue under a lock, and nothing is written. `bouncer_bench save PATH COUNT` opens the journal of a path and saves
//! that many entries, one at a time; `bouncer_bench read PATH` opens it; both print how many entries it then has.
//! `bench/ether` and `bench/save` time them. It measures, and promises nothing.
#![tactic(auto)]

mod fault;
mod no_device;
mod over_ether;
mod over_queue;
mod saving;
mod tasks;

use crate::fault::BenchFault;
use crate::over_ether::trade_over_ether;
use crate::over_queue::trade_over_queue;
use crate::saving::save;
use std::alloc::Global;
use std::env::{Args, args};
use std::process::ExitCode;
use std::sync::Wait;
use std::thread::Threads;

const USAGE: &str =
    "usage: bouncer_bench [ether ROUNDS | queue ROUNDS | save PATH COUNT | read PATH]";

/// What the messages go over.
#[derive(Clone, Copy)]
enum Way {
    Ether,
    Queue,
}

/// What is asked for.
#[derive(Drop)]
enum Task {
    /// This many rounds of each thread.
    Trade(Way, u64),
    /// This many saves in the journal of a path.
    Save(String, u32),
}

/// The task that the words, the program's name first, ask for.
fn asked(words: Args) -> Option<Task> {
    let mut words = words.skip(1);
    let verb = words.next()?;
    let about = words.next()?;
    match verb.as_str() {
        "ether" => Some(Task::Trade(Way::Ether, about.as_str().parse().ok()?)),
        "queue" => Some(Task::Trade(Way::Queue, about.as_str().parse().ok()?)),
        "save" => {
            let count = words.next()?.as_str().parse().ok()?;
            Some(Task::Save(about, count))
        }
        "read" => Some(Task::Save(about, 0)),
        _ => None,
    }
}

/// Lets two threads trade.
fn trade<R: Threads + Wait + Sync>(
    rt: &R,
    alloc: Global,
    way: Way,
    rounds: u64,
) -> Result<(), BenchFault> {
    let _came = match way {
        Way::Ether => trade_over_ether(rt, alloc, rounds)?,
        Way::Queue => trade_over_queue(rt, alloc, rounds)?,
    };
    Ok(())
}

/// Saves in a journal, and prints how many entries it then has.
fn saved(rt: &HostRuntime, path: &str, count: u32) -> Result<(), BenchFault> {
    let stand = save(rt, path, count)?;
    println!(rt; "{stand}").map_err(|_| BenchFault::Write)
}

/// Reports a fault on standard error.
fn ended(rt: &HostRuntime, done: Result<(), BenchFault>) -> ExitCode {
    match done {
        Ok(()) => ExitCode::SUCCESS,
        Err(fault) => {
            let _ = eprintln!(rt; "bouncer_bench: {fault}");
            ExitCode::FAILURE
        }
    }
}

fn main(rt: HostRuntime) -> ExitCode {
    match args(&rt).ok().and_then(asked) {
        Some(Task::Trade(way, rounds)) => ended(&rt, trade(&rt, rt.alloc(), way, rounds)),
        Some(Task::Save(path, count)) => ended(&rt, saved(&rt, path.as_str(), count)),
        None => {
            let _ = eprintln!(&rt; "{USAGE}");
            ExitCode::from(2)
        }
    }
}
