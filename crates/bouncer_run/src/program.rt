//! The run of a bouncer.
ghost use Rattle.std.specs.Prelude.{◌≡◌, ◌≤◌, ◌⊎◌, IfErr, IfOk, length};
ghost use Rattle.raft_log.specs.Peers.{IsGroupSize};
ghost use Rattle.bouncer_run.specs.Faults.{IsOrMemory};

use crate::absent::Absent;
use crate::clock::{Clockwork, time_of_day};
use crate::driver_settings::settings_of;
use crate::ending::watch_input;
use crate::event_loop::{LoopFault, run_loop};
use crate::first_mark::rate_of;
use crate::group::{address_of, size_of};
use crate::growth::Growth;
use crate::inlet::{Inlet, LoopMessage};
use crate::inlets::Inlets;
use crate::input::open_input;
use crate::journal_errors::JournalErrors;
use crate::journal_files::{NodeJournals, journals};
use crate::listening::listen_all;
use crate::made::Made;
use crate::parts::{parts, stores};
use crate::reading::read;
use crate::record_file::{TowerRecord, try_record, write_record};
use crate::run_fault::RunFault;
use crate::running::Running;
use crate::sockets::Sockets;
use crate::store_watch::{StoreWatch, tell_away, watch_of};
use crate::system::System;
use crate::telling::Telling;
use crate::warnings::{warn, warn_of_readers};
use bouncer_config::{Config, LogLevel};
use crossbeam_channel::{Receiver, unbounded};
use driver::Driver;
use node_cells::Upstream;
use raft_log::{GroupSize, NodeId};
use std::alloc::Global;
use std::io;
use std::io::Read;
use std::os::fd::AsRawFd;
use std::sync::Arc;
use std::thread::JoinHandle;

/// How often the loop looks at the clock, in milliseconds.
const TICK: u64 = 20;

/// Runs the bouncer of the configuration in the file of this path until the input ends; then its
/// record is written, if the configuration names a file. If it does not run, or ends early, the
/// fault is the first of its kinds, in the order of `RunFault`, and out of memory if memory ran
/// out. If it is refused before clients are served, what it made is gone. `hands` makes what sends
/// a node's lines for the server to the loop.
pub fn run<
    R: System,
    I: Read + AsRawFd + Drop + Send + 'static,
    U: Upstream + Send + 'static,
    F: Fn(R, Global, NodeId, Inlet) -> U,
>(rt: &R, path: &str, input: I, hands: &F) -> Result<(), RunFault>
where
    R::Dir: 'static,
    requires { F.IsAlwaysCallable hands.now }
{
    let config = read(rt, path)?;
    if config.log != LogLevel::Quiet {
        warn_of_readers(rt, path);
    }
    let input = open_input(rt, path, config.input_end, input)?;
    let size = size_of(&config);
    let started = start(rt, &config, size, input, hands)?;
    let records = started.serve(rt, &config)?;
    write_record(rt, config, size, records)
}

/// Starts the bouncer of a configuration, or leaves nothing behind.
fn start<
    R: System,
    I: Read + Drop + Send + 'static,
    U: Upstream + Send + 'static,
    F: Fn(R, Global, NodeId, Inlet) -> U,
>(
    rt: &R,
    config: &Config,
    size: GroupSize,
    input: Option<I>,
    hands: &F,
) -> Result<Started<R, U>, RunFault>
where
    R::Dir: 'static,
    requires callable { F.IsAlwaysCallable hands.now }
    requires group { IsGroupSize (length config.now.listen.items) }
    requires folders { 1 ≤ length config.now.store.items }
{
    // it is dropped last, so that what was made is locked until it is gone
    let mut made = Made::nothing(rt.alloc());
    let started = Started::new(rt, config, size, input, hands, &mut made);
    if started.is_err() {
        made.take_back(rt);
    }
    started
}

/// A bouncer that is ready to serve clients.
#[derive(Drop)]
struct Started<R: System, U: Upstream> {
    edge: Edge,
    running: Running<R, U>,
    driver: Driver,
    telling: Telling<R>,
    watch: StoreWatch,
    reader: Option<JoinHandle<()>>,
}

impl<R: System, U: Upstream + Send + 'static> Started<R, U> {
    /// Opens the journals, listens, and starts the nodes. What it makes is noted.
    fn new<I: Read + Drop + Send + 'static, F: Fn(R, Global, NodeId, Inlet) -> U>(
        rt: &R,
        config: &Config,
        size: GroupSize,
        input: Option<I>,
        hands: &F,
        made: &mut Made,
    ) -> Result<Self, RunFault>
    where
        R::Dir: 'static,
        requires callable { F.IsAlwaysCallable hands.now }
        requires group { IsGroupSize (length config.now.listen.items) }
        requires folders { 1 ≤ length config.now.store.items }
    {
        let alloc = rt.alloc();
        let NodeJournals {
            opened,
            absent,
            setup,
        } = journals(rt, config, size, made)?;
        let watch = watch_of(rt, config, &opened)?;
        let errors = JournalErrors::of(alloc, &opened)?;
        errors.note(&absent);
        let rate = rate_of(alloc, &opened, time_of_day(rt))?;
        let mut edge = Edge::new(rt, config)?;
        // a node that starts saves its run, so what may be refused comes first
        let driver = edge.open(rt, config, size, &absent)?;
        let stores = stores(rt, config, opened, &setup, &errors)?;
        let parts = parts(rt, &edge.inlets, stores, hands)?;
        let running = Running::start(rt, config, size, parts, &errors)?;
        let telling = Telling::over(*rt, config.log, errors, Growth::new(rate));
        match edge.watch(rt, input) {
            Ok(reader) => Ok(Started {
                edge,
                running,
                driver,
                telling,
                watch,
                reader,
            }),
            Err(fault) => {
                running.stop(rt);
                Err(fault)
            }
        }
    }

    /// Serves clients and the server until the input ends. Returns what the nodes did, node 1's
    /// first. If the journals are no longer at their paths, a line was written to standard error
    /// that names the folder and says what to do.
    fn serve(self, rt: &R, config: &Config) -> Result<Vec<TowerRecord>, RunFault> {
        let Started {
            edge,
            running,
            driver,
            telling,
            watch,
            reader,
        } = self;
        let (mut edge, mut running, mut driver) = (edge, running, driver);
        let (mut telling, mut watch) = (telling, watch);
        let ran = run_loop(
            rt,
            rt.alloc(),
            TICK,
            &mut driver,
            &mut edge.sockets,
            &mut running,
            &edge.messages,
            &mut watch,
            &mut telling,
        );
        let records = running.stop(rt);
        if ran == Err(LoopFault::Store) {
            tell_away(rt, config.store.as_slice());
        }
        ran.map_err(RunFault::of_loop)?;
        if let Some(reader) = reader {
            reader.join(rt);
        }
        Ok(records)
    }
}

/// The sockets, and what other threads send to the loop.
#[derive(Drop)]
struct Edge {
    sockets: Sockets,
    messages: Receiver<LoopMessage>,
    inlets: Inlets,
}

impl Edge {
    /// No node listens yet, and nothing was logged.
    fn new<R: System>(rt: &R, config: &Config) -> Result<Edge, RunFault>
        ensures { IfErr result (IsOrMemory RunFault.Socket) }
    {
        let alloc = rt.alloc();
        let sockets = Sockets::new(alloc, rt, address_of(config.upstream)).map_err(socket_fault)?;
        let waker = sockets.waker().map_err(socket_fault)?;
        let waker = Arc::new(alloc, waker).map_err(|_| RunFault::Memory)?;
        let (to_loop, messages) = unbounded(alloc)?;
        let inlets = Inlets {
            messages: to_loop,
            waker,
        };
        Ok(Edge {
            sockets,
            messages,
            inlets,
        })
    }

    /// Listens, except for the nodes that are absent. `Write` is returned at once if the record
    /// could not be written at the end.
    fn open<R: System>(
        &mut self,
        rt: &R,
        config: &Config,
        size: GroupSize,
        absent: &[Absent],
    ) -> Result<Driver, RunFault>
        ensures { IfErr result (λ f. IsOrMemory RunFault.Socket f ⊎ (f ≡ RunFault.Write)) }
    {
        let alloc = rt.alloc();
        let now = Clockwork::start(rt)
            .map_err(socket_fault)?
            .now(rt)
            .map_err(socket_fault)?;
        let telling = Telling::new(*rt, config.log);
        warn(&now, config, &telling);
        listen_all(rt, config, &now, &mut self.sockets, &telling)?;
        for one in absent {
            self.sockets.begin_down(one.node);
        }
        try_record(rt, config)?;
        Ok(Driver::new(alloc, settings_of(alloc, config, size)?, &now))
    }

    /// The thread that reads the input, if there is one to be read.
    fn watch<R: System, I: Read + Drop + Send + 'static>(
        &self,
        rt: &R,
        input: Option<I>,
    ) -> Result<Option<JoinHandle<()>>, RunFault>
        ensures { IfErr result (λ f. f ≡ RunFault.Memory) }
    {
        let Some(input) = input else {
            return Ok(None);
        };
        match watch_input(rt, input, self.inlets.one()?) {
            Some(reader) => Ok(Some(reader)),
            None => Err(RunFault::Memory),
        }
    }
}

/// What it means to the program that the sockets or the clock fail.
fn socket_fault(error: io::Error) -> RunFault
    ensures { IsOrMemory RunFault.Socket result }
{
    RunFault::of_error(&error, RunFault::Socket)
}
