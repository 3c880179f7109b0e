//! The loop.
ghost use Rattle.std.specs.Prelude.{◌≡◌, IfOk, IsTrue, OnOk};
ghost use Rattle.bouncer_run.specs.LoopMessages.{IsHeard, is_end};

use crate::carrying::carry_out_all;
use crate::clock::{Clockwork, Ticks};
use crate::edge_news::EdgeNews;
use crate::inlet::LoopMessage;
use crate::loop_news::tell_edge;
use crate::operator::Operator;
use crate::sockets::Sockets;
use crate::stopping::Stopping;
use crate::store_watch::StoreWatch;
use crossbeam_channel::Receiver;
use driver::{Driver, Now, TowerNote};
use mio::Events;
use raft_log::NodeId;
use std::alloc::{AllocError, Global};
use std::fs::Files;
use std::net::Net;
use std::rt::Clock;
use std::sync::Wait;
use std::time::Duration;
use thiserror::Error;

/// How many sockets are reported at once.
const EVENTS: usize = 256;

/// How many messages are heard before the sockets are looked at again.
const MOST_MESSAGES: usize = 10_000;

/// Why the loop ended early.
#[derive(Clone, Copy, Debug, Drop, PartialEq, Eq, Error)]
pub enum LoopFault {
    /// The journals are no longer at their paths.
    #[error("Store")]
    Store,
    #[error("Socket")]
    Socket,
    #[error("Memory")]
    Memory,
}

impl From<AllocError> for LoopFault {
    ghost use Rattle.std.specs.Prelude.{◌≡◌};
    ghost use Rattle.bouncer_run.specs.declared.event_loop.LoopFault.TheVariants.{Memory};

    ghost from_gives = { λ _ e. e ≡ Memory };

    fn from(_: AllocError) -> Self {
        LoopFault::Memory
    }
}

/// The nodes' workers, as the loop speaks to them. The proofs about the loop hold for any of them:
/// so only `tell` says that a node was sent a note.
pub trait Nodes {
    ghost use Rattle.std.specs.Prelude.{ℕ};
    ghost use Rattle.bouncer_run.specs.Submissions.{TowerNote};

    /// This node was sent this note, and the nodes are as they are since.
    ghost has_told: { Self → ℕ → TowerNote → Self → Type 0 };

    /// Sends a note to a node's worker. Returns whether it was sent: if not, there was no memory,
    /// or the worker ended.
    fn tell<R: Wait>(&mut self, rt: &R, node: NodeId, note: TowerNote) -> bool
        ensures told { IsTrue result → has_told self.old node note self.new };
}

/// Waits for sockets, messages and time to pass, until the bouncer is to end and clients that
/// attached are gone or had time to go; what happens is logged. `Store` if the journals are no
/// longer at their paths.
pub fn run_loop<R: Net + Wait + Clock + Files, N: Nodes, O: Operator>(
    rt: &R,
    alloc: Global,
    tick_ms: u64,
    driver: &mut Driver,
    sockets: &mut Sockets,
    nodes: &mut N,
    messages: &Receiver<LoopMessage>,
    watch: &mut StoreWatch,
    operator: &mut O,
) -> Result<(), LoopFault> {
    let mut events = Events::with_capacity(alloc, EVENTS)?;
    let clock = Clockwork::start(rt).map_err(|_| LoopFault::Socket)?;
    let mut ticks = Ticks::new(tick_ms);
    let mut stopping = Stopping::no();
    let mut now = clock.now(rt).map_err(|_| LoopFault::Socket)?;
    for _ in rt.forever() {
        let wait = Duration::from_millis(ticks.wait(now.ms));
        if sockets.poll.poll(&mut events, Some(wait)).is_err() {
            return Err(LoopFault::Socket);
        }
        now = clock.now(rt).map_err(|_| LoopFault::Socket)?;
        sockets.serve_all(&now, driver, &events)?;
        if hear_messages(rt, &now, driver, messages)? && stopping.begin(now.ms) {
            stop(&now, driver, sockets, operator)?;
        }
        sockets.take_turns(&now, driver)?;
        if ticks.take(now.ms) {
            look(rt, &now, watch)?;
            tick(rt, &now, driver, sockets, operator)?;
        }
        // what the sockets report comes before what the driver made of it
        tell_edge(&now, sockets, operator);
        carry_out_all(rt, &now, driver, sockets, nodes, operator)?;
        tell_edge(&now, sockets, operator);
        if stopping.is_over(now.ms, sockets.clients.is_empty()) {
            break;
        }
    }
    sockets.finish(&now);
    Ok(())
}

/// The input ended: this is logged at once, no more clients are taken, and clients leave.
fn stop<O: Operator>(
    now: &Now,
    driver: &mut Driver,
    sockets: &mut Sockets,
    operator: &mut O,
) -> Result<(), LoopFault> {
    operator.hear_edge(now, EdgeNews::InputEnded);
    sockets.stop_listening();
    driver.end(now)?;
    Ok(())
}

/// Not all journals are away from their paths, as far as a look that is due shows.
fn look<R: Files>(rt: &R, now: &Now, watch: &mut StoreWatch) -> Result<(), LoopFault> {
    if watch.look(rt, now.ms) {
        return Err(LoopFault::Store);
    }
    Ok(())
}

/// Time has passed: the driver and the sockets do what is due, and the operator learns how long the
/// log is.
fn tick<R: Net, O: Operator>(
    rt: &R,
    now: &Now,
    driver: &mut Driver,
    sockets: &mut Sockets,
    operator: &mut O,
) -> Result<(), LoopFault> {
    driver.tick(now)?;
    driver.watch_nodes(now)?;
    driver.watch_log()?;
    driver.watch_passwords(now)?;
    sockets.follow(rt, now, driver)?;
    sockets.tick(now, driver)?;
    if let Some(entries) = driver.log_length() {
        operator.hear_length(now, entries)?;
    }
    Ok(())
}

/// What other threads sent goes to the driver. Returns whether the bouncer is to end.
fn hear_messages(
    rt: &impl Wait,
    now: &Now,
    driver: &mut Driver,
    messages: &Receiver<LoopMessage>,
) -> Result<bool, LoopFault> {
    for _ in 0..MOST_MESSAGES {
        let Ok(message) = messages.try_recv(rt) else {
            break;
        };
        if hear_message(now, driver, message)? {
            return Ok(true);
        }
    }
    Ok(false)
}

/// What another thread sent goes to the driver. Returns whether the bouncer is to end.
fn hear_message(now: &Now, driver: &mut Driver, message: LoopMessage) -> Result<bool, LoopFault>
    ensures heard { OnOk result (IsHeard now.now message driver.old driver.new) }
    ensures over { IfOk result (λ over. over ≡ is_end message) }
{
    match message {
        LoopMessage::Report(report) => driver.hear(now, report)?,
        LoopMessage::Hand(node, line) => driver.hand(node, &line)?,
        LoopMessage::End => return Ok(true),
    }
    Ok(false)
}
