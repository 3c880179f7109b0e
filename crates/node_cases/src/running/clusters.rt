//! Clusters over new stores.
use crate::cell::upstream::NoUpstream;
use crate::running::watch::Watch;
use machine_laws::{Hosted, Machine, Marking};
use node_notes::Note;
use node_threads::{Cluster, Part};
use raft_log::{GroupSize, NodeId};
use stable_store::MemoryStore;
use std::alloc::{AllocError, Global};
use std::rt::Clock;
use std::sync::atomic::{AtomicBool, AtomicU64};
use std::sync::{Arc, Wait};
use std::test::Fail;
use std::thread;
use std::time::Duration;

/// A cluster whose stores are in memory.
pub type Crew<M> = Cluster<M, MemoryStore<<M as Machine>::Command>, NoUpstream>;

/// What a node of such a cluster runs with.
pub type Plain<M, O> = Part<MemoryStore<<M as Machine>::Command>, NoUpstream, O>;

/// The number of a client's last request that took effect.
pub type Counter = Arc<AtomicU64, Global>;

/// What several threads look at.
pub type Flag = Arc<AtomicBool, Global>;

/// How often a test looks whether something came about.
pub const MOST_POLLS: u64 = 10_000;

/// How often a node is polled before it is told again that it waited too long for a leader.
const POLLS_A_TIMEOUT: u64 = 1_000;

/// A flag that is down.
pub fn flag(alloc: Global) -> Result<Flag, AllocError> {
    Ok(Arc::new(alloc, AtomicBool::new(false))?)
}

/// A millisecond.
pub fn rest(clock: &impl Clock) {
    thread::sleep(clock, Duration::from_millis(1));
}

/// A counter at 0.
pub fn counter(alloc: Global) -> Result<Counter, AllocError> {
    Ok(Arc::new(alloc, AtomicU64::new(0))?)
}

/// A counter for each node, node 1's first.
pub fn counters(alloc: Global, size: GroupSize) -> Result<Vec<Counter>, AllocError> {
    let mut all = Vec::new(alloc);
    for _ in 0..size.value() {
        all.push(Arc::new(alloc, AtomicU64::new(0))?)?;
    }
    Ok(all)
}

/// What counts there what takes effect, and what is refused.
pub fn watches(
    alloc: Global,
    counters: &[Counter],
    refused: &Counter,
) -> Result<Vec<Watch>, AllocError> {
    let mut all = Vec::new(alloc);
    for counter in counters {
        all.push(Watch {
            done: Arc::try_clone(counter)?,
            refused: Arc::try_clone(refused)?,
        })?;
    }
    Ok(all)
}

/// The parts of nodes over new stores.
pub fn parts<M: Machine, O: Drop>(
    alloc: Global,
    outlets: Vec<O>,
) -> Result<Vec<Plain<M, O>>, AllocError> {
    let mut all = Vec::new(alloc);
    for outlet in outlets {
        all.push(Part {
            store: MemoryStore::new(alloc),
            upstream: NoUpstream::new(),
            outlet,
        })?;
    }
    Ok(all)
}

/// Node 1 is to lead. Gives how often it was told that it waited too long.
pub fn lead<M: Marking, R: Wait + Clock>(rt: &R, crew: &Crew<M>) -> Result<u64, Fail> {
    let first = NodeId::new(1);
    for poll in 0..MOST_POLLS {
        if poll % POLLS_A_TIMEOUT == 0 {
            crew.node(first)?.submit(rt, Note::Timeout(u64::MAX))?;
        }
        if crew.node(first)?.status(rt)?.leads() {
            return Ok(poll / POLLS_A_TIMEOUT + 1);
        }
        rest(rt);
    }
    Err(Fail::from("node 1 does not lead"))
}
