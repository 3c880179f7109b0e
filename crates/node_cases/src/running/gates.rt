//! Gates that hold workers.
ghost use Rattle.std.specs.Prelude.{◌<◌};

use crate::running::clusters::{Counter, Flag, MOST_POLLS, flag, rest};
use node_threads::Gate;
use std::alloc::{AllocError, Global};
use std::rt::Clock;
use std::sync::atomic::{AtomicBool, Ordering};
use std::sync::{Arc, Wait};

/// How often a gate looks at node 3 once it is let go, before it lets it pass.
const MORE_POLLS: u64 = 1_000_000;

/// Holds the workers of nodes 1 and 2 at their first turns, each until the other came there, for so
/// many milliseconds at most.
#[derive(Drop)]
pub struct Meeting<C: Clock + Drop> {
    clock: C,
    /// Whether node 1 came, and whether node 2 did.
    came: [AtomicBool; 2],
    /// Whether one of them waited in vain.
    has_failed: Flag,
}

impl<C: Clock + Drop> Meeting<C> {
    pub fn new(clock: C, has_failed: &Flag) -> Result<Meeting<C>, AllocError> {
        Ok(Meeting {
            clock,
            came: [AtomicBool::new(false), AtomicBool::new(false)],
            has_failed: Arc::try_clone(has_failed)?,
        })
    }

    /// The one came, and waits until the other did.
    fn meet(&self, one: usize, other: usize)
        requires { one < 2 × other < 2 }
    {
        self.came[one].store(true, Ordering::SeqCst);
        for _ in 0..MOST_POLLS {
            if self.came[other].load(Ordering::SeqCst) {
                return;
            }
            rest(&self.clock);
        }
        self.has_failed.store(true, Ordering::SeqCst);
    }
}

impl<C: Clock + Drop> Gate for Meeting<C> {
    fn pass<R: Wait>(&self, _rt: &R, node: u8, turn: u64) {
        match (node, turn) {
            (1, 1) => self.meet(0, 1),
            (2, 1) => self.meet(1, 0),
            _ => {}
        }
    }
}

/// How node 3 is let go, and whether it passed.
#[derive(Drop)]
pub struct Hold {
    pub is_let_go: Flag,
    pub has_passed: Flag,
}

impl Hold {
    /// Node 3 is held.
    pub fn new(alloc: Global) -> Result<Hold, AllocError> {
        Ok(Hold {
            is_let_go: flag(alloc)?,
            has_passed: flag(alloc)?,
        })
    }

    /// The same.
    fn twin(&self) -> Result<Hold, AllocError> {
        Ok(Hold {
            is_let_go: Arc::try_clone(&self.is_let_go)?,
            has_passed: Arc::try_clone(&self.has_passed)?,
        })
    }
}

/// Holds the worker of node 3 until it is let go, and then for 1,000,000 polls more.
#[derive(Drop)]
pub struct Holding<C: Clock + Drop> {
    clock: C,
    hold: Hold,
}

impl<C: Clock + Drop> Holding<C> {
    pub fn new(clock: C, hold: &Hold) -> Result<Holding<C>, AllocError> {
        Ok(Holding {
            clock,
            hold: hold.twin()?,
        })
    }

    /// Waits until node 3 is let go, for so many milliseconds at most.
    fn wait(&self) {
        for _ in 0..MOST_POLLS {
            if self.hold.is_let_go.load(Ordering::SeqCst) {
                return;
            }
            rest(&self.clock);
        }
    }
}

impl<C: Clock + Drop> Gate for Holding<C> {
    fn pass<R: Wait>(&self, _rt: &R, node: u8, _turn: u64) {
        if node != 3 || self.hold.has_passed.load(Ordering::SeqCst) {
            return;
        }
        self.wait();
        for _ in 0..MORE_POLLS {
            let _ = self.hold.is_let_go.load(Ordering::SeqCst);
        }
        self.hold.has_passed.store(true, Ordering::SeqCst);
    }
}

/// Holds the worker of node 1 for a millisecond at each turn, and tells how many it came to.
#[derive(Drop)]
pub struct Slow<C: Clock + Drop> {
    clock: C,
    turns: Counter,
}

impl<C: Clock + Drop> Slow<C> {
    pub fn new(clock: C, turns: &Counter) -> Result<Slow<C>, AllocError> {
        Ok(Slow {
            clock,
            turns: Arc::try_clone(turns)?,
        })
    }
}

impl<C: Clock + Drop> Gate for Slow<C> {
    fn pass<R: Wait>(&self, _rt: &R, node: u8, turn: u64) {
        if node == 1 {
            self.turns.store(turn, Ordering::SeqCst);
            rest(&self.clock);
        }
    }
}
