//! Two threads that trade messages over a queue under a lock.
use crate::fault::TradeFault;
use crate::over_ether::vote;
use crate::tasks::{Task, both};
use std::alloc::{AllocError, Global};
use std::collections::VecDeque;
use std::sync::{Mutex, Wait};
use std::thread::Threads;
use world_views::Envelope;

type Queue = Mutex<VecDeque<Envelope<u8>>>;

/// One thread's part.
#[derive(Drop)]
struct Side<'a, R> {
    rt: &'a R,
    queue: &'a Queue,
    from: u8,
    to: u8,
    rounds: u64,
}

impl<'a, R: Wait + Sync> Task for Side<'a, R> {
    ghost can_run = { λ _. Unit {0} };

    fn run(self) -> Result<u64, AllocError> {
        let mut came = 0u64;
        for round in 0..self.rounds {
            let _ = round;
            self.queue
                .lock(self.rt)
                .push_back(vote(self.from, self.to))?;
            if self.queue.lock(self.rt).pop_front().is_some() {
                came = came.wrapping_add(1);
            }
        }
        Ok(came)
    }
}

/// This many posts and takes of each of two threads. Returns how many messages came.
pub fn trade_over_queue<R: Threads + Wait + Sync>(
    rt: &R,
    alloc: Global,
    rounds: u64,
) -> Result<u64, TradeFault> {
    let queue = Mutex::new(VecDeque::new(alloc));
    let one = Side {
        rt,
        queue: &queue,
        from: 1,
        to: 2,
        rounds,
    };
    let two = Side {
        rt,
        queue: &queue,
        from: 2,
        to: 1,
        rounds,
    };
    let (came, others) = both(rt, one, two);
    Ok(came?.wrapping_add(others?))
}
