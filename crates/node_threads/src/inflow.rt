//! Where a worker takes its jobs.

use crossbeam_channel::{Receiver, TryRecvError};
use std::sync::Wait;

/// What comes next.
#[derive(Drop)]
pub enum Next<J> {
    Job(J),
    /// Nothing is there now.
    Nothing,
    /// Nothing will come any more.
    Over,
}

/// Gives jobs, one after the other. What is proved of those who take them is proved over any inflow: only `next` says
/// that a job came.
pub trait Inflow<J> {
    ghost use Rattle.std.specs.Prelude.{Bool};
    ghost use Rattle.node_threads.specs.declared.inflow.Next.{Next};

    /// It gave this next, and might or might not wait for it, and is in this state since.
    ghost gives: { Self → Bool → Next J → Self → Type 0 };

    /// Waits for a job if it may.
    fn next<R: Wait>(&mut self, rt: &R, may_wait: bool) -> Next<J>
        ensures { gives self.old may_wait result self.new };
}

impl<J: Drop> Inflow<J> for Receiver<J> {
    // no clause says what comes out of a channel
    ghost gives = { λ _ _ _ _. Unit {0} };

    fn next<R: Wait>(&mut self, rt: &R, may_wait: bool) -> Next<J> {
        if may_wait {
            return match self.recv(rt) {
                Ok(job) => Next::Job(job),
                Err(_) => Next::Over,
            };
        }
        match self.try_recv(rt) {
            Ok(job) => Next::Job(job),
            Err(TryRecvError::Empty) => Next::Nothing,
            Err(TryRecvError::Disconnected) => Next::Over,
        }
    }
}
