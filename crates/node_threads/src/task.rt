//! Threads that leave something.
ghost use Rattle.std.specs.Prelude.{◌≡◌, IfSome};

use std::sync::Wait;
use std::thread;
use std::thread::{Promise, PromisedHandle, Threads};

/// What a thread does.
pub trait Task: Send + 'static {
    /// What it leaves.
    type Left: Send + Drop + 'static;

    /// What is known of what it leaves.
    ghost leaves: { Self → Self.Left → Type 0 };

    fn run<R: Wait>(self, rt: &R) -> Self::Left
        ensures { leaves self result };
}

/// Runs a task in a thread of its own, if one can be had; else the task is dropped.
pub fn spawn_task<R, T, P>(rt: &R, promise: P, task: T) -> Option<PromisedHandle<T::Left, P>>
where
    R: Threads + Wait + Sync + Send + Copy + 'static,
    T: Task + Drop,
    P: Promise<T::Left> + Drop,
    requires { (left : T.Left) → T.leaves task left → P.kept_by promise left }
    ensures { IfSome result (λ handle. handle.promise ≡ promise) }
{
    let handle = *rt;
    match thread::spawn_with(rt, promise, move || task.run(&handle)) {
        Ok(thread) => Some(thread),
        Err(_) => None,
    }
}
