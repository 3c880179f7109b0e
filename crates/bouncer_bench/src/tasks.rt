//! Two tasks at once.
use std::alloc::AllocError;
use std::marker::Send;
use std::thread::{Threads, join};

/// What one thread does.
pub trait Task: Drop + Send {
    ghost can_run: { Self → Type 0 };

    /// Returns how many messages came.
    fn run(self) -> Result<u64, AllocError>
        requires { can_run self };
}

/// Both at once, each in a thread.
pub fn both<R: Threads, S: Task, T: Task>(
    rt: &R,
    one: S,
    other: T,
) -> (Result<u64, AllocError>, Result<u64, AllocError>)
    requires { S.can_run one × T.can_run other }
{
    join(
        rt,
        move || -> Result<u64, AllocError>
            requires { S.can_run one }
        { one.run() },
        move || -> Result<u64, AllocError>
            requires { T.can_run other }
        { other.run() },
    )
}
