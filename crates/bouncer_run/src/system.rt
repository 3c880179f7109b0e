//! All that the system is asked for.
use std::fs::File;
use std::net::Net;
use std::rt::Runtime;
use std::sync::Wait;
use std::thread::Threads;

/// All that the system is asked for. What lists a folder may go to another thread: a node that is
/// opened late opens its journal in its worker's thread.
pub trait System: Runtime<File = File, Dir: Send>
    + AllocGlobal
    + Threads
    + Wait
    + Net
    + Copy
    + Send
    + Sync
    + 'static {}

impl<R> System for R
where
    R: Runtime<File = File, Dir: Send>
        + AllocGlobal
        + Threads
        + Wait
        + Net
        + Copy
        + Send
        + Sync
        + 'static,
{}
