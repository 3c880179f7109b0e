//! The end of the input, which ends a bouncer.
ghost use Rattle.std.specs.Prelude.{◌≡◌, IfOk, IsTrue};
ghost use Rattle.std.specs.Io.KnownBytes.{IsAtEnd};
ghost use Rattle.bouncer_run.specs.declared.ending.InputState.TheVariants.{Ended};

use crate::inlet::{Inlet, LoopMessage};
use mio::unix::SourceFd;
use mio::{Events, Interest, Poll, Token};
use std::alloc::Global;
use std::io::{self, ErrorKind, Read};
use std::net::Net;
use std::os::fd::AsRawFd;
use std::sync::Wait;
use std::thread;
use std::thread::{JoinHandle, Threads};
use std::time::Duration;

/// How many bytes are read at once, and discarded.
const CHUNK: usize = 1024;

/// The state of an input.
#[derive(Clone, Copy, Debug, PartialEq, Eq)]
pub enum InputState {
    /// Its end is not known to have come.
    Open,
    /// It is at its end.
    Ended,
    /// It can't be read.
    Unreadable,
}

/// The state of an input, without waiting for what may still come. What came already may be read,
/// and is discarded.
pub fn look_at<N: Net, I: Read + AsRawFd>(
    net: &N,
    alloc: Global,
    input: &mut I,
) -> io::Result<InputState>
    ensures { IfOk result (λ state. state ≡ Ended → IsAtEnd (I.remaining input.new)) }
{
    if !is_readable(net, alloc, input.as_raw_fd())? {
        return Ok(InputState::Open);
    }
    Ok(read_once(input))
}

/// Whether a read would not wait. What can't be waited for, such as a file, is read at once.
fn is_readable(net: &impl Net, alloc: Global, input: i32) -> io::Result<bool> {
    let mut poll = Poll::new(net)?;
    let mut events = Events::with_capacity(alloc, 1)?;
    let mut source = SourceFd(&input);
    if poll
        .registry()
        .register(&mut source, Token(0), Interest::READABLE)
        .is_err()
    {
        return Ok(true);
    }
    poll.poll(&mut events, Some(Duration::from_millis(0)))?;
    Ok(!events.is_empty())
}

/// The state of an input after one read.
fn read_once<I: Read>(input: &mut I) -> InputState
    ensures { result ≡ Ended → IsAtEnd (I.remaining input.new) }
{
    let mut buffer = [0u8; CHUNK];
    match input.read(&mut buffer) {
        Ok(0) => InputState::Ended,
        Ok(_) => InputState::Open,
        Err(error) => match error.kind() {
            ErrorKind::Interrupted | ErrorKind::WouldBlock => InputState::Open,
            _ => InputState::Unreadable,
        },
    }
}

/// Reads an input in a thread of its own, and tells the loop when it ends. None if no thread can be
/// started.
pub fn watch_input<R, I>(rt: &R, input: I, inlet: Inlet) -> Option<JoinHandle<()>>
where
    R: Threads + Wait + Sync + Send + Copy + 'static,
    I: Read + Drop + Send + 'static,
{
    let handle = *rt;
    match thread::spawn(rt, move || wait_for_end(&handle, input, &inlet)) {
        Ok(thread) => Some(thread),
        Err(_) => None,
    }
}

/// Reads an input to its end, or until it can't be read, and tells the loop.
fn wait_for_end<R: Wait, I: Read + Drop>(rt: &R, input: I, inlet: &Inlet) {
    let mut input = input;
    read_to_end(&mut input);
    let _ = inlet.tell(rt, LoopMessage::End);
}

/// Whether the input was read to its end; if not, it can't be read.
fn read_to_end<I: Read>(input: &mut I) -> bool
    ensures { IsTrue result → IsAtEnd (I.remaining input.new) }
{
    let mut buffer = [0u8; CHUNK];
    for _ in 0..u64::MAX {
        match input.read(&mut buffer) {
            Ok(0) => return true,
            Ok(_) => {}
            Err(error) => if error.kind() != ErrorKind::Interrupted {
                return false;
            },
        }
    }
    false
}
