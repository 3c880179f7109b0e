//! A connection, with what is still to be written to it.
ghost use Rattle.std.specs.Prelude.{◌≡◌, ◌&&◌, ◌==◌, [], not, false, length, IfOk, IsTrue};
ghost use Rattle.bouncer_run.specs.Connections.{ended, gathered, is_ending, is_late, is_later};
ghost use Rattle.bouncer_run.specs.Connections.{may_wait, phase_after, took};
ghost use Rattle.bouncer_run.specs.Hearing.{HasGiven};
ghost use Rattle.bouncer_run.specs.Moving.{Moves};

use crate::outgoing::{Outgoing, Sent};
use driver::Ending;
use std::alloc::{AllocError, Global};
use std::io::{ErrorKind, Read, Write};

/// The most bytes that may wait to be written to one connection: a client that leaves so much
/// unread is not there to read it, and what waits is held in memory.
const MOST_UNSENT: usize = 4_194_304;

/// How long a connection that is to be closed may take no byte, in milliseconds: one that takes
/// none for so long is not read by anyone, and would keep its place for good.
const LONGEST_END: u64 = 60_000;

/// What a read gave.
pub enum Got {
    /// This many bytes.
    Bytes(usize),
    /// Nothing yet.
    Nothing,
    /// The connection is gone, and why.
    End(Ending),
    /// It was not read: the notes that it would bring have to wait.
    Later,
}

/// How far a connection was read.
pub enum Reading {
    /// All that came was read, or the system reports the rest.
    Done,
    /// The rest has to wait.
    Later,
    /// As much as is read at once: more may wait.
    More,
    /// Read to its end, and why the connection is gone.
    Ended(Ending),
}

/// Whether a connection is to be closed.
#[derive(Clone, Copy, Debug, PartialEq, Eq)]
pub enum Phase {
    Open,
    /// Once all is written. At this moment, in milliseconds, it was to be closed, or last took a
    /// byte.
    Ending(u64),
}

/// Whether a connection takes bytes.
#[derive(Clone, Copy, Debug, PartialEq, Eq)]
pub enum Flow {
    /// As far as is known.
    Free,
    /// Not for now. The system reports when it does.
    Full,
    /// Never again.
    Broken,
}

/// A connection, with what is still to be written to it.
#[derive(Drop)]
pub struct Connection<S: Read + Write + Drop> {
    pub stream: S,
    unsent: Outgoing,
    phase: Phase,
    flow: Flow,
}

impl<S: Read + Write + Drop> Connection<S> {
    pub fn new(alloc: Global, stream: S) -> Connection<S>
        ensures empty { result.unsent ≡ [] }
        ensures phase { is_ending result.phase ≡ false }
    {
        Connection {
            stream,
            unsent: Outgoing::new(alloc),
            phase: Phase::Open,
            flow: Flow::Free,
        }
    }

    /// Reads what came, as much as the buffer takes.
    pub fn read(&mut self, buffer: &mut [u8]) -> Got
        ensures later { is_later result ≡ false }
        ensures gives { HasGiven (S.remaining self.old.stream) (S.remaining self.new.stream)
            result buffer.new }
        ensures rest { self.new ≡ record self.old { stream = self.new.stream } }
    {
        match self.stream.read(buffer) {
            Ok(0) => Got::End(Ending::ByServer),
            Ok(count) => Got::Bytes(count),
            Err(error) => match error.kind() {
                ErrorKind::WouldBlock | ErrorKind::Interrupted => Got::Nothing,
                kind => Got::End(ending_of(kind)),
            },
        }
    }

    /// Bytes are to be written, after those that wait; not if the connection is to be closed.
    /// Returns whether the connection is still there: it is not if too much would wait.
    pub fn write(&mut self, bytes: &[u8]) -> Result<bool, AllocError>
        ensures stands { IfOk result (λ stands.
            stands ≡ may_wait self.old.phase self.old.unsent bytes.now) }
        ensures waits { IfOk result (λ stands. IsTrue stands
            → self.new.unsent ≡ gathered self.old.phase self.old.unsent bytes.now) }
        ensures rest { self.new ≡ record self.old { unsent = self.new.unsent } }
    {
        if self.is_ending() {
            return Ok(true);
        }
        if self.unsent.len().saturating_add(bytes.len()) > MOST_UNSENT {
            return Ok(false);
        }
        self.unsent.push(bytes)?;
        Ok(true)
    }

    /// Whether something waits to be written.
    pub fn has_unsent(&self) -> bool
        ensures { result ≡ not (length self.now.unsent == 0) }
    {
        !self.unsent.is_empty()
    }

    /// Whether nothing waits to be written, and it is not to be closed.
    pub fn is_idle(&self) -> bool
        ensures { result ≡ (not (is_ending self.now.phase) && (length self.now.unsent == 0)) }
    {
        !self.is_ending() && self.unsent.is_empty()
    }

    /// Whether something waits that may be taken.
    pub fn is_waiting(&self) -> bool {
        self.flow == Flow::Free && !self.unsent.is_empty()
    }

    /// Writes what waits, as far as it is taken at this moment. Returns whether any of it still may
    /// be taken.
    pub fn flush(&mut self, ms: u64) -> bool
        ensures moves { Moves self.old.unsent self.new.unsent
            (S.contents self.old.stream) (S.contents self.new.stream) }
        ensures phase { self.new.phase ≡ phase_after ms
            (length self.old.unsent) (length self.new.unsent) self.old.phase }
        ensures ending { is_ending self.new.phase ≡ is_ending self.old.phase }
    {
        let waited = self.unsent.len();
        let sent = self.unsent.write_to(&mut self.stream);
        self.flow = flow_behind(sent);
        if self.unsent.len() < waited {
            self.phase = self.phase.took(ms);
        }
        sent != Sent::Broken
    }

    /// It is to be closed once all is written.
    pub fn end(&mut self, ms: u64)
        ensures phase { self.new.phase ≡ ended ms self.old.phase }
        ensures ending { IsTrue (is_ending self.new.phase) }
        ensures rest { self.new ≡ record self.old { phase = self.new.phase } }
    {
        self.phase = self.phase.ended(ms);
    }

    /// Whether it is to be closed.
    pub fn is_ending(&self) -> bool
        ensures { result ≡ is_ending self.now.phase }
    {
        self.phase != Phase::Open
    }

    /// Whether it is to be closed, and all is written.
    pub fn is_over(&self) -> bool
        ensures { result ≡ (is_ending self.now.phase && (length self.now.unsent == 0)) }
    {
        self.is_ending() && self.unsent.is_empty()
    }

    /// Whether it is to be closed, and has taken no byte for a minute.
    pub fn is_late(&self, ms: u64) -> bool
        ensures { result ≡ is_late self.now.phase ms }
    {
        match self.phase {
            Phase::Open => false,
            Phase::Ending(since) => ms.saturating_sub(since) >= LONGEST_END,
        }
    }
}

impl Phase {
    /// It is to be closed, as of this moment if it was not before.
    fn ended(self, ms: u64) -> Phase
        ensures ended { result ≡ ended ms self }
        ensures ending { IsTrue (is_ending result) }
    {
        match self {
            Phase::Open => Phase::Ending(ms),
            Phase::Ending(since) => Phase::Ending(since),
        }
    }

    /// A byte was taken at this moment.
    fn took(self, ms: u64) -> Phase
        ensures taken { result ≡ took ms self }
        ensures ending { is_ending result ≡ is_ending self }
    {
        match self {
            Phase::Open => Phase::Open,
            Phase::Ending(_) => Phase::Ending(ms),
        }
    }
}

/// Whether a connection takes bytes, after a write got this far.
fn flow_behind(sent: Sent) -> Flow {
    match sent {
        Sent::All => Flow::Free,
        Sent::Some => Flow::Full,
        Sent::Broken => Flow::Broken,
    }
}

/// Why a connection is gone, or was not made, if the system reports this.
pub fn ending_of(kind: ErrorKind) -> Ending {
    match kind {
        ErrorKind::ConnectionRefused => Ending::Refused,
        ErrorKind::HostUnreachable | ErrorKind::NetworkUnreachable => Ending::Unreachable,
        ErrorKind::ConnectionReset => Ending::ByServer,
        _ => Ending::Lost,
    }
}
