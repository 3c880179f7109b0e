//! Bytes that wait to be written.
ghost use Rattle.std.specs.Prelude.{◌≡◌, ◌≤◌, ◌++◌, ◌==◌, [], drop, length, OnErr, OnOk};
ghost use Rattle.bouncer_run.specs.Moving.{Moves};

use std::alloc::{AllocError, Global};
use std::io::{ErrorKind, Write};
use std::marker::Model;

/// How far a writer took what waits.
#[derive(Clone, Copy, Debug, PartialEq, Eq)]
pub enum Sent {
    /// It took all.
    All,
    /// It takes no more for now.
    Some,
    /// It takes nothing any more.
    Broken,
}

/// Bytes that wait to be written, in the order in which they came.
///
/// A clause sees them as a list.
#[derive(Drop)]
pub struct Outgoing {
    bytes: Vec<u8>,
    /// How many of the first bytes were written.
    written: usize,
}

impl Model for Outgoing {
    ghost use Rattle.std.specs.Prelude.{◌≤◌, ℕ, List, drop, length};

    ghost Value = { List ℕ };

    ghost view = { λ o. drop o.written o.bytes.items };

    ghost invariant = { λ o. o.written ≤ length o.bytes.items };
}

impl Outgoing {
    /// Nothing waits.
    pub fn new(alloc: Global) -> Outgoing
        ensures { result ≡ [] }
    {
        Outgoing {
            bytes: Vec::new(alloc),
            written: 0,
        }
    }

    /// How many bytes wait.
    pub fn len(&self) -> usize
        ensures { result ≡ length self.now }
    {
        self.bytes.len() - self.written
    }

    /// Whether nothing waits.
    pub fn is_empty(&self) -> bool
        ensures { result ≡ (length self.now == 0) }
    {
        self.len() == 0
    }

    /// More bytes wait, after those that do.
    pub fn push(&mut self, bytes: &[u8]) -> Result<(), AllocError>
        ensures ok { OnOk result (self.new ≡ self.old ++ bytes.now) }
        ensures err { OnErr result (self.new ≡ self.old) }
    {
        self.bytes.extend_from_slice(bytes)
    }

    /// Writes what waits, as far as the writer takes it. What it took leaves the front, and nothing
    /// else.
    #[tactic(auto, using(crate::proofs::Movements::moves_both, crate::proofs::Movements::stays))]
    pub fn write_to<W: Write>(&mut self, writer: &mut W) -> Sent
        ensures moves { Moves self.old self.new (W.contents writer.old) (W.contents writer.new) }
        ensures all { result ≡ Sent.All → self.new ≡ [] }
    {
        for _ in 0..u64::MAX {
            if self.is_empty() {
                return Sent::All;
            }
            match self.write_once(writer) {
                Ok(0) => return Sent::Broken,
                Ok(_) => {}
                Err(ErrorKind::WouldBlock) => return Sent::Some,
                Err(ErrorKind::Interrupted) => {}
                Err(_) => return Sent::Broken,
            }
        }
        Sent::Some
    }

    /// One write of what waits. Returns how much was taken.
    #[tactic(auto, using(crate::proofs::Movements::moves_taken, crate::proofs::Movements::stays))]
    fn write_once<W: Write>(&mut self, writer: &mut W) -> Result<usize, ErrorKind>
        ensures { Moves self.old self.new (W.contents writer.old) (W.contents writer.new) }
    {
        match writer.write(self.waiting()) {
            Ok(count) => {
                self.forget(count);
                Ok(count)
            }
            Err(error) => Err(error.kind()),
        }
    }

    /// The bytes that wait.
    fn waiting(&self) -> &[u8]
        ensures { result.now ≡ self.now }
    {
        &self.bytes[self.written..]
    }

    /// This many bytes were written.
    fn forget(&mut self, count: usize)
        requires { count ≤ length self.old }
        ensures { self.new ≡ drop count self.old }
    {
        self.written += count;
        self.make_room();
    }

    /// Forgets what was written once it is no less than what waits, so that moving costs no more
    /// than writing did.
    fn make_room(&mut self)
        ensures { self.new ≡ self.old }
    {
        if self.written >= self.len() {
            self.bytes.drain(..self.written);
            self.written = 0;
        }
    }
}
