//! A server that says nothing: it is sent a PING, and left if it does not answer.
ghost use Rattle.std.specs.Prelude.{◌≡◌, OnOk};
ghost use Rattle.driver.specs.Servers.{AsksForWord, is_mute, is_quiet, is_silent, is_unasked};

use crate::link::{Link, Session, Stage};
use crate::order::Now;
use crate::orders::Orders;
use crate::timer::Timer;
use std::alloc::AllocError;

/// What a server that says nothing is sent (RFC 2812, 3.7.2).
const PING: &[u8] = b"PING :hukbarg\r\n";

/// How long a server may be silent before it is sent a PING, and how long it has to answer, in milliseconds.
// Most servers send a PING every two minutes. One that is gone is noticed in 150 seconds.
const QUIET: u64 = 75_000;

/// How long a server that has not given the session may be silent, in milliseconds.
// some look up names and ports first
const UNOPENED: u64 = 150_000;

/// How long a server has to close a connection after it was told that the session is over, in milliseconds.
// closing frees the nick, and the next session asks for the same one
pub const TIME_TO_CLOSE: u64 = 1000;

impl Link {
    /// Whether the server was silent for too long, or had its time to close the connection.
    pub fn is_silent(&self, now: &Now) -> bool
        ensures { result ≡ is_silent self.now.stage now.now.ms }
    {
        match &self.stage {
            Stage::Open(session) => session.is_mute(now),
            Stage::Closing(since, _) => since.has_passed(TIME_TO_CLOSE, now.ms),
            Stage::Idle(_, _) | Stage::Connecting(_) => false,
        }
    }

    /// Sends a PING to a server that is quiet.
    pub fn ask_quiet(&mut self, now: &Now, orders: &mut Orders) -> Result<(), AllocError>
        ensures asks { OnOk result (AsksForWord (is_quiet self.old.stage now.now.ms) now.now.ms
            self.old.stage orders.old self.new.stage orders.new) }
        ensures rest { self.new ≡ record self.old { stage = self.new.stage } }
    {
        let Stage::Open(session) = &mut self.stage else {
            return Ok(());
        };
        if !session.is_quiet(now) {
            return Ok(());
        }
        let ping = Vec::from_slice(self.alloc, PING)?;
        orders.send(ping)?;
        session.asked = Some(Timer::from(now.ms));
        Ok(())
    }
}

impl Session {
    /// Whether the server gave the session, was silent for long, and was sent no PING since.
    fn is_quiet(&self, now: &Now) -> bool
        ensures { result ≡ is_unasked self.now now.now.ms }
    {
        self.is_opened && self.asked.is_none() && self.heard.has_passed(QUIET, now.ms)
    }

    /// Whether the server said nothing in the time that it has to answer.
    fn is_mute(&self, now: &Now) -> bool
        ensures { result ≡ is_mute self.now.is_opened self.now.asked self.now.heard now.now.ms }
    {
        match self.asked {
            Some(asked) => asked.has_passed(QUIET, now.ms),
            None => !self.is_opened && self.heard.has_passed(UNOPENED, now.ms),
        }
    }
}
