//! One call, while it runs: what it has done so far is kept apart from the gate, so that a call
//! that runs out of memory leaves nothing done.
ghost use Rattle.std.specs.Prelude.{◌≡◌, ◌≤◌, [], ◌^◌, ◌<◌, false, IsTrue, OnOk, codes, map};
ghost use Rattle.client_gate.specs.Replies.{reply, status};
ghost use Rattle.client_gate.specs.Outcomes.{IsOutcome};
ghost use Rattle.client_gate.specs.Turns.{asked, closed, has_room, left, moved, noted, numbered_next, written, IsWithin, Progress, has_left};

use crate::phase::Phase;
use crate::request::Request;
use crate::status_word::StatusWord;
use crate::writing::{push_reply, push_status};
use buffer_commands::Action;
use irc_line::Name;
use std::alloc::{AllocError, Global};
use std::marker::Model;
use wire_bytes::{LAST_NUMBER, Number};

/// How many requests may wait, apart from Leave.
// each is held in memory until it is done, and a person who pastes sends fewer at once
pub const MOST_WAITING: usize = 100;

const TOO_MANY: &[u8] = b"Too many requests waiting.";

/// What a call has done so far.
#[derive(Drop)]
pub struct Turn {
    phase: Phase,
    /// How many requests wait, including those of this call.
    waiting: usize,
    /// The number of the last request, 0 before the first.
    numbered: u64,
    requests: Vec<Request>,
    reply: Vec<u8>,
    /// The words to the bouncer that made no request.
    words: Vec<StatusWord>,
    close: bool,
}

/// What remains of a call that is over.
#[derive(Drop)]
pub struct Outcome {
    pub phase: Phase,
    pub numbered: u64,
    pub requests: Vec<Request>,
    pub reply: Vec<u8>,
    pub words: Vec<StatusWord>,
    pub close: bool,
}

impl Model for Turn {
    ghost use Rattle.client_gate.specs.Turns.{Progress, IsWithin};

    ghost Value = { Progress };

    ghost view = { λ t. record {
      phase = t.phase;
      waiting = t.waiting;
      numbered = t.numbered;
      requests = t.requests.items;
      reply = t.reply.items;
      words = t.words.items;
      close = t.close;
    } };

    ghost invariant = { λ t. IsWithin t.phase t.waiting t.numbered };
}

impl Turn {
    /// The turn of a call that has done nothing yet.
    pub fn new(alloc: Global, phase: Phase, waiting: usize, numbered: u64) -> Turn
        requires { IsWithin phase waiting numbered }
        ensures { result ≡ record {
          phase = phase;
          waiting = waiting;
          numbered = numbered;
          requests = [];
          reply = [];
          words = [];
          close = false;
        } }
    {
        Turn {
            phase,
            waiting,
            numbered,
            requests: Vec::new(alloc),
            reply: Vec::new(alloc),
            words: Vec::new(alloc),
            close: false,
        }
    }

    pub fn phase(&self) -> &Phase
        ensures { result.now ≡ self.now.phase }
    {
        &self.phase
    }

    pub fn is_closed(&self) -> bool
        ensures { result ≡ self.now.close }
    {
        self.close
    }

    /// Whether one more request may wait, and there is a number for it.
    fn has_room(&self) -> bool
        ensures { result ≡ has_room self.now }
    {
        self.waiting < MOST_WAITING && self.numbered + 1 < LAST_NUMBER
    }

    /// Numbers a request; if there is no room for it, says so to the client.
    pub fn ask(&mut self, nick: &Name, action: Action) -> Result<(), AllocError>
        ensures { OnOk result (self.new ≡ asked nick.now action self.old) }
    {
        if self.has_room() {
            self.push(action)
        } else {
            self.tell(nick, TOO_MANY)
        }
    }

    /// Numbers a request, for which there is room.
    fn push(&mut self, action: Action) -> Result<(), AllocError>
        requires { IsTrue (has_room self.old) }
        ensures { OnOk result (self.new ≡ numbered_next action self.old) }
    {
        self.requests.push(Request {
            number: Number::new(self.numbered + 1),
            action,
        })?;
        self.waiting += 1;
        self.numbered += 1;
        Ok(())
    }

    /// Numbers the client's last request.
    pub fn leave(&mut self) -> Result<(), AllocError>
        requires { has_left self.old.phase ≡ false }
        ensures { OnOk result (self.new ≡ left self.old) }
    {
        self.requests.push(Request {
            number: Number::new(self.numbered + 1),
            action: Action::Leave,
        })?;
        self.waiting += 1;
        self.numbered += 1;
        self.phase = Phase::Left;
        Ok(())
    }

    /// Sets how far the client has come.
    pub fn move_to(&mut self, phase: Phase)
        requires old { has_left self.old.phase ≡ false }
        requires new { has_left phase ≡ false }
        ensures { self.new ≡ moved phase self.old }
    {
        self.phase = phase;
    }

    /// Closes the connection after what was written.
    pub fn close(&mut self)
        ensures { self.new ≡ closed self.old }
    {
        self.close = true;
    }

    /// Writes a line of the bouncer itself.
    pub fn reply(&mut self, command: &[u8], parameters: &[&[u8]]) -> Result<(), AllocError>
        ensures { OnOk result (self.new ≡
            written (reply command.now (map (λ x. x.now) parameters.now)) self.old) }
    {
        push_reply(&mut self.reply, command, parameters)
    }

    /// Sends the client a text of the bouncer itself.
    pub fn tell(&mut self, nick: &Name, text: &[u8]) -> Result<(), AllocError>
        ensures { OnOk result (self.new ≡ written (status nick.now text.now) self.old) }
    {
        push_status(&mut self.reply, nick, text)
    }

    /// Notes words to the bouncer that made no request.
    pub fn note(&mut self, word: StatusWord) -> Result<(), AllocError>
        ensures { OnOk result (self.new ≡ noted word self.old) }
    {
        self.words.push(word)?;
        Ok(())
    }

    /// The outcome of the call.
    pub fn finish(self) -> Outcome
        ensures outcome { IsOutcome self result }
        ensures within { IsWithin result.phase self.waiting result.numbered }
    {
        let Turn {
            phase,
            waiting: _,
            numbered,
            requests,
            reply,
            words,
            close,
        } = self;
        Outcome {
            phase,
            numbered,
            requests,
            reply,
            words,
            close,
        }
    }
}
