ghost use Rattle.std.specs.Prelude.{◌≡◌, ◌≤◌, ◌∷◌, [], List, length, IfOk, IsOk, MatchResult, OnErr, OnOk, false, true};
ghost use Rattle.client_gate.specs.Turns.{IsWithin, request, waiting_room};
ghost use Rattle.wire_bytes.specs.Limits.{number_limit};

mod hearing;

use crate::fed::Fed;
use crate::password::Password;
use crate::phase::{Arrival, Phase};
use crate::request::Request;
use crate::serve::serve_all;
use crate::settings::Settings;
use crate::turn::{MOST_WAITING, Outcome, Turn};
use crate::waiting::{copies, is_first_answered, push_all};
use buffer_commands::{Action, Effect};
use circular_buffer::HeapCircularBuffer;
use irc_line::{Item, Name, Splitter};
use request_once::Answer;
use session_fence::FenceEffect;
use std::alloc::{AllocError, Global};
use std::marker::Model;
use upstream_claim::ClaimsEffect;
use wire_bytes::{Number, Origin, copied_all};

/// The effects of the requests of clients.
pub type GateEffect = Answer<ClaimsEffect<FenceEffect<Effect>>>;

/// The number of a client's first request.
const FIRST: u64 = 1;

/// Room for the requests that may wait, and for a Leave.
const ROOM: usize = MOST_WAITING + 1;

/// Speaks IRC to one client.
///
/// A call that runs out of memory numbers no request and closes the gate; its caller closes the
/// connection. A closed gate takes no more bytes, but it still gets the effects of its requests.
#[derive(Drop)]
pub struct ClientGate {
    alloc: Global,
    settings: Settings,
    splitter: Splitter,
    phase: Phase,
    /// The requests that are not known to be done, in order of their numbers.
    waiting: HeapCircularBuffer<Request>,
    /// The number of the last request, 0 before the first.
    numbered: u64,
    closed: bool,
}

impl Model for ClientGate {
    ghost use Rattle.std.specs.Prelude.{◌≡◌, length};
    ghost use Rattle.client_gate.specs.Turns.{IsWithin, waiting_room};
    ghost use Rattle.client_gate.specs.Calls.{Held};

    ghost Value = { Held };

    ghost view = { λ g. record {
      settings = g.settings;
      gate = record {
        phase = g.phase;
        waiting = g.waiting.items;
        numbered = g.numbered;
        closed = g.closed;
      };
      bytes = g.splitter;
    } };

    ghost invariant = { λ g. (g.waiting.capacity ≡ waiting_room)
        × IsWithin g.phase (length g.waiting.items) g.numbered };
}

impl ClientGate {
    ghost use Rattle.client_gate.specs.declared.settings.Settings.{Settings};
    ghost use Rattle.client_gate.specs.Answers.{given_in};
    ghost use Rattle.client_gate.specs.Calls.{Call, End, Feed, Hear, KeepsGate, Refused, Stands, Takes, fed_answer, gate};
    ghost use Rattle.client_gate.specs.Gates.{WritesNothing, after_end, after_items, begun, given_effect, given_items, is_first_answered, is_turned_down, last_request, shut};
    ghost use Rattle.client_gate.specs.Made.{made};
    ghost use Rattle.client_gate.specs.Outcomes.{HasPlace, IsOutcome, kept_of};
    ghost use Rattle.client_gate.specs.Serving.{all_fed};

    /// The gate of a client's connection, for a client that must send this password, and that is
    /// addressed by this nick.
    pub fn new(
        alloc: Global,
        origin: Origin,
        password: Vec<u8>,
        nick: Name,
    ) -> Result<ClientGate, AllocError>
        ensures { IfOk result (λ g. Stands (made origin password.items nick) [] g) }
    {
        Ok(ClientGate {
            alloc,
            settings: Settings {
                origin,
                password: Password::new(password),
                nick,
            },
            splitter: Splitter::new(alloc),
            phase: Phase::Arriving(Arrival {
                password: None,
                nick: false,
                user: false,
            }),
            waiting: HeapCircularBuffer::with_capacity(alloc, ROOM)?,
            numbered: 0,
            closed: false,
        })
    }

    /// Takes bytes of the client, however they are cut. A closed gate takes and allocates nothing.
    pub fn feed(&mut self, bytes: &[u8]) -> Result<Fed, AllocError>
        ensures stands { (s : Settings) (calls : List Call) → Stands s calls self.old →
            MatchResult result (λ _. Stands s (Feed bytes.now ∷ calls) self.new)
            (λ _. Stands s (Refused ∷ calls) self.new) }
        ensures answer { (s : Settings) (calls : List Call) → Stands s calls self.old →
            IfOk result (λ fed. given_in fed ≡ fed_answer s calls bytes.now) }
        ensures closed { self.old.gate.closed ≡ true → IsOk result }
    {
        if self.is_closed() {
            return Ok(Fed::nothing(self.alloc));
        }
        match self.take(bytes) {
            Ok(fed) => Ok(fed),
            Err(error) => {
                self.shut();
                Err(error)
            }
        }
    }

    /// Takes an effect of a request, of this client or of another. It allocates only where the
    /// client is sent something.
    pub fn on_effect(&mut self, effect: &GateEffect) -> Result<Fed, AllocError>
        ensures stands { (s : Settings) (calls : List Call) → Stands s calls self.old →
            MatchResult result (λ _. Stands s (Hear effect.now ∷ calls) self.new)
            (λ _. Stands s (Refused ∷ calls) self.new) }
        ensures answer { IfOk result (λ fed.
            given_in fed ≡ given_effect self.old.settings effect.now) }
        ensures memory { WritesNothing effect.now → IsOk result }
    {
        match self.hear(effect) {
            Ok(fed) => Ok(fed),
            Err(error) => {
                self.shut();
                Err(error)
            }
        }
    }

    /// The requests that are not known to be done, in order, to be asked again.
    pub fn again(&self) -> Result<Vec<Request>, AllocError>
        ensures answer { (s : Settings) (calls : List Call) → Stands s calls self.now →
            IfOk result (λ v. v.items ≡ (gate s calls).waiting) }
        ensures limits { let g = self.now.gate in IsWithin g.phase (length g.waiting) g.numbered }
    {
        copies(self.alloc, &self.waiting)
    }

    /// How many requests are not known to be done.
    pub fn waiting(&self) -> usize
        ensures answer { (s : Settings) (calls : List Call) → Stands s calls self.now →
            result ≡ length (gate s calls).waiting }
        ensures limit { result ≤ waiting_room }
    {
        self.waiting.len()
    }

    /// Whether the client's first request, by which it attaches, is not known to be done.
    pub fn is_attaching(&self) -> bool
        ensures { (s : Settings) (calls : List Call) → Stands s calls self.now →
            result ≡ is_first_answered 1 (gate s calls).waiting }
    {
        is_first_answered(&self.waiting, FIRST)
    }

    /// Whether the client's password was checked and did not let it in.
    pub fn is_turned_down(&self) -> bool
        ensures { (s : Settings) (calls : List Call) → Stands s calls self.now →
            result ≡ is_turned_down (gate s calls).phase }
    {
        match &self.phase {
            Phase::Arriving(arrival) => arrival.nick && arrival.user,
            Phase::Attached | Phase::Left => false,
        }
    }

    /// Ends the gate of a connection that is gone. Returns the Leave of a client that attached and
    /// did not leave, and nothing else. It allocates nothing.
    pub fn end(&mut self) -> Option<Request>
        ensures stands { (s : Settings) (calls : List Call) → Stands s calls self.old →
            Stands s (End ∷ calls) self.new }
        ensures answer { (s : Settings) (calls : List Call) → Stands s calls self.old →
            result ≡ last_request (gate s calls) }
    {
        self.hang_up()
    }

    fn hang_up(&mut self) -> Option<Request>
        ensures gate { self.new ≡ record self.old { gate = after_end self.old.gate } }
        ensures answer { result ≡ last_request self.old.gate }
    {
        self.closed = true;
        match &self.phase {
            Phase::Attached => {}
            Phase::Arriving(_) | Phase::Left => return None,
        }
        self.phase = Phase::Left;
        self.numbered += 1;
        self.waiting.push_back(leave(self.numbered));
        Some(leave(self.numbered))
    }

    fn is_closed(&self) -> bool
        ensures { result ≡ self.now.gate.closed }
    {
        self.closed
    }

    /// Takes no more bytes.
    fn shut(&mut self)
        ensures { self.new ≡ record self.old { gate = shut self.old.gate } }
    {
        self.closed = true;
    }

    /// Takes bytes where the gate is open.
    fn take(&mut self, bytes: &[u8]) -> Result<Fed, AllocError>
        requires { self.old.gate.closed ≡ false }
        ensures taken { IfOk result (λ fed. Takes self.old bytes.now (given_in fed) self.new) }
        ensures err { OnErr result (KeepsGate self.old self.new) }
    {
        let items = self.splitter.feed(bytes)?;
        self.serve(items.as_slice())
    }

    /// Takes items where the gate is open.
    fn serve(&mut self, items: &[Item]) -> Result<Fed, AllocError>
        requires { self.old.gate.closed ≡ false }
        ensures answer { IfOk result (λ fed.
            given_in fed ≡ given_items self.old.settings self.old.gate items.now) }
        ensures gate { OnOk result (self.new ≡ record self.old
            { gate = after_items self.old.settings self.old.gate items.now }) }
        ensures err { OnErr result (self.new ≡ self.old) }
    {
        let outcome = self.outcome_of(items)?;
        let requests = copied_all(self.alloc, outcome.requests.as_slice())?;
        Ok(self.keep(outcome, requests))
    }

    /// The outcome of a call that takes these items; the gate is as before.
    fn outcome_of(&self, items: &[Item]) -> Result<Outcome, AllocError>
        ensures outcome { IfOk result (λ o.
            IsOutcome (all_fed self.now.settings (begun self.now.gate) items.now) o) }
        ensures room { IfOk result (λ o. HasPlace self.now.gate o) }
    {
        let phase = self.phase.copy(self.alloc)?;
        let mut turn = Turn::new(self.alloc, phase, self.waiting.len(), self.numbered);
        serve_all(self.alloc, &mut turn, &self.settings, items)?;
        Ok(turn.finish())
    }

    /// Keeps what a call has done, and returns its answer with copies of its requests.
    fn keep(&mut self, outcome: Outcome, requests: Vec<Request>) -> Fed
        requires { HasPlace self.old.gate outcome }
        ensures gate { self.new ≡ record self.old { gate = kept_of self.old.gate outcome } }
        ensures answer { given_in result ≡ record
            { requests = requests.items; reply = outcome.reply.items; words = outcome.words.items; close = outcome.close } }
    {
        let Outcome {
            phase,
            numbered,
            requests: asked,
            reply,
            words,
            close,
        } = outcome;
        push_all(&mut self.waiting, asked);
        self.phase = phase;
        self.numbered = numbered;
        self.closed = close;
        Fed {
            requests,
            reply,
            words,
            close,
        }
    }
}

/// The request of a client that leaves.
fn leave(number: u64) -> Request
    requires { number ≤ number_limit }
    ensures { result ≡ request number Action.Leave }
{
    Request {
        number: Number::new(number),
        action: Action::Leave,
    }
}
