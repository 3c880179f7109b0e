//! One client's connection.
ghost use Rattle.std.specs.Prelude.{◌≡◌, ◌&&◌, length, nat_le, true, false, IfOk, List, OnOk};
ghost use Rattle.client_gate.specs.Calls.{Call, Stands, gate};
ghost use Rattle.client_gate.specs.Gates.{last_request};
ghost use Rattle.client_gate.specs.declared.settings.Settings.{Settings};
ghost use Rattle.driver.specs.Asking.{is_idle};
ghost use Rattle.driver.specs.Clients.{behind_fed, is_cut, parting_unless, passed};
ghost use Rattle.driver.specs.Rosters.{IsNew, reading_limit};
ghost use Rattle.driver.specs.Serving.{IsLost, IsParted, ReceivesWords, StandsSo, ended_if};
ghost use Rattle.driver.specs.Telling.{ordered};

mod asking;
mod channels;
mod cycling;
mod evicting;
mod farewell;
mod hearing;
mod joining;
mod naming;
mod opening;
mod reading;
mod refusal;
mod silence;
mod word;

use crate::client::asking::asks;
use crate::client::channels::Channels;
use crate::client::refusal::Refusal;
use crate::order::Now;
use crate::orders::Orders;
use crate::timer::Timer;
use client_gate::{ClientGate, Fed, StatusWord};
use irc_line::Name;
pub use joining::{behind_space, joined_as};
use raft_log::NodeId;
use std::alloc::{AllocError, Global};
use wire_bytes::Origin;

/// The most requests that may wait at a client's gate while more is read from the client: a piece of 512 bytes has at
/// most some 42 requests, and the gate takes 100.
const MOST_WAITING: usize = 48;

/// The note in which the oldest waiting request was sent to the node, and when.
#[derive(Clone, Copy)]
struct Asked {
    note: u64,
    at: Timer,
}

/// A client's connection to its node.
#[derive(Drop)]
pub struct Client {
    alloc: Global,
    origin: Origin,
    gate: ClientGate,
    /// The nick that its gate greeted it by.
    nick: Name,
    /// The name by which it attaches, if it gave one.
    name: Option<Name>,
    /// When it connected.
    since: Timer,
    /// When it was last heard from or, once it registered, was last not read.
    heard: Timer,
    /// About what waits; without meaning while nothing waits.
    asked: Asked,
    /// A request was left out, or its node refused a turn, and nothing was done for it since: what waits may be lost.
    is_held_up: bool,
    is_attached: bool,
    channels: Channels,
    /// The channels it had open when it asked to part from them, and has not asked to join since.
    parting: Channels,
    /// It was sent a PING since it was last heard from.
    is_pinged: bool,
    /// Since when it has been leaving, if it is: its last request, Leave, went to its node.
    leaving: Option<Timer>,
    /// Its connection is gone, or is being closed.
    is_gone: bool,
    /// What it is still to be sent, if its password was wrong.
    refused: Option<Refusal>,
}

impl Client {
    /// A client that has just connected.
    pub fn new(alloc: Global, origin: Origin, gate: ClientGate, nick: Name, now: &Now) -> Client
        ensures { IsNew origin gate nick now.now.ms result }
    {
        Client {
            alloc,
            origin,
            gate,
            nick,
            name: None,
            since: Timer::from(now.ms),
            heard: Timer::from(now.ms),
            asked: Asked {
                note: 0,
                at: Timer::from(now.ms),
            },
            is_held_up: false,
            is_attached: false,
            channels: Channels::new(alloc),
            parting: Channels::new(alloc),
            is_pinged: false,
            leaving: None,
            is_gone: false,
            refused: None,
        }
    }

    /// Its origin: which client it is, of which run of which node.
    pub fn origin(&self) -> Origin
        ensures { result ≡ self.now.origin }
    {
        self.origin
    }

    /// The name by which it attaches, if it gave one.
    pub fn name(&self) -> &Option<Name>
        ensures { result.now ≡ self.now.name }
    {
        &self.name
    }

    /// Its node.
    pub fn node(&self) -> NodeId
        ensures { result ≡ self.now.origin.0 }
    {
        NodeId::new(self.origin.node())
    }

    /// Whether it registered at its node.
    pub fn is_attached(&self) -> bool
        ensures { result ≡ self.now.is_attached }
    {
        self.is_attached
    }

    /// Whether its connection is gone, or is being closed.
    pub fn is_gone(&self) -> bool
        ensures { result ≡ self.now.is_gone }
    {
        self.is_gone
    }

    /// Whether so many of its requests wait that no more is read from it.
    pub fn is_full(&self) -> bool
        ensures { (s : Settings) (calls : List Call) → Stands s calls self.now.gate →
            result ≡ nat_le reading_limit (length (gate s calls).waiting) }
    {
        self.gate.waiting() >= MOST_WAITING
    }

    /// Bytes came from it, in pieces of any size. If its password is wrong it is answered at this moment, not now.
    /// Returns what it said to the bouncer that asks nothing of the buffers.
    pub fn receive(
        &mut self,
        now: &Now,
        bytes: &[u8],
        due: u64,
        orders: &mut Orders,
    ) -> Result<Vec<StatusWord>, AllocError>
        ensures { (s : Settings) (calls : List Call) → Stands s calls self.old.gate →
            IfOk result (λ words. ReceivesWords bytes.now words.items now.now.ms now.now.at due s
            calls self.old orders.old self.new orders.new) }
    {
        if self.is_shut() {
            return Ok(Vec::new(self.alloc));
        }
        self.begin_asking(now, orders);
        self.heard = Timer::from(now.ms);
        self.is_pinged = false;
        match self.gate.feed(bytes) {
            Ok(fed) => {
                let words = self.take(now, fed, due, orders)?;
                Ok(words)
            }
            Err(_) => {
                self.part(now, orders)?;
                Ok(Vec::new(self.alloc))
            }
        }
    }

    /// What its gate answered goes on: the bytes to the client, the requests to its node. If the gate closes and the
    /// client thereby asked to leave, it stays until that is done; else it is closed. Returns what the client said to
    /// the bouncer that asks nothing of the buffers.
    fn pass(
        &mut self,
        now: &Now,
        fed: Fed,
        orders: &mut Orders,
    ) -> Result<Vec<StatusWord>, AllocError>
        ensures passed { (s : Settings) (calls : List Call) → Stands s calls self.old.gate →
            OnOk result (orders.new ≡ ordered orders.old
            (passed self.old now.now.at (last_request (gate s calls)) fed)) }
        ensures stands { (s : Settings) (calls : List Call) → Stands s calls self.old.gate →
            OnOk result (StandsSo s (ended_if (is_cut fed) self.old.is_gone calls)
            (behind_fed now.now.ms self.old fed) self.new) }
        ensures said { IfOk result (λ words. words.items ≡ fed.words.items) }
    {
        let Fed {
            requests,
            reply,
            words,
            close,
        } = fed;
        if !reply.is_empty() && !self.is_gone {
            orders.write(self.origin.client(), reply)?;
        }
        let has_left = close && !requests.is_empty();
        self.ask_all(now, requests, orders)?;
        if has_left {
            self.leaving = Some(Timer::from(now.ms));
            return Ok(words);
        }
        if close {
            self.part(now, orders)?;
        }
        Ok(words)
    }

    /// Its connection is closed.
    #[tactic(auto, unfolding(crate::specs::Clients::parting_unless))]
    pub fn hang_up(&mut self, now: &Now, orders: &mut Orders) -> Result<(), AllocError>
        ensures { (s : Settings) (calls : List Call) → Stands s calls self.old.gate →
            OnOk result (IsLost now.now.ms now.now.at s calls
            self.old orders.old self.new orders.new) }
    {
        if self.is_gone {
            return Ok(());
        }
        self.begin_asking(now, orders);
        self.part(now, orders)
    }

    /// Its connection is closed, and its last request goes to its node.
    #[tactic(auto, unfolding(crate::specs::Clients::parting_unless))]
    pub(crate) fn part(&mut self, now: &Now, orders: &mut Orders) -> Result<(), AllocError>
        ensures { (s : Settings) (calls : List Call) → Stands s calls self.old.gate → OnOk result
            (IsParted now.now.at s calls self.old orders.old self.new orders.new) }
    {
        if self.is_gone {
            return Ok(());
        }
        self.is_gone = true;
        orders.close(self.origin.client())?;
        self.tell_left(orders)?;
        if let Some(request) = self.gate.end() {
            orders.submit(self.node(), asks(self.origin, now, request))?;
        }
        Ok(())
    }

    /// Whether nothing is left to do for it: its connection is gone, and all its requests are done.
    pub fn is_over(&self) -> bool
        ensures { (s : Settings) (calls : List Call) → Stands s calls self.now.gate →
            result ≡ (self.now.is_gone && is_idle (gate s calls).waiting) }
    {
        self.is_gone && self.gate.waiting() == 0
    }
}
