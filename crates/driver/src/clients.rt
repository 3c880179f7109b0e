//! All clients.
ghost use Rattle.std.specs.Prelude.{◌≡◌, ℕ, true, false, Option, None, Some, IfOk, OnOk, OnErr};
ghost use Rattle.std.specs.BTreeMap.{keys};
ghost use Rattle.driver.specs.declared.client.Client.{Client};
ghost use Rattle.machine_laws.specs.Origins.{same_origin};
ghost use Rattle.driver.specs.Crowds.{TickEach, TicksRead, told};
ghost use Rattle.driver.specs.Rosters.{AreOthersSame, IsFullIn, IsKept, Serves, client_at, is_attached_in};
ghost use Rattle.driver.specs.Rosters.{is_leaving_in, is_there, node_in, refused_in};
ghost use Rattle.driver.specs.Serving.{Hears, IsLost, ReceivesWords};

mod dismissing;
mod evicting;
mod kicking;
mod leaving;
mod listing;
mod news;
pub(crate) mod writing;

use crate::client::Client;
use crate::node_monitor::{MOST_NODES, NodeMonitor};
use crate::order::Now;
use crate::orders::Orders;
use bouncer_tower::TowerEffect;
use client_gate::StatusWord;
use raft_log::NodeId;
use std::alloc::{AllocError, Global};
use std::collections::BTreeMap;
use wire_bytes::Origin;

/// The clients, by their numbers, which rise in the order in which they connected.
#[derive(Drop)]
pub struct Clients {
    alloc: Global,
    all: BTreeMap<u64, Client>,
}

impl Clients {
    /// No clients.
    pub fn new(alloc: Global) -> Clients
        ensures { (number : ℕ) → client_at result number ≡ None }
    {
        Clients {
            alloc,
            all: BTreeMap::new(alloc),
        }
    }

    /// A client has connected.
    pub fn insert(&mut self, client: Client) -> Result<(), AllocError>
        ensures inserted { OnOk result (client_at self.new client.origin.2 ≡ Some client) }
        ensures others { AreOthersSame client.origin.2 self.old self.new }
        ensures kept { OnErr result (client_at self.new client.origin.2
            ≡ client_at self.old client.origin.2) }
    {
        match self.all.insert(client.origin().client(), client) {
            Ok(_) => Ok(()),
            Err(_) => Err(AllocError),
        }
    }

    /// Bytes came from a client. If its password is wrong it is answered at this moment. Returns what it said to the
    /// bouncer that asks nothing of the buffers.
    pub fn receive(
        &mut self,
        now: &Now,
        number: u64,
        bytes: &[u8],
        due: u64,
        orders: &mut Orders,
    ) -> Result<Vec<StatusWord>, AllocError>
        ensures others { AreOthersSame number self.old self.new }
        ensures nobody { client_at self.old number ≡ None →
            (self.new ≡ self.old) × (orders.new ≡ orders.old) }
        ensures served { IfOk result (λ words. Serves (λ c. client_at self.old number ≡ Some c)
            (λ s calls c new. ReceivesWords bytes.now words.items now.now.ms now.now.at due s calls
            c orders.old new orders.new) number self.new) }
    {
        let Some(client) = self.all.get_mut(&number) else {
            return Ok(Vec::new(self.alloc));
        };
        let words = client.receive(now, bytes, due, orders)?;
        self.forget_if_over(number);
        Ok(words)
    }

    /// An effect came for the client of this origin, under this nick. A client of another origin with the same number
    /// is unchanged.
    pub fn hear(
        &mut self,
        now: &Now,
        nick: &[u8],
        origin: Origin,
        effect: &TowerEffect,
        orders: &mut Orders,
    ) -> Result<(), AllocError>
        ensures others { AreOthersSame origin.2 self.old self.new }
        ensures nobody { client_at self.old origin.2 ≡ None →
            (self.new ≡ self.old) × (orders.new ≡ orders.old) }
        ensures stranger { (c : Client) → client_at self.old origin.2 ≡ Some c →
            same_origin c.origin origin ≡ false → (self.new ≡ self.old) × (orders.new ≡ orders.old) }
        ensures served { OnOk result (Serves
            (λ c. (client_at self.old origin.2 ≡ Some c) × (same_origin c.origin origin ≡ true))
            (λ s calls c new. Hears effect.now nick.now now.now.ms now.now.at s calls c orders.old
            new orders.new) origin.2 self.new) }
    {
        if !self.is_there(origin) {
            return Ok(());
        }
        let Some(client) = self.all.get_mut(&origin.client()) else {
            return Ok(());
        };
        client.hear(now, nick, effect, orders)?;
        if client.is_over() {
            self.all.remove(&origin.client());
        }
        Ok(())
    }

    /// Whether there is a client of this origin.
    pub(crate) fn is_there(&self, origin: Origin) -> bool
        ensures { result ≡ is_there (client_at self.now origin.2) origin }
    {
        match self.all.get(&origin.client()) {
            Some(client) => is_same(client.origin(), origin),
            None => false,
        }
    }

    /// A client's connection is gone.
    pub fn lose(&mut self, now: &Now, number: u64, orders: &mut Orders) -> Result<(), AllocError>
        ensures others { AreOthersSame number self.old self.new }
        ensures nobody { client_at self.old number ≡ None →
            (self.new ≡ self.old) × (orders.new ≡ orders.old) }
        ensures served { OnOk result (Serves (λ c. client_at self.old number ≡ Some c)
            (λ s calls c new. IsLost now.now.ms now.now.at s calls c orders.old
            new orders.new) number self.new) }
    {
        let Some(client) = self.all.get_mut(&number) else {
            return Ok(());
        };
        client.hang_up(now, orders)?;
        self.forget_if_over(number);
        Ok(())
    }

    /// Forgets the client of this number if nothing is left to do for it.
    pub(crate) fn forget_if_over(&mut self, number: u64)
        ensures others { AreOthersSame number self.old self.new }
        ensures nobody { client_at self.old number ≡ None → self.new ≡ self.old }
        ensures kept { IsKept number self.old self.new }
    {
        let Some(client) = self.all.get(&number) else {
            return;
        };
        if client.is_over() {
            self.all.remove(&number);
        }
    }

    /// The node of the client of this number, if there is one.
    pub fn node_of(&self, number: u64) -> Option<NodeId>
        ensures { result ≡ node_in (client_at self.now number) }
    {
        match self.all.get(&number) {
            Some(client) => Some(client.node()),
            None => None,
        }
    }

    /// Whether the client of this number has too many waiting requests, if there is one.
    pub fn is_full(&self, number: u64) -> bool
        ensures { IsFullIn result (client_at self.now number) }
    {
        match self.all.get(&number) {
            Some(client) => client.is_full(),
            None => false,
        }
    }

    /// Whether the client of this number registered, if there is one.
    pub fn is_attached(&self, number: u64) -> bool
        ensures { result ≡ is_attached_in (client_at self.now number) }
    {
        match self.all.get(&number) {
            Some(client) => client.is_attached(),
            None => false,
        }
    }

    /// Whether nothing more is read from the client of this number, if there is one.
    pub fn is_leaving(&self, number: u64) -> bool
        ensures { result ≡ is_leaving_in (client_at self.now number) }
    {
        match self.all.get(&number) {
            Some(client) => client.is_shut(),
            None => false,
        }
    }

    /// The origin of the client of this number, if its password was wrong and it has not been answered yet.
    pub fn refused(&self, number: u64) -> Option<Origin>
        ensures { result ≡ refused_in (client_at self.now number) }
    {
        let client = self.all.get(&number)?;
        if client.is_refused() {
            Some(client.origin())
        } else {
            None
        }
    }

    /// Time passed: each client ticks, and is forgotten if nothing is left to do for it.
    pub fn tick(
        &mut self,
        now: &Now,
        timeout_ms: u16,
        monitors: &[NodeMonitor; MOST_NODES],
        orders: &mut Orders,
    ) -> Result<(), AllocError>
        ensures { OnOk result (TickEach now.now.at timeout_ms now.now.ms monitors.now (keys self.old.all)
            (told self.old orders.old) (told self.new orders.new)) }
    {
        let numbers = self.numbers()?;
        for number in numbers {
            self.tick_client(now, timeout_ms, monitors, number, orders)?;
        }
        Ok(())
    }

    /// Time passed for the client of this number.
    fn tick_client(
        &mut self,
        now: &Now,
        timeout_ms: u16,
        monitors: &[NodeMonitor; MOST_NODES],
        number: u64,
        orders: &mut Orders,
    ) -> Result<(), AllocError>
        ensures others { AreOthersSame number self.old self.new }
        ensures nobody { client_at self.old number ≡ None →
            (self.new ≡ self.old) × (orders.new ≡ orders.old) }
        ensures served { OnOk result (Serves (λ c. client_at self.old number ≡ Some c)
            (λ s calls c new. TicksRead timeout_ms now.now.ms now.now.at monitors.now s calls c
            orders.old new orders.new) number self.new) }
    {
        let Some(client) = self.all.get_mut(&number) else {
            return Ok(());
        };
        let is_read = client.is_read(monitors, orders);
        client.tick(now, timeout_ms, is_read, orders)?;
        self.forget_if_over(number);
        Ok(())
    }

    /// The numbers of the clients, in order.
    pub(crate) fn numbers(&self) -> Result<Vec<u64>, AllocError>
        ensures { IfOk result (λ numbers. numbers.items ≡ keys self.now.all) }
    {
        let mut numbers = Vec::new(self.alloc);
        for number in self.all.keys() {
            numbers.push(*number)?;
        }
        Ok(numbers)
    }
}

/// Whether two origins are the same.
fn is_same(a: Origin, b: Origin) -> bool
    ensures { result ≡ same_origin a b }
{
    a.node() == b.node() && a.boot() == b.boot() && a.client() == b.client()
}
