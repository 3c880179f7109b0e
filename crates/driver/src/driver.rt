//! The driver: its calls say what happened, and it gives orders.
ghost use Rattle.std.specs.Prelude.{◌≡◌, true, IfOk, IfSome, None, OnErr, OnOk, is_some};
ghost use Rattle.driver.specs.Arriving.{Arrives, ArrivesIf, IsNewDriver, boot_at, monitors_behind};
ghost use Rattle.driver.specs.Arriving.{last_number, new_monitors, next_number, turned_away_at};
ghost use Rattle.driver.specs.Deeds.{are_merged, deeds};
ghost use Rattle.driver.specs.Driving.{Dismisses, changed_at, orders_at};
ghost use Rattle.driver.specs.Writing.{Hands};
ghost use Rattle.driver.specs.Retiring.{with_seen};
ghost use Rattle.driver.specs.Hearing.{boot_up, turned_away, turned_away_news};
ghost use Rattle.driver.specs.Links.{status_at};
ghost use Rattle.driver.specs.Nicks.{nick_in};
ghost use Rattle.driver.specs.Rosters.{AreOthersSame, Serves, client_at, is_attached_in, is_leaving_in};
ghost use Rattle.driver.specs.Serving.{IsLost};
ghost use Rattle.driver.specs.Telling.{emptied, ordered};

mod admitting;
mod answering;
mod dropping;
mod filling;
mod hearing;
pub(crate) mod nick;
mod reading;
mod rejoining;
pub(crate) mod session;
mod ticking;
mod watching;
mod writing;

use crate::client::Client;
use crate::clients::Clients;
use crate::guard::Guard;
use crate::level::Level;
use crate::link::Link;
use crate::node_monitor::{MOST_NODES, NodeMonitor};
use crate::order::{Now, Order};
use crate::orders::Orders;
use crate::pace::Pace;
use crate::retirements::Retirements;
use crate::settings::Settings;
use crate::timer::Timer;
use client_gate::ClientGate;
use irc_line::{Line, Name};
use raft_log::NodeId;
use std::alloc::{AllocError, Global};
use wire_bytes::{LAST_NUMBER, Number, Origin};

/// What drives the nodes of a bouncer, their clients and the server.
#[derive(Drop)]
pub struct Driver {
    alloc: Global,
    settings: Settings,
    /// Node 1's first. There is one for each possible node; nothing is heard from nodes that do not exist.
    monitors: [NodeMonitor; MOST_NODES],
    retirements: Retirements,
    clients: Clients,
    /// The number of the last client.
    numbered: u64,
    link: Link,
    /// Counts wrong passwords.
    guard: Guard,
    /// The nick that the server gave, if it gave one.
    given: Option<Name>,
    /// How full the log is, by the last notice to people.
    level: Level,
    pace: Pace,
    /// How many said lines went to the server since it was last heard.
    unheard: u64,
    /// How many lines were dropped so far, while a drop goes on: it ends once no line is left to claim.
    dropping: Option<u64>,
    /// Whether fewer nodes than a majority serve clients, by the last notice to people.
    is_short: bool,
    /// Since when a majority of the nodes has been working, as far as is known.
    going_on: Timer,
    /// When it last heard from a node, or last ticked.
    ran: Timer,
    orders: Orders,
}

impl Driver {
    /// A driver of nodes that were just started; what it knows of each comes from the reports of its worker.
    pub fn new(alloc: Global, settings: Settings, now: &Now) -> Driver
        ensures { IsNewDriver settings now.now.ms result }
    {
        let pace = Pace::new(settings.flood_burst, settings.flood_ms);
        let monitors = monitors_of(&settings, now);
        Driver {
            alloc,
            settings,
            monitors,
            retirements: Retirements::new(),
            clients: Clients::new(alloc),
            numbered: 0,
            guard: Guard::new(now),
            link: Link::new(alloc, now),
            given: None,
            level: Level::Roomy,
            pace,
            unheard: 0,
            dropping: None,
            is_short: false,
            going_on: Timer::from(now.ms),
            ran: Timer::from(now.ms),
            orders: Orders::new(alloc),
        }
    }

    /// What is to be done, in this order. Nothing is returned twice. Consecutive writes to one client are one write.
    pub fn orders(&mut self) -> Vec<Order>
        ensures given { deeds result.items ≡ deeds self.old.orders.items }
        ensures left { self.new ≡ record self.old { orders = emptied self.old.orders } }
        ensures settled { are_merged result.items ≡ true }
    {
        self.orders.take()
    }

    /// A client has connected to this node. Returns its number, or none if the node is not up or hangs, or no numbers
    /// are left: the caller then closes the connection. The first client turned away since the node was up is logged.
    pub fn connect(&mut self, now: &Now, node: NodeId) -> Result<Option<u64>, AllocError>
        ensures number { IfOk result (λ number.
            number ≡ next_number self.old.monitors node self.old.numbered) }
        ensures last { OnOk result (self.new.numbered ≡ last_number self.old.numbered
            (next_number self.old.monitors node self.old.numbered)) }
        ensures kept { OnErr result (self.new.numbered ≡ self.old.numbered) }
        ensures arrived { IfOk result (λ number. ArrivesIf self.old.monitors number
            node self.old.settings.password.items (nick_in self.old) now.now.ms
            self.old.clients self.new.clients) }
        ensures others { IfOk result (λ number. IfSome number (λ number.
            AreOthersSame number self.old.clients self.new.clients)) }
        ensures monitors { OnOk result (self.new.monitors
            ≡ monitors_behind self.old.monitors node self.old.numbered) }
        ensures told { OnOk result (self.new.orders
            ≡ ordered self.old.orders (turned_away_at self.old.monitors node)) }
        ensures rest { OnOk result (self.new ≡ record self.old {
          monitors = self.new.monitors;
          clients = self.new.clients;
          numbered = self.new.numbered;
          orders = self.new.orders;
        }) }
    {
        let Some(boot) = self.open_boot(node) else {
            self.turn_away(node)?;
            return Ok(None);
        };
        if self.numbered >= LAST_NUMBER {
            return Ok(None);
        }
        let number = self.numbered + 1;
        let origin = Origin::new(node.value(), boot.value(), number);
        self.admit(now, origin)?;
        self.numbered = number;
        self.see(node, boot);
        Ok(Some(number))
    }

    /// The run in which a node is up, if it is.
    pub(crate) fn boot_of(&self, node: NodeId) -> Option<Number>
        ensures { result ≡ boot_up (status_at self.now.monitors node) }
    {
        let monitor = self.monitors.get(node.value() as usize - 1)?;
        monitor.boot()
    }

    /// Whether a node takes clients: it is up, and does not hang.
    pub fn takes_clients(&self, node: NodeId) -> bool
        ensures { result ≡ is_some (boot_at self.now.monitors node) }
    {
        self.open_boot(node).is_some()
    }

    /// The run in which a node takes clients, if it does.
    fn open_boot(&self, node: NodeId) -> Option<Number>
        ensures { result ≡ boot_at self.now.monitors node }
    {
        let monitor = self.monitors.get(node.value() as usize - 1)?;
        monitor.open_boot()
    }

    /// A client connected to a node that is not up.
    fn turn_away(&mut self, node: NodeId) -> Result<(), AllocError>
        ensures monitors { OnOk result
            (self.new.monitors ≡ changed_at turned_away self.old.monitors node) }
        ensures told { OnOk result (self.new.orders
            ≡ ordered self.old.orders (orders_at turned_away_news self.old.monitors node)) }
        ensures rest { self.new ≡ record self.old
            { monitors = self.new.monitors; orders = self.new.orders } }
    {
        self.monitors[node.value() as usize - 1].turn_away(&mut self.orders)
    }

    /// A client of this run of a node connected.
    fn see(&mut self, node: NodeId, boot: Number)
        ensures { self.new ≡ record self.old
            { monitors = changed_at (with_seen boot) self.old.monitors node } }
    {
        self.monitors[node.value() as usize - 1].see(boot);
    }

    /// A client of this origin has connected.
    fn admit(&mut self, now: &Now, origin: Origin) -> Result<(), AllocError>
        ensures arrived { OnOk result (Arrives origin self.old.settings.password.items
            (nick_in self.old) now.now.ms self.new.clients) }
        ensures others { AreOthersSame origin.2 self.old.clients self.new.clients }
        ensures rest { self.new ≡ record self.old { clients = self.new.clients } }
    {
        let password = Vec::from_slice(self.alloc, self.settings.password.as_slice())?;
        let nick = self.nick().copy(self.alloc)?;
        let gate = ClientGate::new(self.alloc, origin, password, nick)?;
        let greeted_by = self.nick().copy(self.alloc)?;
        self.clients
            .insert(Client::new(self.alloc, origin, gate, greeted_by, now))?;
        Ok(())
    }

    /// A client's connection is gone.
    pub fn lose(&mut self, now: &Now, number: u64) -> Result<(), AllocError>
        ensures others { AreOthersSame number self.old.clients self.new.clients }
        ensures nobody { client_at self.old.clients number ≡ None →
            (self.new.clients ≡ self.old.clients)
            × (self.new.orders ≡ self.old.orders) }
        ensures served { OnOk result (Serves (λ c. client_at self.old.clients number ≡ Some c)
            (λ s calls c new. IsLost now.now.ms now.now.at s calls c self.old.orders
            new self.new.orders) number self.new.clients) }
        ensures rest { self.new ≡ record self.old
            { clients = self.new.clients; orders = self.new.orders } }
    {
        self.clients.lose(now, number, &mut self.orders)
    }

    /// Whether the client of this number registered at its node.
    pub fn is_attached(&self, number: u64) -> bool
        ensures { result ≡ is_attached_in (client_at self.now.clients number) }
    {
        self.clients.is_attached(number)
    }

    /// Whether nothing more is taken from the client of this number: it is leaving, its password was wrong, or its
    /// connection is being closed. What it is shown until then is still written.
    pub fn is_leaving(&self, number: u64) -> bool
        ensures { result ≡ is_leaving_in (client_at self.now.clients number) }
    {
        self.clients.is_leaving(number)
    }

    /// The bouncer is about to end: each client is to leave, as if it had sent QUIT. Its connection is closed once its
    /// Leave is done, or five seconds later; one that did not register is closed at once.
    pub fn end(&mut self, now: &Now) -> Result<(), AllocError>
        ensures { OnOk result (Dismisses now.now.ms now.now.at self.old self.new) }
    {
        self.clients.dismiss_all(now, &mut self.orders)
    }

    /// How many said lines went to the server since it was last heard: when a session ends, that many may not have
    /// arrived.
    pub fn unheard(&self) -> u64
        ensures { result ≡ self.now.unheard }
    {
        self.unheard
    }

    /// A node handed out a line; the line waits to go out in the node's session. If it is a said line and a drop goes
    /// on, it is dropped.
    pub fn hand(&mut self, node: NodeId, line: &Line) -> Result<(), AllocError>
        ensures { OnOk result (Hands node line.now self.old self.new) }
    {
        if !self.link.is_session_of(node) {
            return Ok(());
        }
        if self.drops(line) {
            self.count_dropped(1);
            return Ok(());
        }
        self.link.queue(node, line)
    }
}

/// A monitor for each possible node.
fn monitors_of(settings: &Settings, now: &Now) -> [NodeMonitor; MOST_NODES]
    ensures { result ≡ new_monitors settings.now now.now.ms }
{
    [
        NodeMonitor::new(NodeId::new(1), settings, now),
        NodeMonitor::new(NodeId::new(2), settings, now),
        NodeMonitor::new(NodeId::new(3), settings, now),
        NodeMonitor::new(NodeId::new(4), settings, now),
        NodeMonitor::new(NodeId::new(5), settings, now),
        NodeMonitor::new(NodeId::new(6), settings, now),
        NodeMonitor::new(NodeId::new(7), settings, now),
    ]
}
