//! How full the log is, and the notices about that.
ghost use Rattle.std.specs.Prelude.{◌≡◌, ◌-◌, OnOk, Some, slice_get};
ghost use Rattle.driver.specs.Filling.{IsLogLength, TellsLevel, Watches, WatchesFor, is_left_out, is_refused, last_in, words_of};
ghost use Rattle.driver.specs.Nicks.{IsWritten, nick_in, notice};
ghost use Rattle.driver.specs.Rosters.{client_at};
ghost use Rattle.driver.specs.declared.level.Level.TheVariants.{Full};

use crate::driver::Driver;
use crate::driver::nick::notice;
use crate::leader::leader_of;
use crate::level::Level;
use crate::news::News;
use crate::order::TowerNote;
use node_notes::Note;
use raft_log::NodeId;
use std::alloc::AllocError;

impl Driver {
    /// If the leader's log rose to a higher level than in the last notice, the operator and each attached client get a
    /// notice.
    pub fn watch_log(&mut self) -> Result<(), AllocError>
        ensures { OnOk result (Watches self.old self.new) }
    {
        let Some(node) = leader_of(&self.monitors) else {
            return Ok(());
        };
        self.watch_log_of(node)
    }

    /// Watches the log of this node.
    fn watch_log_of(&mut self, node: NodeId) -> Result<(), AllocError>
        ensures { OnOk result (WatchesFor (Some node) self.old self.new) }
    {
        let level = Level::of(self.last_of(node));
        if level.rank() <= self.level.rank() {
            return Ok(());
        }
        self.tell_level(node, level)
    }

    /// How many entries this node has, as far as is known.
    pub(crate) fn last_of(&self, node: NodeId) -> u64
        ensures { result ≡ last_in (slice_get self.now.monitors (node - 1)) }
    {
        let Some(monitor) = self.monitors.get(node.value() as usize - 1) else {
            return 0;
        };
        match monitor.status() {
            Some(status) => status.last.value(),
            None => 0,
        }
    }

    /// How many entries the leader has, as far as is known; `None` if no node leads.
    pub fn log_length(&self) -> Option<u64>
        ensures { IsLogLength self.now.monitors result }
    {
        let node = leader_of(&self.monitors)?;
        Some(self.last_of(node))
    }

    /// Whether input of this client is refused: it registered, and the log is full.
    pub fn refuses(&self, number: u64) -> bool
        ensures { result ≡ is_refused self.now number }
    {
        self.level.is_full() && self.clients.is_attached(number)
    }

    /// Tells this client that its input is not taken, if it is registered and connected.
    pub fn refuse(&mut self, number: u64) -> Result<(), AllocError>
        ensures told { OnOk result (IsWritten (client_at self.old.clients number)
            (notice (nick_in self.old) (words_of Full)) self.old.orders self.new.orders) }
        ensures rest { self.new ≡ record self.old { orders = self.new.orders } }
    {
        let line = notice(self.alloc, self.nick().as_bytes(), Level::Full.words())?;
        self.clients
            .write_to(number, line.as_slice(), &mut self.orders)
    }

    /// Whether a note is left out: a line from the server, while the log is full.
    pub(crate) fn leaves_out(&self, note: &TowerNote) -> bool
        ensures { result ≡ is_left_out self.now.level note.now }
    {
        match note {
            Note::Heard(_, _) => self.level.is_full(),
            _ => false,
        }
    }

    /// Sends the notice of a level.
    fn tell_level(&mut self, node: NodeId, level: Level) -> Result<(), AllocError>
        ensures { OnOk result (TellsLevel node level self.old self.new) }
    {
        self.level = level;
        self.orders.log(News::LogFills(node, level))?;
        self.notice(level.words())
    }
}
