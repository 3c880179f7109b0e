//! The connection to the server, as the driver has it.
ghost use Rattle.std.specs.Prelude.{◌≡◌, IfOk, OnOk, option_map};
ghost use Rattle.driver.specs.Absent.{reason_number, text_numbered};
ghost use Rattle.driver.specs.Nicks.{nick_in};
ghost use Rattle.driver.specs.Telling.{ordered};
ghost use Rattle.driver.specs.declared.news.Ending.TheVariants.{Silent};
ghost use Rattle.driver.specs.Filling.{is_left_out};
ghost use Rattle.driver.specs.Driving.{AsksServer, Connects, Ends, Leaves, LeavesIf, LeavesOlder, QuitsIf, SaysQuit};
ghost use Rattle.driver.specs.Leading.{is_older, is_that};
ghost use Rattle.driver.specs.Links.{Connects as IsConnected, is_open, node_of};
ghost use Rattle.driver.specs.Servers.{is_silent};
ghost use Rattle.driver.specs.Sessions.{OpensBy, TakesIf, TellsAllOf, TellsIf, absent_news, channels_heard};

use crate::driver::Driver;
use crate::driver::nick::nick_by;
use crate::news::{Ending, News};
use crate::order::{Now, TowerNote};
use irc_line::Line;
use node_notes::Note;
use raft_log::NodeId;
use std::alloc::AllocError;

/// What a server is sent when the session is over.
const QUIT: &[u8] = b"QUIT\r\n";

impl Driver {
    /// The connection to the server was made.
    pub fn connected(&mut self, now: &Now) -> Result<(), AllocError>
        ensures stands { OnOk result (IsConnected self.old.link.stage self.old.settings now.now.ms
            self.old.orders self.new.link.stage self.new.orders) }
        ensures link { self.new.link ≡ record self.old.link { stage = self.new.link.stage } }
        ensures rest { self.new ≡ record self.old
            { link = self.new.link; orders = self.new.orders } }
    {
        self.link.connected(now, &self.settings, &mut self.orders)
    }

    /// Bytes came from the server, in pieces of any size.
    pub fn receive_line(&mut self, now: &Now, bytes: &[u8]) -> Result<(), AllocError>
        ensures { OnOk result (TakesIf (node_of self.old.link.stage) now.now.ms now.now.at bytes.now
            self.old self.new) }
    {
        let Some(node) = self.link.node() else {
            return Ok(());
        };
        self.unheard = 0;
        let notes = self.link.receive(now, bytes, &mut self.orders)?;
        self.tell_all(node, notes)?;
        Ok(())
    }

    /// The node of a session gets what came, in turn.
    fn tell_all(&mut self, node: NodeId, notes: Vec<TowerNote>) -> Result<(), AllocError>
        ensures { OnOk result (TellsAllOf node notes.items self.old self.new) }
    {
        for note in notes {
            self.tell_of(node, note)?;
        }
        Ok(())
    }

    /// The node of a session gets what came. If it gives another nick clients are told, and the opening of the session
    /// is logged. A line is left out if the log is full.
    fn tell_of(&mut self, node: NodeId, note: TowerNote) -> Result<(), AllocError>
        ensures { OnOk result (TellsIf (is_left_out self.old.level note) node note self.old self.new) }
    {
        if self.leaves_out(&note) {
            return Ok(());
        }
        self.hear_nick(&note)?;
        self.open_by(node, &note)?;
        self.orders.submit(node, note)?;
        Ok(())
    }

    /// If what came says that the session opened, or that a channel is joined or is not, the connection records it and
    /// it is logged.
    fn open_by(&mut self, node: NodeId, note: &TowerNote) -> Result<(), AllocError>
        ensures { OnOk result (OpensBy node note.now self.old self.new) }
    {
        match note {
            Note::Opened => {
                self.link.open(self.settings.on_connect.as_slice())?;
                self.orders.log(News::Opened(node))
            }
            Note::Heard(_, line) => self.hear_channels(node, line.line()),
            _ => Ok(()),
        }
    }

    /// A line from the server may say that a channel is joined, or is not: one that is not is logged.
    fn hear_channels(&mut self, node: NodeId, line: &Line) -> Result<(), AllocError>
        ensures told { OnOk result (self.new.orders ≡ ordered self.old.orders
            (absent_news node (reason_number (nick_in self.old) line.now self.old.link.absent))) }
        ensures rest { OnOk result (self.new ≡ record self.old {
          orders = self.new.orders;
          link = channels_heard (nick_in self.old) line.now self.old.link;
        }) }
    {
        let nick = nick_by(&self.given, &self.settings.nick).as_bytes();
        match self.link.hear_channels(nick, line)? {
            Some(number) => self.orders.log(News::NotJoined(node, number)),
            None => Ok(()),
        }
    }

    /// What people are shown about the channel whose reason not to be joined has this number, if there is one.
    pub fn why_not_joined(&self, number: u64) -> Result<Option<Vec<u8>>, AllocError>
        ensures { IfOk result (λ text. option_map (λ text. text.items) text
            ≡ text_numbered number self.now.link.absent.channels) }
    {
        self.link.why_absent(number)
    }

    /// The connection to the server is gone, or could not be made.
    pub fn close(&mut self, now: &Now, why: Ending) -> Result<(), AllocError>
        ensures { OnOk result (Ends now.now.ms why self.old self.new) }
    {
        self.end_session(now, why)
    }

    /// There is no connection to the server any more, or there was none. A node that is down is not told: its session
    /// ended with its run.
    fn end_session(&mut self, now: &Now, why: Ending) -> Result<(), AllocError>
        ensures { OnOk result (Ends now.now.ms why self.old self.new) }
    {
        let node = self.link.node();
        let is_lost = self.link.lose(now, why, &mut self.orders)?;
        let Some(node) = node else {
            return Ok(());
        };
        if is_lost && self.boot_of(node).is_some() {
            self.orders.submit(node, Note::Closed)?;
        }
        Ok(())
    }

    /// Closes the connection to the server.
    fn leave(&mut self, now: &Now, why: Ending) -> Result<(), AllocError>
        ensures { OnOk result (Leaves now.now.ms why self.old self.new) }
    {
        self.orders.disconnect()?;
        self.end_session(now, why)?;
        Ok(())
    }

    /// Leaves the connection to the server if it belongs to another node than the leader of the greatest term, as far
    /// as is known: the older leader may hang, and not know of the newer one.
    pub fn leave_older(&mut self, now: &Now, leader: &Option<NodeId>) -> Result<(), AllocError>
        ensures { OnOk result (LeavesOlder (is_older (node_of self.old.link.stage) leader.now)
            now.now.ms self.old self.new) }
    {
        let Some(node) = self.link.node() else {
            return Ok(());
        };
        if is_that(leader, node) {
            return Ok(());
        }
        self.quit(now)
    }

    /// Leaves the connection to the server, since its node no longer leads. If it has a session the server gets a QUIT
    /// and has a second to close the connection, so that the nick is free when the next session asks for it.
    fn quit(&mut self, now: &Now) -> Result<(), AllocError>
        ensures { OnOk result
            (QuitsIf (is_open self.old.link.stage) now.now.ms self.old self.new) }
    {
        if !self.link.is_open() {
            return self.leave(now, Ending::LedNoMore);
        }
        self.say_quit()?;
        self.end_session(now, Ending::LedNoMore)?;
        self.link.linger();
        Ok(())
    }

    /// Tells the server that the session is over.
    fn say_quit(&mut self) -> Result<(), AllocError>
        ensures { OnOk result (SaysQuit self.old self.new) }
    {
        let quit = Vec::from_slice(self.alloc, QUIT)?;
        self.orders.send(quit)
    }

    /// Sends a PING to a server that says nothing.
    pub fn ask_quiet(&mut self, now: &Now) -> Result<(), AllocError>
        ensures { OnOk result (AsksServer now.now.ms self.old self.new) }
    {
        self.link.ask_quiet(now, &mut self.orders)
    }

    /// Leaves the connection to a silent server, and one that the server had time to close.
    pub fn leave_silent(&mut self, now: &Now) -> Result<(), AllocError>
        ensures { OnOk result (LeavesIf (is_silent self.old.link.stage now.now.ms)
            now.now.ms Silent self.old self.new) }
    {
        if !self.link.is_silent(now) {
            return Ok(());
        }
        self.leave(now, Ending::Silent)
    }

    /// Connects to the server for this node, if that may be tried.
    pub fn connect_for(&mut self, now: &Now, node: NodeId) -> Result<(), AllocError>
        ensures { OnOk result (Connects now.now.ms node self.old self.new) }
    {
        self.link.connect(now, node, &mut self.orders)
    }
}

/// Whether this node is the leader of the greatest term.
pub fn is_that(leader: &Option<NodeId>, node: NodeId) -> bool
    ensures { result ≡ is_that leader.now node }
{
    match leader {
        Some(other) => *other == node,
        None => false,
    }
}
