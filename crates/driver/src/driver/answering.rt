//! Answers to what a client asks of the bouncer itself.
ghost use Rattle.std.specs.Prelude.{◌≡◌, None, OnErr, OnOk, map};
ghost use Rattle.driver.specs.Answering.{AllAreListed, Answers, AnswersAll, AnswersIf, AreTold, TellsStanding};
ghost use Rattle.driver.specs.Answering.{answered_as, help_texts};
ghost use Rattle.driver.specs.Filling.{entries_of};
ghost use Rattle.driver.specs.Nicks.{nick_in};
ghost use Rattle.driver.specs.Rosters.{client_at, is_attached_in};
ghost use Rattle.driver.specs.Standing.{standing_texts, waits_in_log};

use crate::driver::Driver;
use crate::driver::nick::nick_by;
use crate::leader::leader_of;
use crate::order::Now;
use crate::standing::{log_text, nodes_text};
use client_gate::StatusWord;
use raft_log::NodeId;
use std::alloc::AllocError;

impl Driver {
    /// Answers what a registered client said to the bouncer that asks nothing of the buffers; DROP WAITING drops what
    /// waits to go to the server.
    pub(crate) fn answer_all(
        &mut self,
        now: &Now,
        number: u64,
        words: Vec<StatusWord>,
    ) -> Result<(), AllocError>
        ensures answered { OnOk result (AnswersIf (is_attached_in (client_at self.old.clients number))
            words.items now.now.ms number self.old self.new) }
        ensures nobody { client_at self.old.clients number ≡ None → self.new ≡ self.old }
        ensures rest { self.new ≡ answered_as self.new self.old }
    {
        if !self.clients.is_attached(number) {
            return Ok(());
        }
        self.answer_each(now, number, words)
    }

    /// Answers words of a client in turn.
    fn answer_each(
        &mut self,
        now: &Now,
        number: u64,
        words: Vec<StatusWord>,
    ) -> Result<(), AllocError>
        ensures answered { OnOk result
            (AnswersAll words.items now.now.ms number self.old self.new) }
        ensures rest { self.new ≡ answered_as self.new self.old }
    {
        for word in words {
            self.answer(now, number, word)?;
        }
        Ok(())
    }

    /// Answers a word of a client.
    fn answer(&mut self, now: &Now, number: u64, word: StatusWord) -> Result<(), AllocError>
        ensures answered { OnOk result (Answers word now.now.ms number self.old self.new) }
        ensures failed { OnErr result (self.new ≡ record self.old { orders = self.new.orders }) }
    {
        match word {
            StatusWord::Help | StatusWord::Unknown => self.list_words(number),
            StatusWord::Status => self.tell_standing(now, number),
            StatusWord::Clients => self.list_clients(number),
            StatusWord::DropWaiting => self.drop_waiting(number),
        }
    }

    /// Sends a client the list of words.
    fn list_words(&mut self, number: u64) -> Result<(), AllocError>
        ensures told { OnOk result (AreTold help_texts (client_at self.old.clients number)
            (nick_in self.old) self.old.orders self.new.orders) }
        ensures rest { self.new ≡ record self.old { orders = self.new.orders } }
    {
        self.tell_lines(
            number,
            &[
                b"What you can say to *status, in letters of either case:",
                b"ATTACH #channel - show a channel again, and what you missed there",
                b"DETACH #channel - show nothing of a channel, and stay in it",
                b"PLAYBUFFER name - show what is kept of a channel or a person",
                b"CLEARBUFFER name - forget what is kept of one",
                b"CLEARALLCHANNELBUFFERS, CLEARALLQUERYBUFFERS, CLEARALLBUFFERS - forget what is kept of all",
                b"SETBUFFER name lines - keep this many lines of one, at most 500",
                b"DROP WAITING - forget what waits to go to the server",
                b"STATUS - the state of the bouncer; CLIENTS - who is attached; HELP - this list",
            ],
        )
    }

    /// Sends a client these texts from `*status`.
    pub(crate) fn tell_lines(&mut self, number: u64, texts: &[&[u8]]) -> Result<(), AllocError>
        ensures told { OnOk result (AreTold (map (λ text. text.now) texts.now)
            (client_at self.old.clients number) (nick_in self.old) self.old.orders self.new.orders) }
        ensures rest { self.new ≡ record self.old { orders = self.new.orders } }
    {
        let nick = nick_by(&self.given, &self.settings.nick).as_bytes();
        self.clients
            .tell_lines(number, nick, texts, &mut self.orders)
    }

    /// Sends a client the list of attached clients.
    fn list_clients(&mut self, number: u64) -> Result<(), AllocError>
        ensures told { OnOk result (AllAreListed number self.old.clients (nick_in self.old)
            self.old.orders self.new.orders) }
        ensures rest { self.new ≡ record self.old { orders = self.new.orders } }
    {
        let nick = nick_by(&self.given, &self.settings.nick).as_bytes();
        self.clients.list_to(number, nick, &mut self.orders)
    }

    /// Sends a client the state of the bouncer, and who is attached.
    fn tell_standing(&mut self, now: &Now, number: u64) -> Result<(), AllocError>
        ensures told { OnOk result (TellsStanding now.now.ms number self.old self.new.orders) }
        ensures rest { self.new ≡ record self.old { orders = self.new.orders } }
    {
        let leader = leader_of(&self.monitors);
        self.tell_texts(now, &leader, number)?;
        self.list_clients(number)
    }

    /// Sends a client the state of the bouncer, given which node leads, if one does.
    fn tell_texts(
        &mut self,
        now: &Now,
        leader: &Option<NodeId>,
        number: u64,
    ) -> Result<(), AllocError>
        ensures told { OnOk result (AreTold (standing_texts leader.now now.now.ms self.old)
            (client_at self.old.clients number) (nick_in self.old) self.old.orders self.new.orders) }
        ensures rest { self.new ≡ record self.old { orders = self.new.orders } }
    {
        let size = self.settings.size.value() as usize;
        let nodes = nodes_text(self.alloc, leader, &self.monitors[..size])?;
        let server = self.link.standing(now)?;
        let drops = self.dropping.is_some();
        let waiting = self.link.waiting(self.waits_in_log(leader), drops)?;
        let log = log_text(self.alloc, self.entries_of(leader))?;
        self.tell_lines(
            number,
            &[
                nodes.as_slice(),
                server.as_slice(),
                waiting.as_slice(),
                log.as_slice(),
            ],
        )
    }

    /// Whether a line waits to be claimed by the node that leads, if one leads.
    fn waits_in_log(&self, leader: &Option<NodeId>) -> bool
        ensures { result ≡ waits_in_log leader.now self.now.monitors }
    {
        match leader {
            Some(node) => !self.are_due(*node),
            None => false,
        }
    }

    /// How many entries the node that leads has, if one leads.
    fn entries_of(&self, leader: &Option<NodeId>) -> Option<u64>
        ensures { result ≡ entries_of self.now.monitors leader.now }
    {
        match leader {
            Some(node) => Some(self.last_of(*node)),
            None => None,
        }
    }
}
