//! The nick in force, and what clients learn of it.
ghost use Rattle.std.specs.Prelude.{◌≡◌, IfOk, None, OnOk};
ghost use Rattle.driver.specs.Opening.{joined_as};
ghost use Rattle.driver.specs.Learning.{LearnsNick, nick_learnt};
ghost use Rattle.driver.specs.Nicks.{AreMissed, IsToldOf, IsWarned, missing_in, warned};
ghost use Rattle.driver.specs.Nicks.{AllAreWritten, HearsNick, IsGreeted, RenamesIf, TakesNick, is_renamed, nick_by, nick_in, notice, renaming};
ghost use Rattle.driver.specs.Rosters.{client_at};
ghost use Rattle.irc_line.specs.Lines.{parameter};

use crate::client::joined_as;
use crate::driver::Driver;
use crate::driver::watching::group_words;
use crate::lines::{no_motd, renaming};
use crate::order::{Now, TowerNote};
use bouncer_tower::TowerEffect;
use buffer_machine::is_new_nick;
use irc_line::{Line, Name, is_same};
use node_notes::Note;
use std::alloc::{AllocError, Global};

impl Driver {
    /// The nick in force, as far as is known: the machine has it once it has applied the notes to its node.
    pub fn nick(&self) -> &Name
        ensures { result.now ≡ nick_in self.now }
    {
        nick_by(&self.given, &self.settings.nick)
    }

    /// Sends each attached client this text from `*status`, as a NOTICE to its nick.
    pub fn notice(&mut self, text: &[u8]) -> Result<(), AllocError>
        ensures told { OnOk result (AllAreWritten self.old.clients
            (notice (nick_in self.old) text.now) self.old.orders self.new.orders) }
        ensures rest { self.new ≡ record self.old { orders = self.new.orders } }
    {
        let line = notice(self.alloc, self.nick().as_bytes(), text)?;
        self.clients.write_all(line.as_slice(), &mut self.orders)
    }

    /// A client that has just registered learns the nick in force if it was greeted by another, that there is no
    /// message of the day, that too few nodes are up (if people were told so), that there is no server (if there is
    /// none), and which channels are not joined.
    pub(crate) fn greet(
        &mut self,
        now: &Now,
        was_attached: bool,
        number: u64,
    ) -> Result<(), AllocError>
        ensures told { OnOk result (IsGreeted was_attached (warned self.old now.now.ms)
            (client_at self.old.clients number) (nick_in self.old) self.old.orders self.new.orders) }
        ensures nobody { client_at self.old.clients number ≡ None → self.new ≡ self.old }
        ensures rest { self.new ≡ record self.old { orders = self.new.orders } }
    {
        if was_attached {
            return Ok(());
        }
        let nick = nick_by(&self.given, &self.settings.nick);
        self.clients
            .tell_nick(number, nick.as_bytes(), &mut self.orders)?;
        let motd = no_motd(self.alloc, nick.as_bytes())?;
        self.clients
            .tell(number, motd.as_slice(), &mut self.orders)?;
        self.warn(number)?;
        self.tell_missing(now, number)?;
        self.tell_absent(number)
    }

    /// Tells a client that too few nodes are up, if people were told so and the client is attached and connected.
    fn warn(&mut self, number: u64) -> Result<(), AllocError>
        ensures told { OnOk result (IsWarned self.old.is_short
            (client_at self.old.clients number) (nick_in self.old) self.old.orders self.new.orders) }
        ensures nobody { client_at self.old.clients number ≡ None → self.new ≡ self.old }
        ensures rest { self.new ≡ record self.old { orders = self.new.orders } }
    {
        if !self.is_short {
            return Ok(());
        }
        let line = notice(self.alloc, self.nick().as_bytes(), group_words(true))?;
        self.clients.tell(number, line.as_slice(), &mut self.orders)
    }

    /// Tells a client that there is no server, if there is none and the client is attached and connected.
    fn tell_missing(&mut self, now: &Now, number: u64) -> Result<(), AllocError>
        ensures told { OnOk result (IsToldOf (missing_in self.old now.now.ms)
            (client_at self.old.clients number) (nick_in self.old) self.old.orders self.new.orders) }
        ensures nobody { client_at self.old.clients number ≡ None → self.new ≡ self.old }
        ensures rest { self.new ≡ record self.old { orders = self.new.orders } }
    {
        let Some(text) = self.link.missing(now)? else {
            return Ok(());
        };
        let line = notice(self.alloc, self.nick().as_bytes(), text.as_slice())?;
        self.clients.tell(number, line.as_slice(), &mut self.orders)
    }

    /// Tells a client which channels are not joined, and why, if it is attached and connected.
    fn tell_absent(&mut self, number: u64) -> Result<(), AllocError>
        ensures told { OnOk result (AreMissed self.old.link.absent.channels
            (client_at self.old.clients number) (nick_in self.old) self.old.orders self.new.orders) }
        ensures nobody { client_at self.old.clients number ≡ None → self.new ≡ self.old }
        ensures rest { self.new ≡ record self.old { orders = self.new.orders } }
    {
        let nick = nick_by(&self.given, &self.settings.nick).as_bytes();
        self.clients
            .tell_absent(number, nick, self.link.absent(), &mut self.orders)
    }

    /// A note of a session may give another nick.
    pub(crate) fn hear_nick(&mut self, note: &TowerNote) -> Result<(), AllocError>
        ensures { OnOk result (HearsNick note.now self.old self.new) }
    {
        match note {
            Note::Heard(_, line) => self.take_nick(line.line()),
            _ => Ok(()),
        }
    }

    /// A line from the server may give another nick.
    fn take_nick(&mut self, line: &Line) -> Result<(), AllocError>
        ensures { OnOk result (TakesNick line.now self.old self.new) }
    {
        if !is_new_nick(line, self.nick().as_bytes()) {
            return Ok(());
        }
        self.tell_nick(line)?;
        let nick = Vec::from_slice(self.alloc, line.parameter(0))?;
        self.given = Name::from_bytes(nick);
        Ok(())
    }

    /// While no session of this process has given a nick, a client is shown no JOIN but its own, by the nick that the
    /// machine kept. If that differs from the one asked for, clients are told, and it is the nick in force.
    pub(crate) fn learn_nick(&mut self, effect: &TowerEffect) -> Result<(), AllocError>
        ensures { OnOk result (LearnsNick effect.now self.old self.new) }
    {
        let Some(nick) = self.nick_learnt(effect)? else {
            return Ok(());
        };
        let text = renaming(self.alloc, self.nick().as_bytes(), nick.as_bytes())?;
        self.clients.write_all(text.as_slice(), &mut self.orders)?;
        self.given = Some(nick);
        Ok(())
    }

    /// The nick that an effect shows to be in force, if it was not known.
    fn nick_learnt(&self, effect: &TowerEffect) -> Result<Option<Name>, AllocError>
        ensures { IfOk result (λ nick. nick
            ≡ nick_learnt self.now.given self.now.settings.nick (joined_as effect.now)) }
    {
        if self.given.is_some() {
            return Ok(None);
        }
        let Some(nick) = joined_as(effect) else {
            return Ok(None);
        };
        if is_same(self.settings.nick.as_bytes(), nick) {
            return Ok(None);
        }
        let bytes = Vec::from_slice(self.alloc, nick)?;
        Ok(Name::from_bytes(bytes))
    }

    /// Clients learn another nick from the line that begins a session, since the buffers don't show it.
    fn tell_nick(&mut self, line: &Line) -> Result<(), AllocError>
        ensures renames { OnOk result (RenamesIf (is_renamed (nick_in self.old) line.now)
            self.old.clients (renaming (nick_in self.old) (parameter 0 line.now))
            self.old.orders self.new.orders) }
        ensures rest { self.new ≡ record self.old { orders = self.new.orders } }
    {
        if !is_renamed(line, self.nick().as_bytes()) {
            return Ok(());
        }
        let text = renaming(self.alloc, self.nick().as_bytes(), line.parameter(0))?;
        self.clients.write_all(text.as_slice(), &mut self.orders)
    }
}

/// The nick that the server gave, if it gave one, and else the one that is asked for.
pub(crate) fn nick_by<'a>(given: &'a Option<Name>, asked: &'a Name) -> &'a Name
    ensures { result.now ≡ nick_by given.now asked.now }
{
    match given {
        Some(nick) => nick,
        None => asked,
    }
}

/// Whether clients are to be told that a line gives the user with this nick another one.
fn is_renamed(line: &Line, nick: &[u8]) -> bool
    ensures { result ≡ is_renamed nick.now line.now }
{
    is_new_nick(line, nick) && is_same(line.command(), b"001") && !is_same(nick, line.parameter(0))
}

/// A line from `*status`, by which a client of this nick gets a text.
pub fn notice(alloc: Global, nick: &[u8], text: &[u8]) -> Result<Vec<u8>, AllocError>
    ensures { IfOk result (λ line. line.items ≡ notice nick.now text.now) }
{
    let mut line = Vec::from_slice(alloc, b":*status!bouncer@local NOTICE ")?;
    line.extend_from_slice(nick)?;
    line.extend_from_slice(b" :")?;
    line.extend_from_slice(text)?;
    line.extend_from_slice(b"\r\n")?;
    Ok(line)
}
