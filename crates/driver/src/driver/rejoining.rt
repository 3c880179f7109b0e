//! Channels that are joined again in a new session.
ghost use Rattle.std.specs.Prelude.{◌≡◌, OnOk, if◌then◌else◌};
ghost use Rattle.irc_line.specs.Lines.{parameter};
ghost use Rattle.driver.specs.Driving.{told_of};
ghost use Rattle.driver.specs.Kicks.{Rejoins};
ghost use Rattle.driver.specs.Links.{is_session_of};
ghost use Rattle.driver.specs.Nicks.{nick_in};
ghost use Rattle.driver.specs.Writing.{joined};

use crate::driver::Driver;
use crate::lines::kick_line;
use irc_line::Line;
use raft_log::NodeId;
use std::alloc::AllocError;

impl Driver {
    /// The channel in a rejoining line of this node's session waits to be joined. Clients that have it open are kicked
    /// from it first: some programs close its window at a JOIN that they don't expect.
    pub(crate) fn rejoin(&mut self, node: NodeId, line: &Line) -> Result<(), AllocError>
        ensures told { OnOk result (Rejoins self.old.link.stage node line.now (nick_in self.old)
            (told_of self.old) (told_of self.new)) }
        ensures rest { OnOk result (self.new ≡ record self.old {
          clients = self.new.clients;
          orders = self.new.orders;
          link = if is_session_of self.old.link.stage node
              then joined self.old.settings.channel_keys.items (parameter 0 line.now) self.old.link
              else self.old.link;
        }) }
    {
        if !self.link.is_session_of(node) {
            return Ok(());
        }
        let channel = line.parameter(0);
        let kick = kick_line(self.alloc, channel, self.nick().as_bytes())?;
        self.clients
            .kick_all(channel, kick.as_slice(), &mut self.orders)?;
        self.link
            .join(channel, self.settings.channel_keys.as_slice())
    }
}
