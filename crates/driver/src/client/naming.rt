//! The nick by which a client was greeted.
ghost use Rattle.std.specs.Prelude.{◌≡◌, OnOk};
ghost use Rattle.driver.specs.Nicks.{IsNamed, is_misnamed};

use crate::client::Client;
use crate::lines::renaming;
use crate::orders::Orders;
use irc_line::is_same;
use std::alloc::AllocError;

impl Client {
    /// Tells it the nick in force, if it was greeted by another.
    pub fn tell_nick(&self, nick: &[u8], orders: &mut Orders) -> Result<(), AllocError>
        ensures { OnOk result (IsNamed self.now nick.now orders.old orders.new) }
    {
        if !self.is_misnamed(nick) {
            return Ok(());
        }
        let line = renaming(self.alloc, self.nick.as_bytes(), nick)?;
        orders.write(self.origin.client(), line)
    }

    /// Whether it is registered and connected, and was greeted by another nick than this one.
    fn is_misnamed(&self, nick: &[u8]) -> bool
        ensures { result ≡ is_misnamed self.now nick.now }
    {
        self.is_attached && !self.is_gone && !is_same(self.nick.as_bytes(), nick)
    }
}
