//! What is written to all clients.
ghost use Rattle.std.specs.Prelude.{◌≡◌, None, OnOk};
ghost use Rattle.driver.specs.Nicks.{AllAreWritten, IsNamedIn, IsWritten, is_reached};
ghost use Rattle.driver.specs.Rosters.{client_at};

use crate::client::Client;
use crate::clients::Clients;
use crate::orders::Orders;
use std::alloc::AllocError;

impl Clients {
    /// Each client that is attached and connected is sent this.
    pub fn write_all(&self, text: &[u8], orders: &mut Orders) -> Result<(), AllocError>
        ensures { OnOk result (AllAreWritten self.now text.now orders.old orders.new) }
    {
        let numbers = self.numbers()?;
        for number in numbers {
            self.write_to(number, text, orders)?;
        }
        Ok(())
    }

    /// Sends this to the client of this number, if there is one and it is attached and connected.
    pub fn tell(&self, number: u64, text: &[u8], orders: &mut Orders) -> Result<(), AllocError>
        ensures told { OnOk result
            (IsWritten (client_at self.now number) text.now orders.old orders.new) }
        ensures nobody { client_at self.now number ≡ None → orders.new ≡ orders.old }
    {
        match self.all.get(&number) {
            Some(_) => self.write_to(number, text, orders),
            None => Ok(()),
        }
    }

    /// Tells the client of this number the nick in force, if it was greeted by another.
    pub fn tell_nick(&self, number: u64, nick: &[u8], orders: &mut Orders) -> Result<(), AllocError>
        ensures told { OnOk result
            (IsNamedIn (client_at self.now number) nick.now orders.old orders.new) }
        ensures nobody { client_at self.now number ≡ None → orders.new ≡ orders.old }
    {
        match self.all.get(&number) {
            Some(client) => client.tell_nick(nick, orders),
            None => Ok(()),
        }
    }

    /// Sends this to the client of this number, if it is attached and connected.
    pub fn write_to(&self, number: u64, text: &[u8], orders: &mut Orders) -> Result<(), AllocError>
        ensures { OnOk result
            (IsWritten (client_at self.now number) text.now orders.old orders.new) }
    {
        let Some(client) = self.all.get(&number) else {
            return Ok(());
        };
        if !is_reached(client) {
            return Ok(());
        }
        let line = Vec::from_slice(self.alloc, text)?;
        orders.write(client.origin().client(), line)
    }
}

/// Whether what is written to a client reaches a person.
pub fn is_reached(client: &Client) -> bool
    ensures { result ≡ is_reached client.now }
{
    client.is_attached() && !client.is_gone()
}
