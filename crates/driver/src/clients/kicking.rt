//! Clients are kicked from a channel that they have open.
ghost use Rattle.std.specs.Prelude.{◌≡◌, true, false, None, Some, OnOk};
ghost use Rattle.std.specs.BTreeMap.{keys};
ghost use Rattle.driver.specs.declared.client.Client.{Client};
ghost use Rattle.driver.specs.Crowds.{told};
ghost use Rattle.driver.specs.Kicks.{KickEach, has_open_in};
ghost use Rattle.driver.specs.Nicks.{IsWritten};
ghost use Rattle.driver.specs.Opening.{closed, has_open};
ghost use Rattle.driver.specs.Rosters.{AreOthersSame, client_at};

use crate::clients::Clients;
use crate::orders::Orders;
use std::alloc::AllocError;

impl Clients {
    /// Each client that has this channel open is sent this, if it is attached and connected, and the channel is closed
    /// for it.
    pub fn kick_all(
        &mut self,
        channel: &[u8],
        text: &[u8],
        orders: &mut Orders,
    ) -> Result<(), AllocError>
        ensures { OnOk result (KickEach channel.now text.now (keys self.old.all)
            (told self.old orders.old) (told self.new orders.new)) }
    {
        let numbers = self.numbers()?;
        for number in numbers {
            self.kick(channel, text, number, orders)?;
        }
        Ok(())
    }

    /// Kicks the client of this number from the channel, if it has it open.
    fn kick(
        &mut self,
        channel: &[u8],
        text: &[u8],
        number: u64,
        orders: &mut Orders,
    ) -> Result<(), AllocError>
        ensures others { AreOthersSame number self.old self.new }
        ensures nobody { client_at self.old number ≡ None →
            (self.new ≡ self.old) × (orders.new ≡ orders.old) }
        ensures stays { (c : Client) → client_at self.old number ≡ Some c →
            has_open channel.now c.channels ≡ false →
            (self.new ≡ self.old) × (orders.new ≡ orders.old) }
        ensures closes { (c : Client) → client_at self.old number ≡ Some c →
            has_open channel.now c.channels ≡ true → OnOk result (client_at self.new number
            ≡ Some (record c { channels = closed channel.now c.channels })) }
        ensures written { (c : Client) → client_at self.old number ≡ Some c →
            has_open channel.now c.channels ≡ true →
            OnOk result (IsWritten (Some c) text.now orders.old orders.new) }
    {
        if !self.has_open(channel, number) {
            return Ok(());
        }
        self.write_to(number, text, orders)?;
        self.close(channel, number);
        Ok(())
    }

    /// Whether the client of this number has a channel open, if there is one.
    fn has_open(&self, channel: &[u8], number: u64) -> bool
        ensures { result ≡ has_open_in channel.now (client_at self.now number) }
    {
        match self.all.get(&number) {
            Some(client) => client.has_open(channel),
            None => false,
        }
    }

    /// Closes a channel for the client of this number.
    fn close(&mut self, channel: &[u8], number: u64)
        ensures others { AreOthersSame number self.old self.new }
        ensures closes { (c : Client) → client_at self.old number ≡ Some c →
            client_at self.new number ≡ Some (record c { channels = closed channel.now c.channels }) }
    {
        let Some(client) = self.all.get_mut(&number) else {
            return;
        };
        client.close(channel);
    }
}
