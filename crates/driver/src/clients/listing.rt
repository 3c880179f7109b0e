//! The list of clients and channels, for one client that asks.
ghost use Rattle.std.specs.Prelude.{◌≡◌, None, OnOk, map};
ghost use Rattle.driver.specs.Absent.{absent_text};
ghost use Rattle.driver.specs.Nicks.{AreMissed, IsToldOf};
ghost use Rattle.driver.specs.Answering.{AllAreListed, AreTold, IsListed};
ghost use Rattle.driver.specs.Rosters.{client_at};

use crate::absent_channels::AbsentChannel;
use crate::clients::Clients;
use crate::clients::writing::is_reached;
use crate::driver::nick::notice;
use crate::orders::Orders;
use crate::standing::client_text;
use std::alloc::AllocError;

impl Clients {
    /// Sends the client of this number, under this nick, the list of attached clients.
    pub fn list_to(&self, number: u64, nick: &[u8], orders: &mut Orders) -> Result<(), AllocError>
        ensures { OnOk result
            (AllAreListed number self.now nick.now orders.old orders.new) }
    {
        let numbers = self.numbers()?;
        for listed in numbers {
            self.list_one(listed, number, nick, orders)?;
        }
        Ok(())
    }

    /// Sends the client of this number a line about another client, if that one is attached and connected.
    fn list_one(
        &self,
        listed: u64,
        number: u64,
        nick: &[u8],
        orders: &mut Orders,
    ) -> Result<(), AllocError>
        ensures { OnOk result (IsListed (client_at self.now listed)
            (client_at self.now number) nick.now orders.old orders.new) }
    {
        let Some(client) = self.all.get(&listed) else {
            return Ok(());
        };
        if !is_reached(client) {
            return Ok(());
        }
        let text = client_text(self.alloc, client.origin(), client.name())?;
        let line = notice(self.alloc, nick, text.as_slice())?;
        self.tell(number, line.as_slice(), orders)
    }

    /// Sends the client of this number, under this nick, a line for each of these channels: that it is not joined and,
    /// if known, why.
    #[tactic(auto, unfolding(crate::specs::Nicks::AreMissed))]
    pub fn tell_absent(
        &self,
        number: u64,
        nick: &[u8],
        channels: &[AbsentChannel],
        orders: &mut Orders,
    ) -> Result<(), AllocError>
        ensures told { OnOk result (AreMissed channels.now (client_at self.now number) nick.now
            orders.old orders.new) }
        ensures nobody { client_at self.now number ≡ None → orders.new ≡ orders.old }
    {
        match channels {
            [] => Ok(()),
            [missed, more @ ..] => {
                self.tell_one_absent(number, nick, missed, orders)?;
                self.tell_absent(number, nick, more, orders)
            }
        }
    }

    /// Sends the line for one channel.
    fn tell_one_absent(
        &self,
        number: u64,
        nick: &[u8],
        missed: &AbsentChannel,
        orders: &mut Orders,
    ) -> Result<(), AllocError>
        ensures told { OnOk result (IsToldOf (absent_text missed.now) (client_at self.now number)
            nick.now orders.old orders.new) }
        ensures nobody { client_at self.now number ≡ None → orders.new ≡ orders.old }
    {
        let Some(text) = missed.text(self.alloc)? else {
            return Ok(());
        };
        let line = notice(self.alloc, nick, text.as_slice())?;
        self.tell(number, line.as_slice(), orders)
    }

    /// Sends the client of this number these texts from `*status`, under this nick.
    #[tactic(auto, unfolding(crate::specs::Answering::AreTold))]
    pub fn tell_lines(
        &self,
        number: u64,
        nick: &[u8],
        texts: &[&[u8]],
        orders: &mut Orders,
    ) -> Result<(), AllocError>
        ensures { OnOk result (AreTold (map (λ text. text.now) texts.now)
            (client_at self.now number) nick.now orders.old orders.new) }
    {
        match texts {
            [] => Ok(()),
            [text, more @ ..] => {
                let line = notice(self.alloc, nick, *text)?;
                self.tell(number, line.as_slice(), orders)?;
                self.tell_lines(number, nick, more, orders)
            }
        }
    }
}
