//! Clients that are to leave.
ghost use Rattle.std.specs.Prelude.{◌≡◌, None, Some, OnOk};
ghost use Rattle.std.specs.BTreeMap.{keys};
ghost use Rattle.driver.specs.Crowds.{DismissEach, told};
ghost use Rattle.driver.specs.Leaving.{IsDismissed};
ghost use Rattle.driver.specs.Rosters.{AreOthersSame, Serves, client_at};

use crate::clients::Clients;
use crate::order::Now;
use crate::orders::Orders;
use std::alloc::AllocError;

impl Clients {
    /// All clients are to leave, as if each had sent QUIT.
    pub fn dismiss_all(&mut self, now: &Now, orders: &mut Orders) -> Result<(), AllocError>
        ensures { OnOk result (DismissEach now.now.at now.now.ms (keys self.old.all)
            (told self.old orders.old) (told self.new orders.new)) }
    {
        let numbers = self.numbers()?;
        for number in numbers {
            self.dismiss(now, number, orders)?;
        }
        Ok(())
    }

    /// The client of this number is to leave, and is forgotten if nothing is left to do for it.
    fn dismiss(&mut self, now: &Now, number: u64, orders: &mut Orders) -> Result<(), AllocError>
        ensures others { AreOthersSame number self.old self.new }
        ensures nobody { client_at self.old number ≡ None →
            (self.new ≡ self.old) × (orders.new ≡ orders.old) }
        ensures served { OnOk result (Serves (λ c. client_at self.old number ≡ Some c)
            (λ s calls c new. IsDismissed now.now.ms now.now.at s calls c orders.old
            new orders.new) number self.new) }
    {
        let Some(client) = self.all.get_mut(&number) else {
            return Ok(());
        };
        client.dismiss(now, orders)?;
        self.forget_if_over(number);
        Ok(())
    }
}
