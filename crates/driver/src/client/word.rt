//! What a client learns of its node.
ghost use Rattle.std.specs.Prelude.{List, OnOk};
ghost use Rattle.client_gate.specs.Calls.{Call, Stands};
ghost use Rattle.client_gate.specs.declared.settings.Settings.{Settings};
ghost use Rattle.driver.specs.Asking.{HearsNode};
ghost use Rattle.driver.specs.Outages.{IsToldOff};

use crate::absence::Absence;
use crate::client::Client;
use crate::order::Now;
use crate::orders::Orders;
use std::alloc::AllocError;

impl Client {
    /// Its node reported that notes up to this one may be lost, and whether it refused a turn.
    pub fn hear_node(
        &mut self,
        now: &Now,
        lost: u64,
        is_refused: bool,
        orders: &mut Orders,
    ) -> Result<(), AllocError>
        ensures { (s : Settings) (calls : List Call) → Stands s calls self.old.gate → OnOk result
            (HearsNode lost is_refused now.now.ms now.now.at s calls
            self.old orders.old self.new orders.new) }
    {
        if is_refused && self.gate.waiting() > 0 {
            self.is_held_up = true;
        }
        if lost < self.asked.note {
            return Ok(());
        }
        self.ask_again(now, orders)
    }

    /// Its node serves nobody, and the run it is a client of is over: the client gets the reason, and its connection is
    /// closed.
    pub fn hear_absence(&self, why: Absence, orders: &mut Orders) -> Result<(), AllocError>
        ensures { OnOk result (IsToldOff why self.now orders.old orders.new) }
    {
        if self.is_gone {
            return Ok(());
        }
        let mut error = Vec::from_slice(self.alloc, b"ERROR :node ")?;
        error.push(b'0' + self.origin.node())?;
        error.extend_from_slice(why.words())?;
        orders.write(self.origin.client(), error)?;
        orders.close(self.origin.client())?;
        self.tell_left(orders)?;
        Ok(())
    }
}
