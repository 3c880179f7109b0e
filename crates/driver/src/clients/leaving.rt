//! Clients whose run of their node is over.
ghost use Rattle.std.specs.Prelude.{◌≡◌, List, true, false, None, Some, OnOk};
ghost use Rattle.std.specs.BTreeMap.{keys};
ghost use Rattle.client_gate.specs.Calls.{Call, Stands, gate};
ghost use Rattle.client_gate.specs.Gates.{last_request};
ghost use Rattle.client_gate.specs.declared.settings.Settings.{Settings};
ghost use Rattle.driver.specs.declared.client.Client.{Client};
ghost use Rattle.driver.specs.Clients.{parting_unless};
ghost use Rattle.driver.specs.Crowds.{CutEach, LeaveEach, is_below, is_of, is_one_below, told};
ghost use Rattle.driver.specs.Outages.{IsToldOff};
ghost use Rattle.driver.specs.Rosters.{AreOthersSame, client_at};
ghost use Rattle.driver.specs.Telling.{ordered};

use crate::absence::Absence;
use crate::clients::Clients;
use crate::order::Now;
use crate::orders::Orders;
use raft_log::NodeId;
use std::alloc::AllocError;

impl Clients {
    /// A run of a node began, with this boot: the connections of earlier runs' clients are closed, and nothing more is
    /// done for them.
    pub fn leave_runs_below(
        &mut self,
        now: &Now,
        node: u8,
        boot: u64,
        orders: &mut Orders,
    ) -> Result<(), AllocError>
        ensures { OnOk result (LeaveEach now.now.at node boot (keys self.old.all)
            (told self.old orders.old) (told self.new orders.new)) }
    {
        let numbers = self.numbers()?;
        for number in numbers {
            self.leave_if_below(now, node, boot, number, orders)?;
        }
        Ok(())
    }

    /// Closes the client of this number if it belongs to a run of this node below this boot.
    fn leave_if_below(
        &mut self,
        now: &Now,
        node: u8,
        boot: u64,
        number: u64,
        orders: &mut Orders,
    ) -> Result<(), AllocError>
        ensures others { AreOthersSame number self.old self.new }
        ensures nobody { client_at self.old number ≡ None →
            (self.new ≡ self.old) × (orders.new ≡ orders.old) }
        ensures stays { (c : Client) → client_at self.old number ≡ Some c →
            is_below c.origin node boot ≡ false →
            (self.new ≡ self.old) × (orders.new ≡ orders.old) }
        ensures leaves { (c : Client) → client_at self.old number ≡ Some c →
            is_below c.origin node boot ≡ true → OnOk result (client_at self.new number ≡ None) }
        ensures told { (s : Settings) (calls : List Call) (c : Client) →
            client_at self.old number ≡ Some c → is_below c.origin node boot ≡ true →
            Stands s calls c.gate → OnOk result (orders.new ≡ ordered orders.old
            (parting_unless c.is_gone c.is_attached c.origin now.now.at (last_request (gate s calls)))) }
    {
        if !self.is_below(node, boot, number) {
            return Ok(());
        }
        let Some(client) = self.all.get_mut(&number) else {
            return Ok(());
        };
        client.hang_up(now, orders)?;
        self.all.remove(&number);
        Ok(())
    }

    /// Whether the client of this number belongs to a run of this node below this boot.
    fn is_below(&self, node: u8, boot: u64, number: u64) -> bool
        ensures { result ≡ is_one_below (client_at self.now number) node boot }
    {
        match self.all.get(&number) {
            Some(client) => client.origin().node() == node && client.origin().boot() < boot,
            None => false,
        }
    }

    /// A node serves nobody: its clients get the reason, their connections are closed, and nothing more is done for
    /// them.
    pub fn cut_off(
        &mut self,
        why: Absence,
        node: NodeId,
        orders: &mut Orders,
    ) -> Result<(), AllocError>
        ensures { OnOk result (CutEach why node (keys self.old.all)
            (told self.old orders.old) (told self.new orders.new)) }
    {
        let numbers = self.numbers()?;
        for number in numbers {
            self.cut_if_of(why, node, number, orders)?;
        }
        Ok(())
    }

    /// Cuts off the client of this number if it belongs to this node.
    fn cut_if_of(
        &mut self,
        why: Absence,
        node: NodeId,
        number: u64,
        orders: &mut Orders,
    ) -> Result<(), AllocError>
        ensures others { AreOthersSame number self.old self.new }
        ensures nobody { client_at self.old number ≡ None →
            (self.new ≡ self.old) × (orders.new ≡ orders.old) }
        ensures stays { (c : Client) → client_at self.old number ≡ Some c →
            is_of c.origin node ≡ false → (self.new ≡ self.old) × (orders.new ≡ orders.old) }
        ensures leaves { (c : Client) → client_at self.old number ≡ Some c →
            is_of c.origin node ≡ true → OnOk result (client_at self.new number ≡ None) }
        ensures told { (c : Client) → client_at self.old number ≡ Some c →
            is_of c.origin node ≡ true → OnOk result (IsToldOff why c orders.old orders.new) }
    {
        if !self.is_of(node, number) {
            return Ok(());
        }
        let Some(client) = self.all.get(&number) else {
            return Ok(());
        };
        client.hear_absence(why, orders)?;
        self.all.remove(&number);
        Ok(())
    }
}
