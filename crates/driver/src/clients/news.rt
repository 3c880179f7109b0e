//! A node's report about its notes reaches its clients.
ghost use Rattle.std.specs.Prelude.{◌≡◌, true, false, None, Some, OnOk};
ghost use Rattle.std.specs.BTreeMap.{keys};
ghost use Rattle.driver.specs.declared.client.Client.{Client};
ghost use Rattle.driver.specs.Asking.{HearsNode};
ghost use Rattle.driver.specs.Crowds.{WordEach, is_of, is_one_of, told};
ghost use Rattle.driver.specs.Rosters.{AreOthersSame, Serves, client_at};

use crate::clients::Clients;
use crate::order::Now;
use crate::orders::Orders;
use raft_log::NodeId;
use std::alloc::AllocError;

impl Clients {
    /// Notes up to this one may be lost to a node, and it did or did not refuse a turn: each of its clients hears that.
    pub fn hear_node(
        &mut self,
        now: &Now,
        node: NodeId,
        lost: u64,
        is_refused: bool,
        orders: &mut Orders,
    ) -> Result<(), AllocError>
        ensures { OnOk result (WordEach now.now.at now.now.ms node lost is_refused
            (keys self.old.all) (told self.old orders.old) (told self.new orders.new)) }
    {
        let numbers = self.numbers()?;
        for number in numbers {
            self.hear_if_of(now, node, lost, is_refused, number, orders)?;
        }
        Ok(())
    }

    /// The client of this number hears it if it belongs to this node.
    fn hear_if_of(
        &mut self,
        now: &Now,
        node: NodeId,
        lost: u64,
        is_refused: bool,
        number: u64,
        orders: &mut Orders,
    ) -> Result<(), AllocError>
        ensures others { AreOthersSame number self.old self.new }
        ensures nobody { client_at self.old number ≡ None →
            (self.new ≡ self.old) × (orders.new ≡ orders.old) }
        ensures stays { (c : Client) → client_at self.old number ≡ Some c →
            is_of c.origin node ≡ false → (self.new ≡ self.old) × (orders.new ≡ orders.old) }
        ensures served { OnOk result (Serves
            (λ c. (client_at self.old number ≡ Some c) × (is_of c.origin node ≡ true))
            (λ s calls c new. HearsNode lost is_refused now.now.ms now.now.at s calls c
            orders.old new orders.new) number self.new) }
    {
        if !self.is_of(node, number) {
            return Ok(());
        }
        let Some(client) = self.all.get_mut(&number) else {
            return Ok(());
        };
        client.hear_node(now, lost, is_refused, orders)?;
        self.forget_if_over(number);
        Ok(())
    }

    /// Whether the client of this number belongs to this node.
    pub fn is_of(&self, node: NodeId, number: u64) -> bool
        ensures { result ≡ is_one_of (client_at self.now number) node }
    {
        match self.all.get(&number) {
            Some(client) => client.node() == node,
            None => false,
        }
    }
}
