//! A client that the buffers close gets the reason.
ghost use Rattle.std.specs.Prelude.{OnOk};
ghost use Rattle.driver.specs.Evicting.{IsEvicted};
ghost use Rattle.driver.specs.Rosters.{client_at};

use crate::clients::Clients;
use crate::orders::Orders;
use bouncer_tower::TowerEffect;
use std::alloc::AllocError;
use wire_bytes::Origin;

impl Clients {
    /// If the buffers close the client of this origin by this effect, it gets the reason, and the operator a log line.
    pub fn tell_eviction(
        &self,
        origin: Origin,
        effect: &TowerEffect,
        orders: &mut Orders,
    ) -> Result<(), AllocError>
        ensures { OnOk result
            (IsEvicted (client_at self.now origin.2) origin effect.now orders.old orders.new) }
    {
        if !self.is_there(origin) {
            return Ok(());
        }
        match self.all.get(&origin.client()) {
            Some(client) => client.tell_eviction(effect, orders),
            None => Ok(()),
        }
    }
}
