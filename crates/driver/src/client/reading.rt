//! Whether more is read from a client.
ghost use Rattle.driver.specs.Rosters.{IsReadOf};
ghost use Rattle.std.specs.Prelude.{Some};

use crate::client::Client;
use crate::node_monitor::{MOST_NODES, NodeMonitor, reads_for};
use crate::orders::Orders;

impl Client {
    /// Whether it is read: not while too many notes to its node wait, or too many of its requests.
    pub fn is_read(&self, monitors: &[NodeMonitor; MOST_NODES], orders: &Orders) -> bool
        ensures { IsReadOf result orders.now monitors.now (Some self.now) }
    {
        let is_full = self.is_full();
        !is_full && reads_for(monitors, orders, Some(self.node()))
    }
}
