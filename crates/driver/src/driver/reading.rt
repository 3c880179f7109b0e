//! Which connections to read: not those whose input would only wait for its node.
ghost use Rattle.std.specs.Prelude.{◌≡◌};
ghost use Rattle.driver.specs.Links.{node_of};
ghost use Rattle.driver.specs.Rosters.{IsReadOf, client_at, is_read_for};

use crate::driver::Driver;
use crate::node_monitor::reads_for;

impl Driver {
    /// Whether the server's bytes are to be read. If not, they are read again once a report to `hear` says that notes
    /// of the session's node are done; what is given to `receive_line` meanwhile is not lost.
    pub fn reads_server(&self) -> bool
        ensures { result ≡ is_read_for self.now.orders self.now.monitors
            (node_of self.now.link.stage) }
    {
        reads_for(&self.monitors, &self.orders, self.link.node())
    }

    /// Whether this client's bytes are to be read. If not, they are read again once a report to `hear` says that notes
    /// of its node are done, or requests of it; what is given to `receive` meanwhile is not lost.
    pub fn reads_client(&self, number: u64) -> bool
        ensures { IsReadOf result self.now.orders self.now.monitors
            (client_at self.now.clients number) }
    {
        let is_full = self.clients.is_full(number);
        !is_full && reads_for(&self.monitors, &self.orders, self.clients.node_of(number))
    }
}
