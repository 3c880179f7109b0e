//! What happens as time passes.
ghost use Rattle.std.specs.Prelude.{◌≡◌, OnOk, map};
ghost use Rattle.driver.specs.Driving.{Claims, Serves, ServesIf, Ticks, TicksMonitor, TicksNode, TickNodes};
ghost use Rattle.driver.specs.Leading.{IsLeader, is_that};
ghost use Rattle.driver.specs.Waking.{awake, slept, waited_longer};

use crate::driver::Driver;
use crate::driver::session::is_that;
use crate::leader::leader_of;
use crate::node_monitor::{MOST_NODES, NodeMonitor};
use crate::order::Now;
use crate::timer::Timer;
use raft_log::NodeId;
use std::alloc::AllocError;

impl Driver {
    /// Time passed.
    pub fn tick(&mut self, now: &Now) -> Result<(), AllocError>
        ensures { OnOk result (Ticks now.now.ms now.now.at self.old self.new) }
    {
        self.wake(now);
        self.ask_quiet(now)?;
        self.leave_silent(now)?;
        let timeout = self.settings.timeout_ms;
        self.clients
            .tick(now, timeout, &self.monitors, &mut self.orders)?;
        self.tick_nodes(now)?;
        self.retirements
            .tick(now, &self.settings, &self.monitors, &mut self.orders)?;
        Ok(())
    }

    /// The driver runs at this moment. Of the time since it last ran, all beyond half a timeout does not count as
    /// silence of any node.
    pub fn wake(&mut self, now: &Now)
        ensures { self.new ≡ awake now.now.ms self.old }
    {
        let slept = self.slept(now);
        self.ran = Timer::from(now.ms);
        wait_longer(self.monitors.as_mut_slice(), slept);
    }

    /// How much of the time since it last ran does not count as silence.
    fn slept(&self, now: &Now) -> u64
        ensures { result ≡ slept self.now.ran self.now.settings.timeout_ms now.now.ms }
    {
        let passed = now.ms.saturating_sub(self.ran.since);
        passed.saturating_sub(self.settings.timeout_ms as u64 / 2)
    }

    /// Each node gets its notes.
    fn tick_nodes(&mut self, now: &Now) -> Result<(), AllocError>
        ensures { OnOk result (TickNodes 7 now.now.ms 1 self.old self.new) }
    {
        for id in 1..MOST_NODES as u8 + 1 {
            self.tick_node(now, NodeId::new(id))?;
        }
        Ok(())
    }

    /// The notes that a node gets from the clock, by its own state and that of the others.
    pub fn tick_node(&mut self, now: &Now, node: NodeId) -> Result<(), AllocError>
        ensures { OnOk result (TicksNode now.now.ms node self.old self.new) }
    {
        self.tick_monitor(now, node)?;
        let leader = self.leader();
        self.leave_older(now, &leader)?;
        self.serve_if(&leader, now, node)?;
        Ok(())
    }

    /// The notes that a node gets from the clock, and from the retirement of its run.
    fn tick_monitor(&mut self, now: &Now, node: NodeId) -> Result<(), AllocError>
        ensures { OnOk result (TicksMonitor now.now.ms node self.old self.new) }
    {
        let monitor = &mut self.monitors[node.value() as usize - 1];
        self.retirements
            .tick_monitor(now, &self.settings, monitor, &mut self.orders)
    }

    /// The leader of the greatest term, if one leads.
    fn leader(&self) -> Option<NodeId>
        ensures { IsLeader self.now.monitors result }
    {
        leader_of(&self.monitors)
    }

    /// Serves this node if it is the leader of the greatest term.
    fn serve_if(
        &mut self,
        leader: &Option<NodeId>,
        now: &Now,
        node: NodeId,
    ) -> Result<(), AllocError>
        ensures { OnOk result
            (ServesIf (is_that leader.now node) now.now.ms node self.old self.new) }
    {
        if !is_that(leader, node) {
            return Ok(());
        }
        self.serve(now, node)
    }

    /// For the leader of the greatest term: what waits goes out, a line is claimed, the server is connected to, and a
    /// drop ends if no line is left to claim.
    fn serve(&mut self, now: &Now, node: NodeId) -> Result<(), AllocError>
        ensures { OnOk result (Serves now.now.ms node self.old self.new) }
    {
        self.write_lines(now, node)?;
        self.claim(now, node)?;
        self.connect_for(now, node)?;
        self.end_drop(node)?;
        Ok(())
    }

    /// Claims the next line of this node's session, if it could go out at once or would be dropped.
    fn claim(&mut self, now: &Now, node: NodeId) -> Result<(), AllocError>
        ensures { OnOk result (Claims now.now.ms node self.old self.new) }
    {
        let may = self.may_claim(now);
        let monitor = &mut self.monitors[node.value() as usize - 1];
        monitor.claim(now, &self.settings, may, &mut self.orders)?;
        Ok(())
    }
}

/// This many milliseconds do not count as silence of any node.
fn wait_longer(monitors: &mut [NodeMonitor], ms: u64)
    ensures { monitors.new ≡ map (waited_longer ms) monitors.old }
{
    for monitor in monitors.iter_mut() {
        monitor.wait_longer(ms);
    }
}
