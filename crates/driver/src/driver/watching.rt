//! Nodes that hang, and groups in which too few nodes are up.
ghost use Rattle.std.specs.Prelude.{◌≡◌, ◌≤◌, ◌-◌, OnOk, length, map, slice_get};
ghost use Rattle.driver.specs.Absences.{CutsBy, HangNodes, HangsIf, HangsNode, TellsGroup, TellsGroupIf, WatchesNodes};
ghost use Rattle.driver.specs.Absences.{begins_in, goes_on, group_news, hang_limit, hanging, hangs_news};
ghost use Rattle.driver.specs.Absences.{has_majority, hastened, hastened_if, is_hanging_in, is_new, is_short};
ghost use Rattle.driver.specs.Absences.{retired_in, serving};
ghost use Rattle.driver.specs.Driving.{changed_at, orders_at};
ghost use Rattle.driver.specs.Telling.{ordered};
ghost use Rattle.driver.specs.Monitors.{is_over};
ghost use Rattle.driver.specs.Nicks.{group_words};

use crate::absence::Absence;
use crate::driver::Driver;
use crate::news::News;
use crate::node_monitor::{MOST_NODES, NodeMonitor, hang_limit, quiet_limit};
use crate::order::Now;
use crate::timer::Timer;
use raft_log::NodeId;
use std::alloc::AllocError;
use wire_bytes::Number;

/// What clients are sent when too few nodes are up.
const TOO_FEW: &[u8] = b"Nothing is shown or sent for now: too few nodes are up.";

/// What they are sent when enough are up again.
const ENOUGH: &[u8] = b"Enough nodes are up again.";

impl Driver {
    /// Looks at the nodes. If one hangs, and a majority has been working for as long, its clients are told so and
    /// closed, and its run is retired. While fewer than a majority are up, those that are down are started again within
    /// two seconds; clients are told and it is logged when that begins and when it ends.
    pub fn watch_nodes(&mut self, now: &Now) -> Result<(), AllocError>
        ensures { OnOk result (WatchesNodes now.now.ms self.old self.new) }
    {
        let is_short = self.is_short(now);
        self.hasten_if(is_short);
        self.cut_off_by(now)?;
        self.tell_group(is_short)
    }

    /// Whether too few nodes are up: others are down or hang.
    fn is_short(&self, now: &Now) -> bool
        ensures { result ≡ is_short self.now now.now.ms }
    {
        !self.has_majority(now, hang_limit(&self.settings))
    }

    /// Starts nodes that are down again soon, if too few are up.
    fn hasten_if(&mut self, is_short: bool)
        ensures { self.new ≡ record self.old
            { monitors = hastened_if is_short self.old.monitors } }
    {
        if is_short {
            hasten_all(self.monitors.as_mut_slice());
        }
    }

    /// Whether more than half of the nodes serve clients, if each may be silent for this many milliseconds.
    fn has_majority(&self, now: &Now, limit: u64) -> bool
        ensures { result ≡ has_majority limit self.now now.now.ms }
    {
        let size = self.settings.size.value() as usize;
        size / 2 < serving(&self.monitors[..size], now, limit)
    }

    /// Cuts off the clients of nodes that hang, if a majority has been working for as long as these are silent.
    fn cut_off_by(&mut self, now: &Now) -> Result<(), AllocError>
        ensures { OnOk result (CutsBy (goes_on self.old now.now.ms)
            (is_over self.old.going_on (hang_limit self.old.settings.timeout_ms) now.now.ms)
            now.now.ms self.old self.new) }
    {
        if !self.has_majority(now, quiet_limit(&self.settings)) {
            self.going_on = Timer::from(now.ms);
            return Ok(());
        }
        if !self.going_on.has_passed(hang_limit(&self.settings), now.ms) {
            return Ok(());
        }
        self.cut_off_hanging(now)
    }

    /// Looks for nodes that begin to hang.
    fn cut_off_hanging(&mut self, now: &Now) -> Result<(), AllocError>
        ensures { OnOk result (HangNodes 7 now.now.ms 1 self.old self.new) }
    {
        for id in 1..MOST_NODES as u8 + 1 {
            self.cut_off_if_hanging(now, NodeId::new(id))?;
        }
        Ok(())
    }

    /// If a node begins to hang, its clients are told so and closed, and its run is retired.
    fn cut_off_if_hanging(&mut self, now: &Now, node: NodeId) -> Result<(), AllocError>
        ensures { OnOk result (HangsIf (begins_in self.old.settings.timeout_ms now.now.ms
            (slice_get self.old.monitors (node - 1))) now.now.ms node self.old self.new) }
    {
        match self.begins_to_hang(now, node) {
            Some(boot) => self.hang(now, node, boot),
            None => Ok(()),
        }
    }

    /// The run in which a node begins to hang, if it does.
    fn begins_to_hang(&self, now: &Now, node: NodeId) -> Option<Number>
        ensures { result ≡ begins_in self.now.settings.timeout_ms now.now.ms
            (slice_get self.now.monitors (node - 1)) }
    {
        let monitor = self.monitors.get(node.value() as usize - 1)?;
        monitor.begins_to_hang(now, &self.settings)
    }

    /// A node hangs in this run: its clients are told so and closed, and the run is retired.
    fn hang(&mut self, now: &Now, node: NodeId, boot: Number) -> Result<(), AllocError>
        ensures { OnOk result (HangsNode now.now.ms node boot self.old self.new) }
    {
        self.note_hanging(node, boot)?;
        self.retire_hanging(now, node);
        self.clients
            .cut_off(Absence::Hanging, node, &mut self.orders)
    }

    /// Records that a node hangs in this run, and logs it.
    fn note_hanging(&mut self, node: NodeId, boot: Number) -> Result<(), AllocError>
        ensures monitors { OnOk result
            (self.new.monitors ≡ changed_at (hanging boot) self.old.monitors node) }
        ensures told { OnOk result (self.new.orders
            ≡ ordered self.old.orders (orders_at hangs_news self.old.monitors node)) }
        ensures rest { self.new ≡ record self.old
            { monitors = self.new.monitors; orders = self.new.orders } }
    {
        self.monitors[node.value() as usize - 1].hang(boot, &mut self.orders)
    }

    /// Retires the runs of a node that are over.
    fn retire_hanging(&mut self, now: &Now, node: NodeId)
        ensures retired { self.new.retirements.all ≡ retired_in self.old.settings now.now.ms
            (slice_get self.old.monitors (node - 1)) self.old.retirements.all }
        ensures rest { self.new ≡ record self.old { retirements = self.new.retirements } }
    {
        self.retirements
            .retire_run(now, &self.settings, &self.monitors, node);
    }

    /// Tells people whether too few nodes are up, if that is new.
    fn tell_group(&mut self, is_short: bool) -> Result<(), AllocError>
        ensures { OnOk result (TellsGroupIf (is_new is_short self.old.is_short) is_short
            self.old self.new) }
    {
        if !is_new(is_short, self.is_short) {
            return Ok(());
        }
        self.tell_change(is_short)
    }

    /// Tells people that too few nodes are up, or enough again.
    fn tell_change(&mut self, is_short: bool) -> Result<(), AllocError>
        ensures { OnOk result (TellsGroup is_short self.old self.new) }
    {
        self.is_short = is_short;
        self.orders.log(group_news(is_short))?;
        self.notice(group_words(is_short))
    }

    /// Whether clients of this node were told that it hangs, and no run of it has begun since.
    pub fn is_hanging(&self, node: NodeId) -> bool
        ensures { result ≡ is_hanging_in (slice_get self.now.monitors (node - 1)) }
    {
        match self.monitors.get(node.value() as usize - 1) {
            Some(monitor) => monitor.is_hanging(),
            None => false,
        }
    }
}

/// How many of these nodes serve clients, if each may be silent for this many milliseconds.
#[tactic(auto, unfolding(crate::specs::Absences::serving))]
fn serving(monitors: &[NodeMonitor], now: &Now, limit: u64) -> usize
    ensures count { result ≡ serving limit now.now.ms monitors.now }
    ensures most { result ≤ length monitors.now }
{
    match monitors {
        [] => 0,
        [monitor, rest @ ..] => {
            let more = serving(rest, now, limit);
            if monitor.is_absent(now, limit) {
                more
            } else {
                1 + more
            }
        }
    }
}

/// Starts each node that is down again soon.
fn hasten_all(monitors: &mut [NodeMonitor])
    ensures { monitors.new ≡ map hastened monitors.old }
{
    for monitor in monitors.iter_mut() {
        monitor.hasten();
    }
}

/// Whether the state that people know is another than this one.
fn is_new(is_short: bool, known: bool) -> bool
    ensures { result ≡ is_new is_short known }
{
    if is_short { !known } else { known }
}

/// What is logged when too few nodes are up, or enough again.
fn group_news(is_short: bool) -> News
    ensures { result ≡ group_news is_short }
{
    if is_short { News::TooFew } else { News::Enough }
}

/// What clients are sent then.
pub fn group_words(is_short: bool) -> &'static [u8]
    ensures { result.now ≡ group_words is_short }
{
    if is_short { TOO_FEW } else { ENOUGH }
}
