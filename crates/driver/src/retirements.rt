//! The retirements of all nodes.
ghost use Rattle.std.specs.Prelude.{◌≡◌, ◌-◌, OnOk, map, slice_get};
ghost use Rattle.driver.specs.Absences.{retired_in};
ghost use Rattle.driver.specs.Monitors.{told};
ghost use Rattle.driver.specs.Driving.{orders_at, tick_orders, ticked};
ghost use Rattle.driver.specs.Retiring.{applied_floor, fresh, heard_in, is_news, no_retirements};
ghost use Rattle.driver.specs.Retiring.{retirement_at, restart_at, restart_behind};
ghost use Rattle.driver.specs.Rounds.{GoesRound, Spreads, SpreadsAll, round, retirement_told};
ghost use Rattle.driver.specs.Rounds.{ask_orders, retired, place_asked, retirement_begun, retirement_due};
ghost use Rattle.driver.specs.Telling.{ordered};

use crate::leader::leader_of;
use crate::node_monitor::{MOST_NODES, NodeMonitor};
use crate::order::Now;
use crate::orders::Orders;
use crate::retirement::Retirement;
use crate::settings::Settings;
use node_notes::Status;
use raft_log::NodeId;
use std::alloc::AllocError;
use wire_bytes::Number;

/// The retirement of each node whose earlier runs are gone.
#[derive(Drop)]
pub struct Retirements {
    /// Node 1's first.
    all: [Option<Retirement>; MOST_NODES],
}

impl Retirements {
    /// No retirements.
    pub fn new() -> Retirements
        ensures { result.all ≡ no_retirements }
    {
        Retirements {
            all: [None, None, None, None, None, None, None],
        }
    }

    /// A run of a node began, with this boot: the node is asked at once to retire the earlier ones.
    pub fn begin(
        &mut self,
        now: &Now,
        monitors: &[NodeMonitor; MOST_NODES],
        node: NodeId,
        boot: Number,
        orders: &mut Orders,
    ) -> Result<(), AllocError>
        ensures retirements { OnOk result (self.new.all ≡ retirement_begun orders.old now.now.ms boot
            (slice_get monitors.now (node - 1)) self.old.all) }
        ensures told { OnOk result (orders.new ≡ ordered orders.old
            (orders_at (λ monitor. retirement_told (fresh monitor.id boot) monitor) monitors.now node)) }
    {
        let monitor = &monitors[node.value() as usize - 1];
        let mut retirement = Retirement::new(monitor.id(), boot);
        retirement.ask(now, monitor, orders)?;
        self.all[monitor.id().value() as usize - 1] = Some(retirement);
        Ok(())
    }

    /// The runs of this node that are over are to be retired: asked for once a node leads.
    pub fn retire_run(
        &mut self,
        now: &Now,
        settings: &Settings,
        monitors: &[NodeMonitor; MOST_NODES],
        node: NodeId,
    )
        ensures { self.new ≡ record self.old {
          all = retired_in settings.now now.now.ms
              (slice_get monitors.now (node - 1)) self.old.all;
        } }
    {
        let monitor = &monitors[node.value() as usize - 1];
        let place = &mut self.all[monitor.id().value() as usize - 1];
        retire(place, now, settings, monitor);
    }

    /// A report of a node: its state, how many of its notes are done, and whether a turn of it did nothing.
    pub fn hear(&mut self, node: NodeId, status: &Status, done: u64, is_refused: bool)
        ensures { self.new ≡ record self.old
            { all = map (heard_in node status.now done is_refused) self.old.all } }
    {
        hear_each(self.all.as_mut_slice(), node, status, done, is_refused);
    }

    /// Time passed: what may be lost is asked for again, at the node that leads, and so is the retirement of a node
    /// that is down or has not answered for ten timeouts.
    pub fn tick(
        &mut self,
        now: &Now,
        settings: &Settings,
        monitors: &[NodeMonitor; MOST_NODES],
        orders: &mut Orders,
    ) -> Result<(), AllocError>
        ensures { OnOk result (GoesRound settings.now now.now.ms monitors.now
            (round self.old.all orders.old) (round self.new.all orders.new)) }
    {
        let Some(leader) = leader_of(monitors) else {
            return Ok(());
        };
        self.spread_all(now, settings, leader, monitors, orders)?;
        Ok(())
    }

    /// Each node has its turn, while this one leads.
    fn spread_all(
        &mut self,
        now: &Now,
        settings: &Settings,
        leader: NodeId,
        monitors: &[NodeMonitor; MOST_NODES],
        orders: &mut Orders,
    ) -> Result<(), AllocError>
        ensures { OnOk result (SpreadsAll 7 settings.now now.now.ms leader 1 monitors.now
            (round self.old.all orders.old) (round self.new.all orders.new)) }
    {
        for id in 1..MOST_NODES as u8 + 1 {
            self.spread(now, settings, leader, NodeId::new(id), monitors, orders)?;
        }
        Ok(())
    }

    /// A node's turn: if it is down, or has not answered for ten timeouts, its run is retired; and
    /// a retirement that is due is asked for at the node that leads.
    fn spread(
        &mut self,
        now: &Now,
        settings: &Settings,
        leader: NodeId,
        node: NodeId,
        monitors: &[NodeMonitor; MOST_NODES],
        orders: &mut Orders,
    ) -> Result<(), AllocError>
        ensures { OnOk result (Spreads settings.now now.now.ms leader node monitors.now
            (round self.old.all orders.old) (round self.new.all orders.new)) }
    {
        let place = &mut self.all[node.value() as usize - 1];
        retire(place, now, settings, &monitors[node.value() as usize - 1]);
        let via = &monitors[leader.value() as usize - 1];
        ask_if_due(place, now, settings, via, orders)?;
        Ok(())
    }

    /// The notes that a node gets from the clock, and from the retirement of its run.
    pub fn tick_monitor(
        &self,
        now: &Now,
        settings: &Settings,
        monitor: &mut NodeMonitor,
        orders: &mut Orders,
    ) -> Result<(), AllocError>
        ensures monitor { OnOk result
            (monitor.new ≡ ticked orders.old self.now.all settings.now now.now.ms monitor.old) }
        ensures told { OnOk result (orders.new ≡ ordered orders.old
            (tick_orders orders.old self.now.all settings.now now.now.ms monitor.old)) }
    {
        monitor.tick(now, settings, orders)?;
        self.restart_outlived(monitor, orders)?;
        Ok(())
    }

    /// Restarts a node that lives on in a run that is gone for all nodes: the requests of its clients are refused from
    /// then on.
    fn restart_outlived(
        &self,
        monitor: &mut NodeMonitor,
        orders: &mut Orders,
    ) -> Result<(), AllocError>
        ensures told { OnOk result (orders.new
            ≡ ordered orders.old (told monitor.old.id (restart_at self.now.all monitor.old))) }
        ensures monitor { OnOk result
            (monitor.new ≡ restart_behind orders.old monitor.old (restart_at self.now.all monitor.old)) }
    {
        match self.applied_floor(monitor.id()) {
            Some(floor) => monitor.restart_below(floor, orders),
            None => Ok(()),
        }
    }

    /// The runs of a node below this one are gone for all nodes, if its retirement is known to be applied.
    fn applied_floor(&self, node: NodeId) -> Option<Number>
        ensures { result ≡ applied_floor (retirement_at self.now.all node) }
    {
        match self.all.get(node.value() as usize - 1) {
            Some(Some(retirement)) => retirement.applied_floor(),
            _ => None,
        }
    }
}

/// A node reported: each retirement that was asked for at it takes note.
fn hear_each(
    places: &mut [Option<Retirement>],
    node: NodeId,
    status: &Status,
    done: u64,
    is_refused: bool,
)
    ensures { places.new ≡ map (heard_in node status.now done is_refused) places.old }
{
    for place in places.iter_mut() {
        hear_at(place, node, status, done, is_refused);
    }
}

/// A retirement that was asked for at this node takes note of its report.
fn hear_at(
    place: &mut Option<Retirement>,
    node: NodeId,
    status: &Status,
    done: u64,
    is_refused: bool,
)
    ensures { place.new ≡ heard_in node status.now done is_refused place.old }
{
    if let Some(retirement) = place {
        if retirement.is_via(node) {
            retirement.hear(status, done, is_refused);
        }
    }
}

/// Retires the run of a node that is down, or has not answered for ten timeouts.
fn retire(place: &mut Option<Retirement>, now: &Now, settings: &Settings, monitor: &NodeMonitor)
    ensures { place.new ≡ retired settings.now now.now.ms monitor.now place.old }
{
    let Some(floor) = monitor.dead_below(now, settings) else {
        return;
    };
    if is_news(place, floor) {
        *place = Some(Retirement::new(monitor.id(), floor));
    }
}

/// Asks for a retirement at this node, if it is due.
fn ask_if_due(
    place: &mut Option<Retirement>,
    now: &Now,
    settings: &Settings,
    monitor: &NodeMonitor,
    orders: &mut Orders,
) -> Result<(), AllocError>
    ensures place { OnOk result (place.new ≡ place_asked orders.old
        (retirement_due settings.now now.now.ms place.old) now.now.ms monitor.now place.old) }
    ensures told { OnOk result (orders.new ≡ ordered orders.old
        (ask_orders (retirement_due settings.now now.now.ms place.old) monitor.now)) }
{
    let Some(retirement) = place else {
        return Ok(());
    };
    if !retirement.is_due(now, settings) {
        return Ok(());
    }
    retirement.ask(now, monitor, orders)?;
    Ok(())
}

/// Whether this says more than the retirement before.
fn is_news(place: &Option<Retirement>, floor: Number) -> bool
    ensures { result ≡ is_news place.now floor }
{
    match place {
        Some(retirement) => retirement.floor().value() < floor.value(),
        None => true,
    }
}
