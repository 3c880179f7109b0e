//! What a node's worker reports, and what follows from it.
ghost use Rattle.std.specs.Prelude.{◌≡◌, ◌-◌, is_some, slice_get, IfOk, OnOk};
ghost use Rattle.bouncer_tower.specs.Hosting.{class_of};
ghost use Rattle.driver.specs.Passing.{PassEach, Passes, PassesBy, ReachesClient};
ghost use Rattle.driver.specs.Driving.{orders_at, told_of};
ghost use Rattle.driver.specs.Retiring.{fresh};
ghost use Rattle.driver.specs.Rounds.{retirement_begun, retirement_told};
ghost use Rattle.driver.specs.Nicks.{nick_in};
ghost use Rattle.driver.specs.Reports.{Begins, BeginsIf, Hears, Stands, WordsBy, heard_at};
ghost use Rattle.driver.specs.Telling.{ordered};
ghost use Rattle.driver.specs.Writing.{link_passed};

use crate::absence::Absence;
use crate::driver::Driver;
use crate::driver::nick::nick_by;
use crate::node_monitor::Heard;
use crate::order::{Now, TowerReport};
use crate::rewording::reworded;
use bouncer_tower::{Tower, TowerEffect};
use machine_laws::{Class, Hosted};
use node_notes::{Progress, Report, Status};
use raft_log::NodeId;
use std::alloc::AllocError;
use wire_bytes::{Number, Origin};

impl Driver {
    /// A node's worker reported.
    pub fn hear(&mut self, now: &Now, report: TowerReport) -> Result<(), AllocError>
        ensures { OnOk result (Hears now.now.ms now.now.at report.node report.status
            report.effects.items report.progress (is_some report.fault) self.old self.new) }
    {
        let Report {
            node,
            status,
            effects,
            progress,
            fault,
        } = report;
        self.wake(now);
        // before the node may be known to be down: because of an effect a client may ask it for a Leave
        self.pass_all(now, node, effects.as_slice())?;
        let heard = self.hear_node(now, node, &status, &progress, fault.is_some())?;
        self.hear_word(now, node, &status, fault.is_some(), heard)?;
        self.begin_if(heard.is_new, now, node, status.boot)?;
        self.tick_node(now, node)?;
        Ok(())
    }

    /// A report gives a node's state, how far its worker is, and whether it refused a turn. Returns what is new.
    fn hear_node(
        &mut self,
        now: &Now,
        node: NodeId,
        status: &Status,
        progress: &Progress,
        is_refused: bool,
    ) -> Result<Heard, AllocError>
        ensures new { IfOk result (λ heard.
            heard ≡ heard_at self.old node status.now progress.now) }
        ensures stands { OnOk result
            (Stands now.now.ms node status.now progress.now is_refused self.old self.new) }
    {
        let monitor = &mut self.monitors[node.value() as usize - 1];
        let heard = monitor.hear(now, status, progress, &mut self.orders)?;
        let done = monitor.progress().done;
        self.retirements.hear(node, status, done, is_refused);
        Ok(heard)
    }

    /// A node's clients hear its report: that it is down, that notes to it may be lost, or that it refused a turn.
    fn hear_word(
        &mut self,
        now: &Now,
        node: NodeId,
        status: &Status,
        is_refused: bool,
        heard: Heard,
    ) -> Result<(), AllocError>
        ensures words { OnOk result (WordsBy status.now.down is_refused heard.has_lost
            now.now.ms now.now.at node self.old (told_of self.old) (told_of self.new)) }
        ensures rest { self.new ≡ record self.old
            { clients = self.new.clients; orders = self.new.orders } }
    {
        if status.down.is_some() {
            return self.clients.cut_off(Absence::Down, node, &mut self.orders);
        }
        if !is_refused && !heard.has_lost {
            return Ok(());
        }
        let lost = self.monitors[node.value() as usize - 1].progress().lost;
        self.clients
            .hear_node(now, node, lost, is_refused, &mut self.orders)
    }

    /// Effects from a node go to its clients, or to the server.
    fn pass_all(
        &mut self,
        now: &Now,
        node: NodeId,
        effects: &[TowerEffect],
    ) -> Result<(), AllocError>
        ensures { OnOk result
            (PassEach now.now.ms now.now.at node effects.now self.old self.new) }
    {
        for effect in effects {
            self.pass(now, node, effect)?;
        }
        Ok(())
    }

    /// An effect from a node goes to its client, or to the server; before that clients learn the nick that it shows, if
    /// it was not known.
    fn pass(&mut self, now: &Now, node: NodeId, effect: &TowerEffect) -> Result<(), AllocError>
        ensures { OnOk result
            (Passes now.now.ms now.now.at node effect.now self.old self.new) }
    {
        self.learn_nick(effect)?;
        self.hand_on(now, node, effect)?;
        Ok(())
    }

    /// An effect goes to whoever it is for.
    fn hand_on(&mut self, now: &Now, node: NodeId, effect: &TowerEffect) -> Result<(), AllocError>
        ensures passes { OnOk result (PassesBy (class_of effect.now) now.now.ms
            now.now.at self.old.link.stage (nick_in self.old) node effect.now (told_of self.old) (told_of self.new)) }
        ensures rest { OnOk result (self.new ≡ record self.old {
          clients = self.new.clients;
          orders = self.new.orders;
          link = link_passed self.old.settings.channel_keys.items (class_of effect.now) node
              self.old.link;
        }) }
    {
        match <Tower as Hosted>::class(effect) {
            Class::To(origin) => self.tell_client(now, origin, effect)?,
            Class::Rejoin(_, line) => self.rejoin(node, line)?,
            Class::Hand(_, _, _) | Class::Nowhere => {}
        }
        Ok(())
    }

    /// An effect for the client of this origin. If the buffers close the client by it, the client gets the reason. A
    /// line by which the server ends the session becomes a NOTICE.
    fn tell_client(
        &mut self,
        now: &Now,
        origin: Origin,
        effect: &TowerEffect,
    ) -> Result<(), AllocError>
        ensures hears { OnOk result (ReachesClient now.now.ms now.now.at (nick_in self.old) origin
            effect.now (told_of self.old) (told_of self.new)) }
        ensures rest { self.new ≡ record self.old
            { clients = self.new.clients; orders = self.new.orders } }
    {
        self.clients
            .tell_eviction(origin, effect, &mut self.orders)?;
        let nick = nick_by(&self.given, &self.settings.nick).as_bytes();
        let told = reworded(self.alloc, nick, effect)?;
        let effect = told.as_ref().unwrap_or(effect);
        self.clients
            .hear(now, nick, origin, effect, &mut self.orders)
    }

    /// Retires the earlier runs of a node if a run of it began.
    fn begin_if(
        &mut self,
        is_new: bool,
        now: &Now,
        node: NodeId,
        boot: Number,
    ) -> Result<(), AllocError>
        ensures { OnOk result (BeginsIf is_new now.now.ms now.now.at node boot self.old self.new) }
    {
        if !is_new {
            return Ok(());
        }
        self.begin(now, node, boot)
    }

    /// A run of a node began: its earlier runs' clients are closed, and these runs are retired.
    fn begin(&mut self, now: &Now, node: NodeId, boot: Number) -> Result<(), AllocError>
        ensures { OnOk result (Begins now.now.ms now.now.at node boot self.old self.new) }
    {
        self.clients
            .leave_runs_below(now, node.value(), boot.value(), &mut self.orders)?;
        self.retire_earlier(now, node, boot)?;
        Ok(())
    }

    /// Asks a node to retire its runs below this boot.
    fn retire_earlier(&mut self, now: &Now, node: NodeId, boot: Number) -> Result<(), AllocError>
        ensures retired { OnOk result (self.new.retirements.all ≡ retirement_begun self.old.orders
            now.now.ms boot (slice_get self.old.monitors (node - 1)) self.old.retirements.all) }
        ensures told { OnOk result (self.new.orders ≡ ordered self.old.orders
            (orders_at (λ monitor. retirement_told (fresh monitor.id boot) monitor) self.old.monitors node)) }
        ensures rest { self.new ≡ record self.old
            { retirements = self.new.retirements; orders = self.new.orders } }
    {
        self.retirements
            .begin(now, &self.monitors, node, boot, &mut self.orders)
    }
}
