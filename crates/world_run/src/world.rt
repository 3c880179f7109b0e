//! Worlds: groups of nodes over stores in memory, after a list of events.
ghost use Rattle.std.specs.Prelude.{◌≡◌, ◌≤◌, ◌↔◌, Err, None, IfOk, IfSome, length};
ghost use Rattle.raft_log.specs.Peers.{IsGroupSize};
ghost use Rattle.agreement.specs.World.{committed};
ghost use Rattle.raft_log.specs.Lists.{item};
ghost use Rattle.world_run.specs.Groups.{IsNodeOf, IsWorld};
ghost use Rattle.world_run.specs.Laws.{IsAgreed, IsFaithful, IsRaft, RunsAreApart};
ghost use Rattle.world_run.specs.Told.{events_of};
ghost use Rattle.world_run.specs.declared.outcome.WorldFault.TheVariants.{Refused};
ghost use Rattle.wire_bytes.specs.Limits.{node_limit};

use crate::group::Group;
use crate::outcome::{Outcome, WorldFault};
use machine_laws::Hosted;
use raft_log::{Entry, GroupSize, NodeState};
use raft_node::Described;
use std::alloc::{AllocError, Global};
use std::marker::Model;
use world_events::Event;

/// A group of nodes that host a machine over stores in memory, and what came out of each event.
#[derive(Drop)]
pub struct World<M: Hosted> {
    group: Group<M>,
    outs: Vec<Outcome<M::Effect, M::Played>>,
}

impl<M: Hosted> Model for World<M> {
    ghost use Rattle.std.specs.Prelude.{◌≤◌, length};
    ghost use Rattle.world_run.specs.Groups.{WorldParts, nodes_in};
    ghost use Rattle.wire_bytes.specs.Limits.{node_limit};

    ghost Value = { WorldParts M.Setup M.Command M.Effect M.Played };

    ghost view = { λ w. record {
      setup = w.group.setup;
      nodes = nodes_in w.group.cells.items;
      outs = w.outs.items;
    } };

    ghost invariant = { λ w. length w.group.cells.items ≤ node_limit };
}

impl<M: Hosted> World<M> {
    /// What a group of this size over new stores becomes by these events, in order. A node or a message that does not
    /// exist changes nothing. A size that no group has is `Refused`.
    ///
    /// For what any two nodes commit at any two moments of the events, one list begins the other: State Machine Safety
    /// of the Raft paper's Figure 3.
    pub fn run(
        alloc: Global,
        size: u8,
        setup: &M::Setup,
        events: &[Event<M::Command, M::Line, M::Target>],
    ) -> Result<Self, WorldFault>
        ensures world { IfOk result
            (IsWorld (⟦<M as Described>⟧.machine setup.now) size events.now) }
        ensures agreed { IfOk result (λ _. IsAgreed (⟦<M as Described>⟧.machine setup.now) size
            (events_of (⟦<M as Described>⟧.machine setup.now) events.now)) }
        ensures faithful { IfOk result (λ _. IsFaithful (⟦<M as Described>⟧.machine setup.now) size
            (events_of (⟦<M as Described>⟧.machine setup.now) events.now)) }
        ensures raft { IfOk result (λ _. IsRaft (⟦<M as Described>⟧.machine setup.now) size
            (events_of (⟦<M as Described>⟧.machine setup.now) events.now)) }
        ensures apart { IfOk result (λ _. RunsAreApart (⟦<M as Described>⟧.machine setup.now) size
            (events_of (⟦<M as Described>⟧.machine setup.now) events.now)) }
        ensures setup { IfOk result (λ w. w.setup ≡ setup.now) }
        ensures allowed { IfOk result (λ _. IsGroupSize size) }
        ensures refused { (result ≡ Err (Refused size)) ↔ (IsGroupSize size → ⊥) }
    {
        let Some(size) = GroupSize::new(size) else {
            return Err(WorldFault::Refused(size));
        };
        let mut group = Group::start(alloc, size, setup)?;
        let mut outs = Vec::new(alloc);
        for event in events {
            let Ok(out) = group.happen(event) else {
                return Err(WorldFault::Memory);
            };
            if outs.push(out).is_err() {
                return Err(WorldFault::Memory);
            }
        }
        Ok(World { group, outs })
    }

    /// How many nodes there are: 7 at most.
    pub fn size(&self) -> usize
        ensures size { result ≡ length self.now.nodes }
        ensures limit { length self.now.nodes ≤ node_limit }
    {
        self.group.cells.len()
    }

    /// What came out of each event.
    pub fn outputs(&self) -> &[Outcome<M::Effect, M::Played>]
        ensures { result.now ≡ self.now.outs }
    {
        &self.outs
    }

    /// Copies of what the node of this number commits, if there is one.
    pub fn committed(&self, node: u8) -> Result<Option<Vec<Entry<M::Command>>>, AllocError>
        ensures some { IfOk result (λ found. IfSome found
            (λ entries. entries.items ≡ committed self.now.nodes node)) }
        ensures none { IfOk result (λ found. found ≡ None → item self.now.nodes node ≡ None) }
    {
        let place = node as usize;
        if place == 0 || place > self.group.cells.len() {
            return Ok(None);
        }
        Ok(Some(self.group.cells[place - 1].committed()?))
    }

    /// The state of the node of this number, if there is one.
    pub fn state(&self, node: u8) -> Option<&NodeState<M::Command>>
        ensures some { IfSome result (λ state. IsNodeOf self.now.nodes node state.now) }
        ensures none { result ≡ None → item self.now.nodes node ≡ None }
    {
        let place = node as usize;
        if place == 0 || place > self.group.cells.len() {
            return None;
        }
        Some(self.group.cells[place - 1].state())
    }
}
