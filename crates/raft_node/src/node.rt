//! One node with what it keeps: its state, its machine and its store.
ghost use Rattle.std.specs.Prelude.{◌≡◌, ◌≤◌, false, length, take, IfOk, None};
ghost use Rattle.node_steps.specs.Plans.{IsPrepared};
ghost use Rattle.raft_node.specs.Inputs.{bodies, input_plan, is_apply};
ghost use Rattle.raft_node.specs.Parts.{IsWhole, applied_bodies, keeper, size_of};
ghost use Rattle.raft_node.specs.Kept.{IsStill, MayStand};
ghost use Rattle.raft_node.specs.Stepping.{IsLooked, IsStepped};
ghost use Rattle.raft_node.specs.Stood.{IsApplied, IsStood};
ghost use Rattle.raft_node.specs.Starting.{IsRestarted, IsStarted};

use crate::begin::{begin, begin_again};
use crate::described::Described;
use crate::input::{Input, Looked, Output};
use crate::keep::keep;
use crate::leaving::leaving;
use crate::node_fault::{Cause, NodeFault};
use crate::prepare::prepare;
use machine_laws::{Hosted, Machine};
use node_steps::{Refusal, Unprepared};
use raft_log::{Entry, GroupSize, Message, NodeId, NodeState, Step};
use stable_store::Stable;
use std::alloc::{AllocError, Global};
use std::marker::Model;
use wire_bytes::{Copied, Number, Wire};

mod stepping;

/// A node of a group, with the machine that it hosts and the store that it keeps.
///
/// While it is up its store holds its boot, term, vote and log, and its machine has taken what
/// it applied. Once it is down it shows the state from before, until it is restarted.
#[derive(Drop)]
pub struct Node<M: Hosted, S: Stable<M::Command>> {
    alloc: Global,
    id: NodeId,
    setup: M::Setup,
    machine: M,
    store: S,
    state: NodeState<M::Command>,
    down: Option<Cause>,
}

impl<M: Hosted, S: Stable<M::Command>> Model for Node<M, S> {
    ghost use Rattle.raft_node.specs.Parts.{Parts, IsWhole, keeper};

    ghost Value = { Parts M.Setup M S M.Command };

    ghost view = { λ n. record {
      id = n.id;
      setup = n.setup;
      machine = n.machine;
      store = n.store;
      state = n.state;
      down = n.down;
    } };

    ghost invariant = { λ n. IsWhole M.stands (keeper S.saved S.may_stand S.condition)
        (record {
          id = n.id;
          setup = n.setup;
          machine = n.machine;
          store = n.store;
          state = n.state;
          down = n.down;
        }) };
}

impl<M: Hosted, S: Stable<M::Command>> Node<M, S> {
    /// A node of this number in a group of this size begins its next run, over what the store
    /// holds. It follows, knows no leader, and has applied nothing. If that fails, the store is
    /// dropped. `TermsSpent` if 2^60 runs were begun.
    pub fn start(
        alloc: Global,
        id: NodeId,
        size: GroupSize,
        setup: &M::Setup,
        store: S,
    ) -> Result<Self, NodeFault>
        requires { id ≤ size }
        ensures { IsStarted (keeper S.saved S.may_stand S.condition) id size setup.now
            store result }
    {
        let mut store = store;
        id.value();
        let setup = setup.copy(alloc)?;
        let machine = M::start(alloc, &setup)?;
        let state = begin(alloc, &mut store, size)?;
        Ok(Node {
            alloc,
            id,
            setup,
            machine,
            store,
            state,
            down: None,
        })
    }

    /// The node stops, and begins its next run, over what its store holds. If that fails it is
    /// down, after a refusal too, since it can begin no run over that store.
    pub fn restart(&mut self) -> Result<(), NodeFault>
        ensures { IsRestarted (keeper S.saved S.may_stand S.condition) self.old result self.new }
    {
        let machine = match M::start(self.alloc, &self.setup) {
            Ok(machine) => machine,
            Err(_) => {
                self.down = Some(Cause::Memory);
                return Err(NodeFault::Down(Cause::Memory));
            }
        };
        let size = self.state.standing.peers.size();
        match begin_again(self.alloc, &mut self.store, size) {
            Ok(state) => {
                self.machine = machine;
                self.state = state;
                self.down = None;
                Ok(())
            }
            Err(fault) => {
                self.down = Some(fault.cause());
                Err(fault)
            }
        }
    }

    /// Processes an input. What changes term, vote or log is saved before anything leaves; after a
    /// refusal the node is unchanged; after `Down` it shows the state from before.
    pub fn step(
        &mut self,
        input: Input<Message<M::Command>, M::Command, M::Line>,
    ) -> Result<Output<M::Command, M::Effect>, NodeFault>
        ensures { IsStepped (⟦<M as Described>⟧.machine self.old.setup)
            (keeper S.saved S.may_stand S.condition) input self.old result self.new }
    {
        if let Some(cause) = self.down {
            return Err(NodeFault::Down(cause));
        }
        if input.is_apply() {
            return self.apply();
        }
        match self.plan(input) {
            Ok(step) => self.stand(step),
            Err(Unprepared::Refused(refusal)) => Err(NodeFault::Refused(refusal)),
            Err(Unprepared::Memory) => {
                self.down = Some(Cause::Memory);
                Err(NodeFault::Down(Cause::Memory))
            }
        }
    }

    /// What it is about to do. Nothing changes.
    fn plan(
        &self,
        input: Input<Message<M::Command>, M::Command, M::Line>,
    ) -> Result<Step<M::Command>, Unprepared>
        requires up { self.now.down ≡ None }
        requires saves { is_apply input ≡ false }
        ensures planned { IsPrepared
            (input_plan (bodies M.blank M.opened M.shut M.heard M.claim M.source)
            (M.next_claim self.now.setup (applied_bodies self.now.state))
            (size_of self.now.state) self.now.id input)
            self.now.state.standing self.now.state.log result }
        ensures may { IfOk result (MayStand self.now.state) }
    {
        match prepare::<M>(self.alloc, self.id, &self.state, &self.machine, input) {
            Ok(step) => {
                has_size(&step);
                Ok(step)
            }
            Err(fault) => Err(fault),
        }
    }

    /// Saves a step, and then lets it take effect.
    fn stand(&mut self, step: Step<M::Command>) -> Result<Output<M::Command, M::Effect>, NodeFault>
        requires up { self.old.down ≡ None }
        requires may { MayStand self.old.state step }
        ensures stood { IsStood (keeper S.saved S.may_stand S.condition) step self.old result
            self.new }
        ensures still { IsStill self.old.state step.standing step.keep (length step.entries.items)
            → self.new.store ≡ self.old.store }
    {
        match keep(&mut self.store, &mut self.state, step) {
            Ok(messages) => Ok(Output {
                messages,
                place: Number::new(0),
                effects: Vec::new(self.alloc),
            }),
            Err(cause) => {
                self.down = Some(cause);
                Err(NodeFault::Down(cause))
            }
        }
    }

    /// Applies the next entry, if it is committed.
    fn apply(&mut self) -> Result<Output<M::Command, M::Effect>, NodeFault>
        requires up { self.old.down ≡ None }
        ensures { IsApplied M.effects M.class (keeper S.saved S.may_stand S.condition)
            self.old result self.new }
    {
        let standing = self.state.standing;
        let applied = standing.applied.value();
        if standing.commit.value() <= applied {
            return Ok(Output {
                messages: Vec::new(self.alloc),
                place: Number::new(0),
                effects: Vec::new(self.alloc),
            });
        }
        let place = Number::new(applied + 1);
        let body = self.state.log.body(place);
        match self.machine.apply(place.value(), body.get()) {
            Ok(effects) => {
                self.state.standing.applied = place;
                let live = standing.position.live();
                Ok(Output {
                    messages: Vec::new(self.alloc),
                    place,
                    effects: leaving::<M>(self.id, standing.boot, live, effects),
                })
            }
            Err(_) => {
                self.down = Some(Cause::Memory);
                Err(NodeFault::Down(Cause::Memory))
            }
        }
    }

    /// The playback of a target by what was applied, if that reaches a place; else `Behind`.
    /// Nothing changes. An unknown target plays nothing.
    pub fn look(&self, target: &M::Target, from_place: u64) -> Result<Looked<M::Played>, NodeFault>
        ensures { IsLooked (⟦<M as Described>⟧.machine self.now.setup) from_place target.now
            self.now result }
    {
        if let Some(cause) = self.down {
            return Err(NodeFault::Down(cause));
        }
        let place = self.state.standing.applied;
        if place.value() < from_place {
            return Err(NodeFault::Refused(Refusal::Behind(place)));
        }
        match self.machine.playback(target) {
            Ok(lines) => Ok(Looked { place, lines }),
            Err(_) => Err(NodeFault::Down(Cause::Memory)),
        }
    }

    pub fn id(&self) -> NodeId
        ensures { result ≡ self.now.id }
    {
        self.id
    }

    /// Its state, or, if it is down, the one from before it went down.
    pub fn state(&self) -> &NodeState<M::Command>
        ensures { result.now ≡ self.now.state }
    {
        &self.state
    }

    /// Why it is down, if it is.
    pub fn down(&self) -> Option<Cause>
        ensures { result ≡ self.now.down }
    {
        self.down
    }

    /// Copies of the entries that are agreed, as far as it knows.
    pub fn committed(&self) -> Result<Vec<Entry<M::Command>>, AllocError>
        ensures { IfOk result (λ v. v.items
            ≡ take self.now.state.standing.commit self.now.state.log) }
    {
        let commit = self.state.standing.commit.value() as usize;
        self.state.log.copied_behind(Number::new(0), commit)
    }

    /// The number of the line to be claimed next, by what was applied, while the node is up.
    pub fn next_claim(&self) -> Option<Number>
        ensures { self.now.down ≡ None
            → result ≡ M.next_claim self.now.setup (applied_bodies self.now.state) }
    {
        self.machine.next_claim()
    }

    /// Does nothing. A node is sound; while it is up its machine has taken what it applied, and an
    /// honest store holds what is to be saved of it.
    pub fn is_whole(&self)
        ensures { IsWhole M.stands (keeper S.saved S.may_stand S.condition) self.now }
    {
        let _ = &self.down;
    }
}

/// Does nothing. A step keeps an item for each node of the group.
fn has_size<B: Wire>(step: &Step<B>)
    ensures { length step.now.standing.peers.voters ≡ step.now.standing.peers.size }
{
    step.standing.peers.has_size();
}
