//! A node of a world, with all that it sent.
ghost use Rattle.std.specs.Prelude.{◌≡◌, ◌≤◌, [], None, IfOk, take};
ghost use Rattle.raft_node.specs.Raft.{newborn};
ghost use Rattle.raft_node.specs.Steps.{Acts, Looks, Stops};
ghost use Rattle.raft_node.specs.Inputs.{act_of};
ghost use Rattle.world_run.specs.Groups.{HasActedUnsent, HasBegunAnew, HasOwned, IsCell, node_in};
ghost use Rattle.world_run.specs.Told.{told_act, told_own};

use crate::outcome::Outcome;
use crate::told::{Act, Own};
use machine_laws::Hosted;
use raft_log::{Entry, GroupSize, Message, NodeId, NodeState};
use raft_node::{Described, Input, Node, NodeFault, Output};
use stable_store::MemoryStore;
use std::alloc::{AllocError, Global};
use std::marker::Model;
use std::mem::drop;

/// A node over a store in memory, with all that it sent, restarts included.
#[derive(Drop)]
pub struct Cell<M: Hosted> {
    node: Node<M, MemoryStore<M::Command>>,
    sent: Vec<Message<M::Command>>,
}

impl<M: Hosted> Model for Cell<M> {
    ghost use Rattle.stable_store.specs.declared.memory_store.MemoryStore.{MemoryStore};
    ghost use Rattle.world_run.specs.Groups.{CellParts};

    ghost Value = { CellParts M.Setup M (MemoryStore M.Command) M.Command };

    ghost view = { λ c. record { node = c.node; sent = c.sent.items } };
}

impl<M: Hosted> Cell<M> {
    /// A node begins its first run, over a new store.
    pub fn start(
        alloc: Global,
        id: NodeId,
        size: GroupSize,
        setup: &M::Setup,
    ) -> Result<Self, AllocError>
        requires { id ≤ size }
        ensures cell { IfOk result (IsCell setup.now size id) }
        ensures runs { IfOk result (λ c. node_in c ≡ newborn size) }
    {
        match Node::start(alloc, id, size, setup, MemoryStore::new(alloc)) {
            Ok(node) => Ok(Cell {
                node,
                sent: Vec::new(alloc),
            }),
            Err(_) => Err(AllocError),
        }
    }

    /// What it sent, the first first.
    pub fn sent(&self) -> &[Message<M::Command>]
        ensures { result.now ≡ self.now.sent }
    {
        &self.sent
    }

    /// Its state.
    pub fn state(&self) -> &NodeState<M::Command>
        ensures { result.now ≡ self.now.node.state }
    {
        self.node.state()
    }

    /// Copies of the entries that are agreed, as far as it knows.
    pub fn committed(&self) -> Result<Vec<Entry<M::Command>>, AllocError>
        ensures { IfOk result (λ v. v.items
            ≡ take self.now.node.state.standing.commit self.now.node.state.log) }
    {
        self.node.committed()
    }

    /// It stops, and begins its next run.
    pub fn restart(&mut self) -> Result<(), AllocError>
        requires { self.old.node.down ≡ None }
        ensures { IfOk result (λ _. HasBegunAnew self.old self.new) }
    {
        self.node.is_whole();
        if self.node.restart().is_err() {
            return Err(AllocError);
        }
        Ok(())
    }

    /// An input comes.
    fn step(
        &mut self,
        input: Input<Message<M::Command>, M::Command, M::Line>,
    ) -> Result<Outcome<M::Effect, M::Played>, AllocError>
        ensures { IfOk result (HasOwned (⟦<M as Described>⟧.machine self.old.node.setup)
            (Acts (act_of (⟦<M as Described>⟧.machine self.old.node.setup) input))
            self.old self.new) }
    {
        match self.node.step(input) {
            Ok(output) => {
                let Output {
                    mut messages,
                    place,
                    effects,
                } = output;
                self.sent.append(&mut messages)?;
                if place.value() == 0 {
                    Ok(Outcome::Quiet)
                } else {
                    Ok(Outcome::Left { place, effects })
                }
            }
            Err(NodeFault::Refused(refusal)) => Ok(Outcome::Refused(refusal)),
            // a store in memory fails only when memory runs out
            Err(NodeFault::Down(_)) => Err(AllocError),
        }
    }

    /// A playback is asked for.
    fn look(
        &self,
        from_place: u64,
        target: &M::Target,
    ) -> Result<Outcome<M::Effect, M::Played>, AllocError>
        ensures { IfOk result (HasOwned (⟦<M as Described>⟧.machine self.now.node.setup)
            (Acts (Looks from_place target.now)) self.now self.now) }
    {
        match self.node.look(target, from_place) {
            Ok(looked) => Ok(Outcome::Looked {
                place: looked.place,
                lines: looked.lines,
            }),
            Err(NodeFault::Refused(refusal)) => Ok(Outcome::Refused(refusal)),
            Err(NodeFault::Down(_)) => Err(AllocError),
        }
    }

    fn act(
        &mut self,
        act: Act<M::Command, M::Line, M::Target>,
    ) -> Result<Outcome<M::Effect, M::Played>, AllocError>
        ensures { IfOk result (HasOwned (⟦<M as Described>⟧.machine self.old.node.setup)
            (Acts (told_act (⟦<M as Described>⟧.machine self.old.node.setup) act))
            self.old self.new) }
    {
        match act {
            Act::Steps(input) => self.step(input),
            Act::Looks(from_place, target) => self.look(from_place, &target),
        }
    }

    /// This happens to it.
    pub fn own(
        &mut self,
        own: Own<M::Command, M::Line, M::Target>,
    ) -> Result<Outcome<M::Effect, M::Played>, AllocError>
        requires { self.old.node.down ≡ None }
        ensures { IfOk result (HasOwned (⟦<M as Described>⟧.machine self.old.node.setup)
            (told_own (⟦<M as Described>⟧.machine self.old.node.setup) own) self.old self.new) }
    {
        match own {
            Own::Acts(act) => self.act(act),
            Own::Restarts => {
                self.restart()?;
                Ok(Outcome::Quiet)
            }
            Own::Stops(act, after) => self.stop(act, after),
        }
    }

    /// It stops while it does this, before or after that is saved, and begins its next run.
    fn stop(
        &mut self,
        act: Act<M::Command, M::Line, M::Target>,
        after: bool,
    ) -> Result<Outcome<M::Effect, M::Played>, AllocError>
        requires { self.old.node.down ≡ None }
        ensures { IfOk result (HasOwned (⟦<M as Described>⟧.machine self.old.node.setup)
            (Stops (told_act (⟦<M as Described>⟧.machine self.old.node.setup) act) after)
            self.old self.new) }
    {
        if after {
            self.act_unsent(act)?;
            self.restart()?;
            return Ok(Outcome::Quiet);
        }
        drop(act);
        self.restart()?;
        Ok(Outcome::Quiet)
    }

    /// Saves what it does, and sends nothing of it.
    fn act_unsent(&mut self, act: Act<M::Command, M::Line, M::Target>) -> Result<(), AllocError>
        ensures { IfOk result (λ _. HasActedUnsent (⟦<M as Described>⟧.machine self.old.node.setup)
            (told_act (⟦<M as Described>⟧.machine self.old.node.setup) act) self.old self.new) }
    {
        let sent = self.sent.len();
        drop(self.act(act)?);
        self.sent.truncate(sent);
        Ok(())
    }
}
