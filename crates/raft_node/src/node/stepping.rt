//! How a node that leads processes several inputs with one save.
ghost use Rattle.std.specs.Prelude.{◌≡◌, ◌≤◌, IfErr, IfOk, OnOk, None, length, true};
ghost use Rattle.std.specs.List.{AllByRecursion};
ghost use Rattle.raft_log.specs.Batches.{batch_limit};
ghost use Rattle.raft_log.specs.Node.{is_leader};
ghost use Rattle.raft_log.specs.Positions.{role_of};
ghost use Rattle.raft_node.specs.Kept.{MayStand};
ghost use Rattle.raft_node.specs.Parts.{keeper};
ghost use Rattle.raft_node.specs.Stepping.{IsSameNode};
ghost use Rattle.raft_node.specs.SteppingTogether.{AreDone, ComeTo, HaveFailed};
ghost use Rattle.raft_node.specs.Together.{IsAppend, OnlyAppends};

use crate::described::Described;
use crate::input::Input;
use crate::node::Node;
use crate::node_fault::{Cause, Unsaved};
use crate::together::plan_together;
use machine_laws::{Hosted, Machine};
use node_steps::Refusal;
use raft_log::{Message, Step};
use stable_store::Stable;
use std::alloc::AllocError;

impl<M: Hosted, S: Stable<M::Command>> Node<M, S> {
    /// Inputs that only append, processed one after the other at a node that leads, and saved at
    /// once. Each has its answer; one that is refused leaves the node unchanged for the next.
    ///
    /// If the answer is `Unsaved` the node is down and shows the state from before. Either none of the inputs was saved
    /// then, or all may have been.
    pub fn step_all(
        &mut self,
        inputs: Vec<Input<Message<M::Command>, M::Command, M::Line>>,
    ) -> Result<Vec<Result<(), Refusal>>, Unsaved>
        requires leads { self.old.down ≡ None
            → is_leader (role_of self.old.state.standing.position) ≡ true }
        requires appends { AllByRecursion OnlyAppends inputs.items }
        requires few { length inputs.items ≤ batch_limit }
        ensures done { IfOk result (λ answers. AreDone (⟦<M as Described>⟧.machine self.old.setup)
            (keeper S.saved S.may_stand S.condition) inputs.items self.old answers.items self.new) }
        ensures failed { IfErr result (λ unsaved. HaveFailed
            (⟦<M as Described>⟧.machine self.old.setup) (keeper S.saved S.may_stand S.condition)
            inputs.items self.old unsaved self.new) }
        ensures still { OnOk result (self.new.state.log ≡ self.old.state.log
            → self.new.store ≡ self.old.store) }
        ensures same { IsSameNode (keeper S.saved S.may_stand S.condition) self.old self.new }
    {
        if let Some(cause) = self.down {
            let answers = None;
            return Err(Unsaved { cause, answers });
        }
        match self.plan_all(inputs) {
            Ok((step, answers)) => match self.stand(step) {
                Ok(output) => {
                    drop(output);
                    Ok(answers)
                }
                Err(fault) => Err(Unsaved::tried(fault, answers)),
            },
            Err(_) => {
                let cause = Cause::Memory;
                self.down = Some(cause);
                let answers = None;
                Err(Unsaved { cause, answers })
            }
        }
    }

    /// What it is about to do by these inputs. Nothing changes.
    fn plan_all(
        &self,
        inputs: Vec<Input<Message<M::Command>, M::Command, M::Line>>,
    ) -> Result<(Step<M::Command>, Vec<Result<(), Refusal>>), AllocError>
        requires up { self.now.down ≡ None }
        requires leads { is_leader (role_of self.now.state.standing.position) ≡ true }
        requires appends { AllByRecursion OnlyAppends inputs.items }
        requires few { length inputs.items ≤ batch_limit }
        ensures planned { IfOk result (λ r. ComeTo (⟦<M as Described>⟧.machine self.now.setup)
            inputs.items self.now r.0 r.1.items) }
        ensures may { IfOk result (λ r. MayStand self.now.state r.0) }
        ensures appends { IfOk result (λ r. IsAppend self.now.state r.0) }
    {
        let next = self.machine.next_claim();
        plan_together::<M>(self.alloc, self.id, &self.state, next, inputs)
    }
}
