//! What a node is about to do when something happens to it.
ghost use Rattle.std.specs.Prelude.{length};
ghost use Rattle.raft_log.specs.Positions.{live_of};
ghost use Rattle.raft_log.specs.Steps.{IsWithinLog};
ghost use Rattle.node_steps.specs.Plans.{CountsLines, IsPrepared};
ghost use Rattle.raft_node.specs.Inputs.{bodies, input_plan};
ghost use Rattle.raft_node.specs.Parts.{applied_bodies, size_of};

use crate::input::Input;
use machine_laws::Hosted;
use node_steps::{
    Unprepared, on_ask, on_claim, on_closed, on_heard, on_message, on_opened, on_timeout,
};
use raft_log::{Message, NodeId, NodeState, Step};
use replication::beat;
use std::alloc::Global;

/// What the node of this number is about to do, over this state and machine. Nothing changes.
pub fn prepare<M: Hosted>(
    alloc: Global,
    id: NodeId,
    state: &NodeState<M::Command>,
    machine: &M,
    input: Input<Message<M::Command>, M::Command, M::Line>,
) -> Result<Step<M::Command>, Unprepared>
    requires within { IsWithinLog state.now.standing state.now.log }
    requires counts { CountsLines (live_of state.now.standing.position) (length state.now.log) }
    ensures { (s : M.Setup) → M.stands machine.now s (applied_bodies state.now) → IsPrepared
        (input_plan (bodies M.blank M.opened M.shut M.heard M.claim M.source)
        (M.next_claim s (applied_bodies state.now)) (size_of state.now) id input)
        state.now.standing state.now.log result }
{
    let standing = state.standing;
    let log = &state.log;
    match input {
        Input::Timeout => on_timeout(alloc, standing, log, id),
        Input::Beat => Ok(beat(alloc, standing, log, id)?),
        Input::Deliver(message) => {
            let blank = M::blank();
            M::fits(&blank);
            Ok(on_message(alloc, state, id, message, blank)?)
        }
        Input::Ask(body) => {
            M::fits(&body);
            let source = M::source(&body);
            on_ask(alloc, standing, log, id, source, body)
        }
        Input::Opened => on_opened::<M>(alloc, standing, log),
        Input::Closed => on_closed::<M>(alloc, standing, log),
        Input::Heard(at, line) => on_heard::<M>(alloc, standing, log, at, line),
        Input::Claim => on_claim::<M>(alloc, standing, log, machine.next_claim()),
        Input::Apply => Ok(Step::still(alloc, standing, log)),
    }
}
