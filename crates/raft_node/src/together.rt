//! What a leader is about to do by several inputs that only append.
ghost use Rattle.std.specs.Prelude.{◌≡◌, ◌≤◌, ◌<◌, ◌+◌, IfErr, IfOk, OnOk, [], length, true};
ghost use Rattle.std.specs.List.{AllByRecursion};
ghost use Rattle.raft_log.specs.Batches.{batch_limit};
ghost use Rattle.raft_log.specs.Logs.{entry_limit};
ghost use Rattle.raft_log.specs.Node.{is_leader};
ghost use Rattle.raft_log.specs.Positions.{live_of, role_of};
ghost use Rattle.raft_log.specs.Seen.{seen};
ghost use Rattle.node_steps.specs.Plans.{CountsLines, own_plan};
ghost use Rattle.raft_node.specs.Inputs.{bodies, input_plan};
ghost use Rattle.raft_node.specs.Kept.{MayStand};
ghost use Rattle.raft_node.specs.Parts.{size_of};
ghost use Rattle.raft_node.specs.Sound.{IsSound};
ghost use Rattle.raft_node.specs.Together.{ArePlanned, IsAdded, IsAppend, IsTakenIn, OnlyAppends};
ghost use Rattle.raft_node.specs.Together.{addition_plan, leading};

use crate::addition::{Addition, to_append};
use crate::input::Input;
use machine_laws::Hosted;
use node_steps::Refusal;
use raft_log::{
    ENTRY_LIMIT, Entry, Live, LoggedBody, Message, NodeId, NodeState, Position, Standing, Step,
};
use std::alloc::{AllocError, Global};
use wire_bytes::{Number, Wire};

/// What a leader is about to do by inputs that only append, as far as they are planned: its
/// session, the attempts made, the entries after its log, and what each input answers.
#[derive(Drop)]
pub struct Together<B: Wire> {
    pub live: Option<Live>,
    pub attempts: Number,
    pub entries: Vec<Entry<B>>,
    pub answers: Vec<Result<(), Refusal>>,
}

/// What the leader of this number is about to do by these inputs, each planned as if the earlier
/// ones had taken effect. Nothing changes.
pub fn plan_together<M: Hosted>(
    alloc: Global,
    id: NodeId,
    state: &NodeState<M::Command>,
    next: Option<Number>,
    inputs: Vec<Input<Message<M::Command>, M::Command, M::Line>>,
) -> Result<(Step<M::Command>, Vec<Result<(), Refusal>>), AllocError>
    requires leads { is_leader (role_of state.now.standing.position) ≡ true }
    requires sound { IsSound (size_of state.now) (seen state.now []) }
    requires counts { CountsLines (live_of state.now.standing.position) (length state.now.log) }
    requires appends { AllByRecursion OnlyAppends inputs.items }
    requires few { length inputs.items ≤ batch_limit }
    ensures planned { IfOk result (λ r. ArePlanned
        (input_plan (bodies M.blank M.opened M.shut M.heard M.claim M.source) next
        (size_of state.now) id) state.now inputs.items r.0 r.1.items) }
    ensures may { IfOk result (λ r. MayStand state.now r.0) }
    ensures appends { IfOk result (λ r. IsAppend state.now r.0) }
{
    let keep = state.log.len();
    let mut together = Together {
        live: state.standing.position.live(),
        attempts: state.standing.attempts,
        entries: Vec::new(alloc),
        answers: Vec::new(alloc),
    };
    for input in inputs {
        let standing = led(&state.standing, &together);
        let added = to_append::<M>(id, &standing, &next, input);
        take_in::<M>(state, &mut together, added)?;
    }
    let step = Step {
        standing: led(&state.standing, &together),
        keep,
        entries: together.entries,
        messages: Vec::new(alloc),
    };
    Ok((step, together.answers))
}

/// The standing of a leader after what was planned so far.
fn led<B: Wire>(standing: &Standing, together: &Together<B>) -> Standing
    ensures { result ≡ leading standing.now together.now.live together.now.attempts }
{
    Standing {
        position: Position::Leader(together.live),
        attempts: together.attempts,
        ..*standing
    }
}

/// Plans what is to be appended after what was planned so far, if the log has room for it.
fn take_in<M: Hosted>(
    state: &NodeState<M::Command>,
    together: &mut Together<M::Command>,
    added: Result<Option<Addition<M::Command>>, Refusal>,
) -> Result<(), AllocError>
    requires room { length state.now.log + length together.old.entries.items ≤ entry_limit }
    ensures { OnOk result (IsTakenIn (addition_plan added) state.now together.old together.new) }
{
    let answer = match added {
        Ok(Some(addition)) => append::<M>(state, together, addition)?,
        Ok(None) => Ok(()),
        Err(refusal) => Err(refusal),
    };
    Ok(together.answers.push(answer)?)
}

/// Appends a body if the log has room for it. Refused with `LogFull`, whether or not there is
/// memory.
fn append<M: Hosted>(
    state: &NodeState<M::Command>,
    together: &mut Together<M::Command>,
    addition: Addition<M::Command>,
) -> Result<Result<(), Refusal>, AllocError>
    requires room { length state.now.log + length together.old.entries.items ≤ entry_limit }
    ensures added { IfOk result (λ answer. IsAdded
        (own_plan addition.live addition.attempts addition.body) state.now together.old together.new
        answer) }
    ensures memory { IfErr result (λ _.
        length state.now.log + length together.old.entries.items < entry_limit) }
{
    let Addition {
        live,
        attempts,
        body,
    } = addition;
    if state.log.len().value() as usize + together.entries.len() >= ENTRY_LIMIT {
        return Ok(Err(Refusal::LogFull));
    }
    M::fits(&body);
    let body = LoggedBody::new(*together.entries.allocator(), body)?;
    let term = state.standing.term;
    together.entries.push(Entry { term, body })?;
    together.live = live;
    together.attempts = attempts;
    Ok(Ok(()))
}
