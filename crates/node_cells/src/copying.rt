//! Copies for the record.
ghost use Rattle.std.specs.Prelude.{◌≡◌, ◌<◌, [], IfOk, Ok, None, map};
ghost use Rattle.world_run.specs.declared.outcome.Outcome.TheVariants.{Left, Looked};
ghost use Rattle.node_cells.specs.declared.record.Recording.TheVariants.{Off};
ghost use Rattle.node_cells.specs.Copies.{AreCopies, IsCopy, IsKept, first_in};
ghost use Rattle.node_cells.specs.Sending.{to_of};
ghost use Rattle.node_cells.specs.Inputs.{input_of};
ghost use Rattle.node_cells.specs.Restarts.{outcome_by};
ghost use Rattle.node_cells.specs.Turns.{IsGiven, IsPlayed};

use crate::for_record::ForRecord;
use crate::record::Recording;
use crate::told_input::ToldInput;
use node_steps::Refusal;
use raft_log::Message;
use raft_node::Input;
use std::alloc::{AllocError, Global};
use std::snapshot::Snapshot;
use wire_bytes::{Copied, Number, Wire, copied_all};
use world_run::Outcome;
use world_views::{Envelope, NodeInput};

/// A copy of an input.
pub fn copied_input<B: Wire, L: Wire>(
    alloc: Global,
    input: &NodeInput<B, L>,
) -> Result<NodeInput<B, L>, AllocError>
    ensures { IfOk result (λ c. c ≡ input.now) }
{
    Ok(match input {
        NodeInput::Timeout => NodeInput::Timeout,
        NodeInput::Beat => NodeInput::Beat,
        NodeInput::Deliver(envelope) => NodeInput::Deliver(Envelope {
            number: envelope.number,
            message: envelope.message.copy(alloc)?,
        }),
        NodeInput::Ask(body) => NodeInput::Ask(body.copy(alloc)?),
        NodeInput::Opened => NodeInput::Opened,
        NodeInput::Closed => NodeInput::Closed,
        NodeInput::Heard(at, line) => NodeInput::Heard(*at, line.copy(alloc)?),
        NodeInput::Claim => NodeInput::Claim,
        NodeInput::Apply => NodeInput::Apply,
    })
}

/// A copy of the input, if turns are recorded.
pub fn input_copy<B: Wire, L: Wire>(
    alloc: Global,
    recording: Recording,
    input: &NodeInput<B, L>,
) -> Result<Option<NodeInput<B, L>>, AllocError>
    ensures copy { IfOk result (λ copy. IsCopy recording input.now copy) }
    ensures none { recording ≡ Off → result ≡ Ok None }
{
    match recording {
        Recording::On => Ok(Some(copied_input(alloc, input)?)),
        Recording::Off => Ok(None),
    }
}

/// The input as a node takes it.
pub fn input_of<B: Wire, L>(input: NodeInput<B, L>) -> Input<Message<B>, B, L>
    ensures { result ≡ input_of input }
{
    match input {
        NodeInput::Timeout => Input::Timeout,
        NodeInput::Beat => Input::Beat,
        NodeInput::Deliver(envelope) => Input::Deliver(envelope.message),
        NodeInput::Ask(body) => Input::Ask(body),
        NodeInput::Opened => Input::Opened,
        NodeInput::Closed => Input::Closed,
        NodeInput::Heard(at, line) => Input::Heard(at, line),
        NodeInput::Claim => Input::Claim,
        NodeInput::Apply => Input::Apply,
    }
}

/// Copies of inputs, in order.
pub fn copied_inputs<B: Wire, L: Wire>(
    alloc: Global,
    inputs: &[NodeInput<B, L>],
) -> Result<Vec<NodeInput<B, L>>, AllocError>
    ensures { IfOk result (λ copies. copies.items ≡ inputs.now) }
{
    let mut copies = Vec::with_capacity(alloc, inputs.len())?;
    for input in inputs {
        copies.push(copied_input(alloc, input)?)?;
    }
    Ok(copies)
}

/// Copies of the inputs, in order, if turns are recorded.
pub fn input_copies<B: Wire, L: Wire>(
    alloc: Global,
    recording: Recording,
    inputs: &[NodeInput<B, L>],
) -> Result<Vec<NodeInput<B, L>>, AllocError>
    ensures copies { IfOk result (λ copies. AreCopies recording inputs.now copies.items) }
    ensures none { recording ≡ Off → IfOk result (λ copies. copies.items ≡ []) }
{
    match recording {
        Recording::On => copied_inputs(alloc, inputs),
        Recording::Off => Ok(Vec::new(alloc)),
    }
}

/// The inputs as a node takes them, in order, and the same for clauses.
pub fn inputs_of<B: Wire, L: Drop, T>(
    alloc: Global,
    inputs: Vec<NodeInput<B, L>>,
) -> Result<(Vec<Input<Message<B>, B, L>>, Vec<ToldInput<B, L, T>>), AllocError>
    ensures { IfOk result (λ r. (r.0.items ≡ map input_of inputs.items)
        × (r.1.items ≡ inputs.items)) }
{
    let mut taken = Vec::with_capacity(alloc, inputs.len())?;
    let mut all_told = Vec::with_capacity(alloc, inputs.len())?;
    for input in inputs {
        let (input, told) = ToldInput::of(input);
        taken.push(input_of(input))?;
        all_told.push(told)?;
    }
    Ok((taken, all_told))
}

/// The first item, if there is one.
pub fn first_of<A: Drop>(all: Vec<A>) -> Option<A>
    ensures { result ≡ first_in all.items }
{
    all.into_iter().next()
}

/// What comes out when a place was applied, or none, with these effects: the effects, and what is recorded.
pub fn outcome_of<E: Copied, P>(
    alloc: Global,
    recording: Recording,
    place: Number,
    effects: Vec<E>,
) -> Result<(Vec<E>, ForRecord<Outcome<E, P>>), AllocError>
    ensures effects { IfOk result (λ r. r.0 ≡ effects) }
    ensures given { IfOk result (λ r. IsGiven place effects.items r.1.told.value) }
    ensures kept { IfOk result (λ r. IsKept recording r.1) }
    ensures none { recording ≡ Off → 0 < place → IfOk result (λ r. r.1.kept ≡ None) }
{
    if place.value() == 0 {
        return Ok((effects, ForRecord::of(Outcome::Quiet)));
    }
    match recording {
        Recording::On => {
            let copies = copied_all(alloc, &effects)?;
            let outcome = Outcome::Left {
                place,
                effects: copies,
            };
            Ok((effects, ForRecord::of(outcome)))
        }
        Recording::Off => Ok(told_left(place, effects)),
    }
}

/// The effects, and a record of them for clauses only.
fn told_left<E, P>(place: Number, effects: Vec<E>) -> (Vec<E>, ForRecord<Outcome<E, P>>)
    ensures told { (result.0 ≡ effects) × (result.1.told.value ≡ Left place effects) }
    ensures none { result.1.kept ≡ None }
{
    let outcome = Outcome::Left { place, effects };
    let told = Snapshot::of(&outcome);
    let Outcome::Left { effects, .. } = outcome else {
        unreachable!()
    };
    (effects, ForRecord { told, kept: None })
}

/// The lines that are played up to a place, and what is recorded of that.
pub fn played_of<E, P: Copied>(
    alloc: Global,
    recording: Recording,
    place: Number,
    lines: Vec<P>,
) -> Result<(Vec<P>, ForRecord<Outcome<E, P>>), AllocError>
    ensures lines { IfOk result (λ r. r.0 ≡ lines) }
    ensures played { IfOk result (λ r. IsPlayed place lines.items r.1.told.value) }
    ensures kept { IfOk result (λ r. IsKept recording r.1) }
    ensures none { recording ≡ Off → IfOk result (λ r. r.1.kept ≡ None) }
{
    match recording {
        Recording::On => {
            let copies = copied_all(alloc, &lines)?;
            let outcome = Outcome::Looked {
                place,
                lines: copies,
            };
            Ok((lines, ForRecord::of(outcome)))
        }
        Recording::Off => Ok(told_looked(place, lines)),
    }
}

/// The lines that are played, and a record of them for clauses only.
fn told_looked<E, P>(place: Number, lines: Vec<P>) -> (Vec<P>, ForRecord<Outcome<E, P>>)
    ensures told { (result.0 ≡ lines) × (result.1.told.value ≡ Looked place lines) }
    ensures none { result.1.kept ≡ None }
{
    let outcome = Outcome::Looked { place, lines };
    let told = Snapshot::of(&outcome);
    let Outcome::Looked { lines, .. } = outcome else {
        unreachable!()
    };
    (lines, ForRecord { told, kept: None })
}

/// An answer as it is in the record.
pub fn outcome_by<E, P>(answer: &Result<(), Refusal>) -> Outcome<E, P>
    ensures { result ≡ outcome_by answer.now }
{
    match answer {
        Ok(()) => Outcome::Quiet,
        Err(refusal) => Outcome::Refused(*refusal),
    }
}

/// The receivers of these messages, in order.
pub fn addressees<B: Wire>(alloc: Global, messages: &[Message<B>]) -> Result<Vec<u8>, AllocError>
    ensures { IfOk result (λ v. v.items ≡ map to_of messages.now) }
{
    let mut all = Vec::with_capacity(alloc, messages.len())?;
    for message in messages {
        all.push(message.to)?;
    }
    Ok(all)
}
