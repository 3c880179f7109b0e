//! What happens to one node by an event.
ghost use Rattle.std.specs.Prelude.{◌≡◌, ◌⊎◌, ◌≤◌, ◌<◌, None, IfOk, IfErr, length, map, suc, take};
ghost use Rattle.node_cases.specs.Events.{done_by, input_at};
ghost use Rattle.node_cells.specs.Inputs.{OnlyAppend, input_of};
ghost use Rattle.raft_log.specs.Batches.{batch_limit};
ghost use Rattle.raft_node.specs.Together.{OnlyAppends};
ghost use Rattle.world_lines.specs.OutputText.{named_in};
ghost use Rattle.world_views.specs.Views.{carries};

use raft_log::{BATCH_LIMIT, Message, NodeId};
use raft_node::Input as NodeStep;
use std::alloc::Global;
use std::test::Fail;
use wire_bytes::{Copied, Wire};
use world_events::{Event, Input};
use world_lines::named_by;
use world_views::NodeInput;

/// The place of the node of this number, from 1, among so many.
pub fn place_of(node: u64, count: usize) -> Result<usize, Fail>
    ensures place { IfOk result (λ place. (place < count) × (suc place ≡ node)) }
    ensures none { IfErr result (λ _. (node ≡ 0) ⊎ (count < node)) }
{
    if node == 0 || node > count as u64 {
        return Err(Fail::from("no such node"));
    }
    Ok(node as usize - 1)
}

/// The input that the cell of a node takes, other than a delivery or a look.
pub fn own_input<B: Wire, L: Wire, T>(
    alloc: Global,
    input: &Input<B, L, T>,
) -> Result<NodeInput<B, L>, Fail>
    ensures input { IfOk result (λ i. input_at (named_in input.now) i ≡ input.now) }
    ensures brings { IfOk result (λ i. carries i ≡ None) }
{
    match input {
        Input::Timeout(_) => Ok(NodeInput::Timeout),
        Input::Beat(_) => Ok(NodeInput::Beat),
        Input::Ask(_, body) => Ok(NodeInput::Ask(body.copy(alloc)?)),
        Input::Opened(_) => Ok(NodeInput::Opened),
        Input::Closed(_) => Ok(NodeInput::Closed),
        Input::Heard(_, at, line) => Ok(NodeInput::Heard(*at, line.copy(alloc)?)),
        Input::Claim(_) => Ok(NodeInput::Claim),
        Input::Apply(_) => Ok(NodeInput::Apply),
        Input::Deliver(_, _) | Input::Look(_, _, _) => Err(Fail::from("no such input here")),
    }
}

/// The same, as a node takes it.
pub fn own_step<B: Wire, L: Wire, T>(
    alloc: Global,
    input: &Input<B, L, T>,
) -> Result<NodeStep<Message<B>, B, L>, Fail> {
    Ok(match own_input(alloc, input)? {
        NodeInput::Timeout => NodeStep::Timeout,
        NodeInput::Beat => NodeStep::Beat,
        NodeInput::Deliver(envelope) => NodeStep::Deliver(envelope.message),
        NodeInput::Ask(body) => NodeStep::Ask(body),
        NodeInput::Opened => NodeStep::Opened,
        NodeInput::Closed => NodeStep::Closed,
        NodeInput::Heard(at, line) => NodeStep::Heard(at, line),
        NodeInput::Claim => NodeStep::Claim,
        NodeInput::Apply => NodeStep::Apply,
    })
}

/// The inputs of this node's cell that the first so many of these events are, by each of which a leader only appends.
pub fn first_inputs<B: Wire, L: Wire, T>(
    alloc: Global,
    node: NodeId,
    events: &[Event<B, L, T>],
    count: usize,
) -> Result<Vec<NodeInput<B, L>>, Fail>
    ensures those { IfOk result (λ v. map (done_by node) v.items
        ≡ take count (take batch_limit events.now)) }
    ensures appends { IfOk result (λ v. OnlyAppend v.items) }
    ensures few { IfOk result (λ v. length v.items ≤ batch_limit) }
{
    let most = &events[..BATCH_LIMIT.min(events.len())];
    let mut inputs = Vec::new(alloc);
    for event in &most[..count.min(most.len())] {
        if named_by(event).value() != node.value() {
            return Err(Fail::from("an event of another node"));
        }
        let Event::Does(input) = event else {
            return Err(Fail::from("no such event here"));
        };
        inputs.push(appending(alloc, input)?)?;
    }
    Ok(inputs)
}

/// The input that the cell of a node takes, by which a leader only appends.
fn appending<B: Wire, L: Wire, T>(
    alloc: Global,
    input: &Input<B, L, T>,
) -> Result<NodeInput<B, L>, Fail>
    ensures input { IfOk result (λ i. input_at (named_in input.now) i ≡ input.now) }
    ensures appends { IfOk result (λ i. OnlyAppends (input_of i)) }
{
    match input {
        Input::Ask(_, body) => Ok(NodeInput::Ask(body.copy(alloc)?)),
        Input::Opened(_) => Ok(NodeInput::Opened),
        Input::Closed(_) => Ok(NodeInput::Closed),
        Input::Heard(_, at, line) => Ok(NodeInput::Heard(*at, line.copy(alloc)?)),
        Input::Claim(_) => Ok(NodeInput::Claim),
        _ => Err(Fail::from("no input by which a leader only appends")),
    }
}
