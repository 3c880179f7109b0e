//! The greatest numbers of marks.
ghost use Rattle.std.specs.Prelude.{◌≡◌, suc};
ghost use Rattle.node_cells.specs.Marks.{asked_by_all, asks, is_reached, larger, mark_at, reached_after, with_mark};

use machine_laws::Marking;
use raft_log::{Log, NodeId, NodeState};
use wire_bytes::{Mark, Number};
use world_views::NodeInput;

/// The larger of two.
pub fn larger(one: Number, other: Number) -> Number
    ensures { result ≡ larger one other }
{
    if one < other { other } else { one }
}

/// The number of the mark that an input asks for, 0 if it asks for none.
pub fn asks<M: Marking>(input: &NodeInput<M::Command, M::Line>) -> Number
    ensures { result ≡ asks M.marked input.now }
{
    match input {
        NodeInput::Ask(body) => match M::marked(body) {
            Some(mark) => mark.number,
            None => Number::new(0),
        },
        _ => Number::new(0),
    }
}

/// The greatest number of a mark that was asked for, after these inputs, too.
pub fn asked_by_all<M: Marking>(most: Number, inputs: &[NodeInput<M::Command, M::Line>]) -> Number
    ensures { result ≡ asked_by_all M.marked most inputs.now }
{
    let mut most = most;
    for input in inputs {
        most = larger(most, asks::<M>(input));
    }
    most
}

/// Whether the greatest number that was reached is at least this.
pub fn is_reached(reached: Option<Number>, number: u64) -> bool
    ensures { result ≡ is_reached reached number }
{
    match reached {
        Some(most) => number <= most.value(),
        None => false,
    }
}

/// The greatest number that is reached, given the one before, once the node has applied up to its place, which was that
/// place or the one before.
pub fn reached_after<M: Marking>(
    reached: Option<Number>,
    node: NodeId,
    before: Number,
    state: &NodeState<M::Command>,
) -> Option<Number>
    ensures { result ≡ reached_after M.marked node before state.now reached }
{
    let standing = state.standing;
    if before < standing.applied {
        let mark = mark_at::<M>(&state.log, standing.applied);
        with_mark(reached, node, standing.boot, mark)
    } else {
        reached
    }
}

/// The mark at a place of a log, if one is there.
fn mark_at<M: Marking>(log: &Log<M::Command>, place: Number) -> Option<Mark>
    ensures { result ≡ mark_at M.marked log.now place }
{
    if place.value() == 0 || log.len() < place {
        return None;
    }
    M::marked(log.body(place).get())
}

/// The greatest number, after this was applied: a mark of this run of this node counts.
fn with_mark(
    reached: Option<Number>,
    node: NodeId,
    boot: Number,
    mark: Option<Mark>,
) -> Option<Number>
    ensures { result ≡ with_mark node boot mark reached }
{
    match mark {
        Some(mark) if mark.node == node.value() && mark.boot == boot => match reached {
            Some(most) => Some(larger(most, mark.number)),
            None => Some(mark.number),
        },
        _ => reached,
    }
}
