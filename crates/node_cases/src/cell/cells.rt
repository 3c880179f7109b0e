//! Three cells of one ether, in one thread.
use crate::opening::{MemoryCell, three_cells};
use node_cells::Recording;
use recorder::NodeFields;
use std::alloc::Global;
use std::test::Fail;
use toy_machine::Toy;
use world_views::NodeInput;

pub type ToyCell = MemoryCell<Toy>;

/// The cells of the three nodes of an ether, over new stores, node 1's first.
pub fn three(alloc: Global, recording: Recording) -> Result<Vec<ToyCell>, Fail> {
    three_cells::<Toy>(alloc, &0, recording)
}

/// This happens to the node at this place, from 0 on.
pub fn turn(cells: &mut [ToyCell], node: usize, input: NodeInput<u8, u8>) -> Result<u64, Fail> {
    if node >= cells.len() {
        return Err(Fail::from("no such node"));
    }
    let output = match input {
        NodeInput::Timeout => cells[node].turn(NodeInput::Timeout)?,
        NodeInput::Beat => cells[node].turn(NodeInput::Beat)?,
        NodeInput::Ask(body) => cells[node].turn(NodeInput::Ask(body))?,
        NodeInput::Apply => cells[node].turn(NodeInput::Apply)?,
        _ => return Err(Fail::from("no such input here")),
    };
    Ok(output.place.value())
}

/// The node at this place beats: the numbers of the older messages that come back, in order.
pub fn replaced(alloc: Global, cells: &mut [ToyCell], node: usize) -> Result<Vec<u64>, Fail> {
    if node >= cells.len() {
        return Err(Fail::from("no such node"));
    }
    let output = cells[node].turn(NodeInput::Beat)?;
    let mut numbers = Vec::new(alloc);
    for envelope in &output.replaced {
        numbers.push(envelope.number)?;
    }
    Ok(numbers)
}

/// Whether what the node at this place posted last to another was taken.
pub fn is_taken(cells: &mut [ToyCell], node: usize, to: u64) -> Result<bool, Fail> {
    if node >= cells.len() || to >= cells[node].size().value() as u64 {
        return Err(Fail::from("no such node"));
    }
    Ok(cells[node].is_taken(to))
}

/// The node at this place stops, and is started again.
pub fn restart(cells: &mut [ToyCell], node: usize) -> Result<(), Fail> {
    if node >= cells.len() {
        return Err(Fail::from("no such node"));
    }
    match cells[node].restart() {
        Ok(()) => Ok(()),
        Err(_) => Err(Fail::from("the node is down")),
    }
}

/// The node at this place hears what lies in the mailbox from another.
pub fn deliver(cells: &mut [ToyCell], node: usize, from: u64) -> Result<(), Fail> {
    if node >= cells.len() || from >= cells[node].size().value() as u64 {
        return Err(Fail::from("no such node"));
    }
    match cells[node].deliver(from)? {
        Some(_output) => Ok(()),
        None => Err(Fail::from("nothing came")),
    }
}

/// What the node at this place plays, from this place of the log on: the place, and the line.
pub fn look(cells: &mut [ToyCell], node: usize, from_place: u64) -> Result<(u64, u8), Fail> {
    if node >= cells.len() {
        return Err(Fail::from("no such node"));
    }
    let looked = cells[node].look(from_place, 0)?;
    match looked.lines.first() {
        Some(line) => Ok((looked.place.value(), *line)),
        None => Err(Fail::from("nothing is played")),
    }
}

/// Whether a look from this place on is refused.
pub fn is_behind(cells: &mut [ToyCell], node: usize, from_place: u64) -> Result<bool, Fail> {
    if node >= cells.len() {
        return Err(Fail::from("no such node"));
    }
    let looked = cells[node].look(from_place, 0);
    Ok(looked.is_err())
}

/// A node's term, log, commit and applied place.
pub fn line_of(cells: &[ToyCell], node: usize) -> Result<(u64, u64, u64, u64), Fail> {
    if node >= cells.len() {
        return Err(Fail::from("no such node"));
    }
    Ok(places(cells[node].fields()))
}

/// The term, log, commit and applied place of a line.
fn places(fields: NodeFields) -> (u64, u64, u64, u64) {
    (
        fields.term.value(),
        fields.log.value(),
        fields.commit.value(),
        fields.applied.value(),
    )
}

/// The cell at this place is closed: how many turns it recorded, and the term, log, commit and applied
/// place of the line that it left.
pub fn left(cells: &mut Vec<ToyCell>, node: usize) -> Result<(usize, (u64, u64, u64, u64)), Fail> {
    if node >= cells.len() {
        return Err(Fail::from("no such node"));
    }
    let record = cells.remove(node).close();
    Ok((record.turns.len(), places(record.state)))
}
