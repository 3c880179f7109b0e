//! Three cells of one ether, in one thread.
use crate::marked::noting::Notes;
use crate::opening::{MemoryCell, three_cells};
use node_cells::{CellFault, Recording};
use node_steps::Refusal;
use raft_node::NodeFault;
use std::alloc::Global;
use std::test::Fail;
use wire_bytes::Mark;
use world_views::NodeInput;

pub type NotesCell = MemoryCell<Notes>;

/// The cells of the three nodes of an ether, over new stores, node 1's first.
pub fn three(alloc: Global) -> Result<Vec<NotesCell>, Fail> {
    three_cells::<Notes>(alloc, &0, Recording::On)
}

/// This happens to the node at this place, from 0 on.
pub fn turn(cells: &mut [NotesCell], node: usize, input: NodeInput<Mark, u8>) -> Result<u64, Fail> {
    if node >= cells.len() {
        return Err(Fail::from("no such node"));
    }
    let output = match input {
        NodeInput::Timeout => cells[node].turn(NodeInput::Timeout)?,
        NodeInput::Beat => cells[node].turn(NodeInput::Beat)?,
        NodeInput::Apply => cells[node].turn(NodeInput::Apply)?,
        _ => return Err(Fail::from("no such input here")),
    };
    Ok(output.place.value())
}

/// The node at this place stops, and is started again.
pub fn restart(cells: &mut [NotesCell], node: usize) -> Result<(), Fail> {
    if node >= cells.len() {
        return Err(Fail::from("no such node"));
    }
    match cells[node].restart() {
        Ok(()) => Ok(()),
        Err(_) => Err(Fail::from("the node is down")),
    }
}

/// The node at this place hears what lies in the mailbox from another.
pub fn deliver(cells: &mut [NotesCell], node: usize, from: u64) -> Result<(), Fail> {
    if node >= cells.len() || from >= cells[node].size().value() as u64 {
        return Err(Fail::from("no such node"));
    }
    match cells[node].deliver(from)? {
        Some(_output) => Ok(()),
        None => Err(Fail::from("nothing came")),
    }
}

/// The node at this place asks for its next mark: the mark's number.
pub fn mark(cells: &mut [NotesCell], node: usize) -> Result<u64, Fail> {
    if node >= cells.len() {
        return Err(Fail::from("no such node"));
    }
    match cells[node].mark() {
        Ok(asked) => Ok(asked.number),
        Err(_) => Err(Fail::from("no mark")),
    }
}

/// Whether the node at this place refuses to ask for a mark.
pub fn is_refused(cells: &mut [NotesCell], node: usize) -> Result<bool, Fail> {
    if node >= cells.len() {
        return Err(Fail::from("no such node"));
    }
    let asked = cells[node].mark();
    Ok(asked.is_err())
}

/// What the node at this place plays once it has applied its mark of this number: the place, and the number of the last
/// body; 0 and 0 until then.
pub fn look_after(cells: &mut [NotesCell], node: usize, number: u64) -> Result<(u64, u64), Fail> {
    if node >= cells.len() {
        return Err(Fail::from("no such node"));
    }
    match cells[node].look_after(number, 0) {
        Ok(looked) => match looked.lines.first() {
            Some(line) => Ok((looked.place.value(), line.value())),
            None => Err(Fail::from("nothing is played")),
        },
        Err(CellFault::Node(NodeFault::Refused(Refusal::Behind(_)))) => Ok((0, 0)),
        Err(_) => Err(Fail::from("no look")),
    }
}

/// How many turns the node at this place recorded.
pub fn recorded(cells: Vec<NotesCell>, node: usize) -> Result<usize, Fail> {
    let mut cells = cells;
    if node >= cells.len() {
        return Err(Fail::from("no such node"));
    }
    let cell = cells.swap_remove(node);
    Ok(cell.close().turns.len())
}
