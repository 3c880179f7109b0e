//! The cell of a node, in whose calls allocations may be refused.
ghost use Rattle.std.specs.Prelude.{◌≡◌, None};
ghost use Rattle.world_views.specs.Views.{carries};

use crate::walks::marks::mark;
use machine_laws::{Hosted, Machine, Marking};
use node_cells::{CellFault, NodeCell, NodeRecord, Upstream};
use raft_node::{Cause, NodeFault};
use recorder::NodeFields;
use stable_store::Stable;
use std::alloc::Global;
use std::test::Fail;
use world_views::NodeInput;

/// A cell.
#[derive(Drop)]
pub struct Seat<M: Marking, S: Stable<M::Command>, U: Upstream> {
    alloc: Global,
    cell: NodeCell<M, S, U>,
    /// Whether allocations may be refused in what it does.
    is_tried: bool,
}

/// Whether something has happened.
#[derive(Clone, Copy, PartialEq, Eq)]
pub enum Settled {
    Yes,
    /// It was refused memory, and the cell is as it was.
    No,
}

impl<M: Marking, S: Stable<M::Command>, U: Upstream> Seat<M, S, U> {
    pub fn new(alloc: Global, cell: NodeCell<M, S, U>, is_tried: bool) -> Self {
        Seat {
            alloc,
            cell,
            is_tried,
        }
    }

    /// The record of its turns.
    pub fn close(self) -> NodeRecord<M::Command, M::Line, M::Target, M::Effect, M::Played> {
        let Seat { cell, .. } = self;
        cell.close()
    }

    fn mark(&self) {
        if self.is_tried {
            mark(self.alloc);
        }
    }

    /// A turn of this input.
    pub fn turn(&mut self, input: NodeInput<M::Command, M::Line>) -> Result<Settled, Fail>
        requires { carries input ≡ None }
    {
        let before = self.cell.fields();
        self.mark();
        let answer = self.cell.turn(input);
        self.mark();
        match answer {
            Ok(_output) => Ok(Settled::Yes),
            Err(fault) => self.stand(before, fault),
        }
    }

    /// What lies in the mailbox from the node at this place, from 0 on, comes, if something does. A message whose turn
    /// was refused is lost.
    pub fn deliver(&mut self, from: u64) -> Result<Settled, Fail> {
        if from >= self.cell.size().value() as u64 {
            return Err(Fail::from("no such node"));
        }
        let before = self.cell.fields();
        self.mark();
        let answer = self.cell.deliver(from);
        self.mark();
        match answer {
            Ok(_output) => Ok(Settled::Yes),
            Err(fault) => self.stand(before, fault),
        }
    }

    /// Its node stops, and is started again; once more where that was refused memory.
    pub fn restart(&mut self) -> Result<(), Fail> {
        self.mark();
        let answer = self.cell.restart();
        self.mark();
        match answer {
            Ok(()) => Ok(()),
            Err(CellFault::Memory) => Ok(self.cell.restart()?),
            Err(CellFault::Node(NodeFault::Down(Cause::Memory))) => Ok(self.cell.restart()?),
            Err(_) => Err(Fail::from("another fault than want of memory")),
        }
    }

    /// After this fault the cell shows what it showed before. Where its node is down, it is started again.
    fn stand(&mut self, before: NodeFields, fault: CellFault) -> Result<Settled, Fail> {
        if self.cell.fields() != before {
            return Err(Fail::from("a refused turn changed what the cell shows"));
        }
        match (fault, self.cell.down()) {
            (CellFault::Node(NodeFault::Refused(_)), None) => Ok(Settled::Yes),
            (CellFault::Memory, None) => Ok(Settled::No),
            (CellFault::Node(NodeFault::Down(Cause::Memory)), Some(Cause::Memory)) => {
                self.cell.restart()?;
                Ok(Settled::Yes)
            }
            _ => Err(Fail::from("another fault than want of memory")),
        }
    }
}
