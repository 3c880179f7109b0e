//! The making of an ether, and the opening of its cells.
ghost use Rattle.std.specs.Prelude.{IfOk};
ghost use Rattle.std.specs.Arc.{arc_value};
ghost use Rattle.ether.specs.Passes.{AreNew};

use crate::cell::upstream::NoUpstream;
use crate::opening::{NewEther, make_ether, open_in_memory};
use crate::walks::marks::mark;
use crate::walks::seat::Seat;
use ether::{Ether, EtherFault, Pass};
use machine_laws::{Hosted, Machine, Marking};
use node_cells::{Closing, Recording};
use raft_log::GroupSize;
use recorder::push_number;
use stable_store::MemoryStore;
use std::alloc::Global;
use std::sync::Arc;
use std::test::Fail;

/// The seats of nodes over stores in memory.
type Seats<M> = Vec<Seat<M, MemoryStore<<M as Machine>::Command>, NoUpstream>>;

/// An ether is made, with what its cells are closed by, and then one of which nothing is refused: a line for each.
pub fn walk_ether<M: Marking>(
    alloc: Global,
    size: GroupSize,
    setup: &M::Setup,
) -> Result<Vec<u8>, Fail> {
    let mut out = Vec::new(alloc);
    mark(alloc);
    let first = made::<M>(alloc, size, setup);
    mark(alloc);
    push_made(&mut out, first)?;
    push_made(&mut out, made::<M>(alloc, size, setup))?;
    Ok(out)
}

/// How many passes a new ether has, whose cells may be closed.
fn made<M: Marking>(alloc: Global, size: GroupSize, setup: &M::Setup) -> Result<usize, EtherFault> {
    let new = make_ether::<M>(alloc, size, setup)?;
    let _closing = Closing::new(alloc, &new.ether, Recording::On)?;
    Ok(new.passes.len())
}

/// Appends how many passes an ether has, or that there was no memory for it.
fn push_made(out: &mut Vec<u8>, passes: Result<usize, EtherFault>) -> Result<(), Fail> {
    match passes {
        Ok(count) => {
            out.extend_from_slice(b"passes ")?;
            push_number(out, count as u64)?;
            out.extend_from_slice(b"\n")?;
        }
        Err(EtherFault::Memory) => out.extend_from_slice(b"memory\n")?,
        Err(EtherFault::Spent) => return Err(Fail::from("another fault than want of memory")),
    }
    Ok(())
}

/// The seats of three nodes, node 1's first. Allocations may be refused in what this node does.
pub fn three<M: Marking>(
    alloc: Global,
    size: GroupSize,
    setup: &M::Setup,
    tried: u8,
) -> Result<Seats<M>, Fail> {
    let NewEther { ether, passes } = make_ether(alloc, size, setup)?;
    let mut passes = passes;
    let mut seats = Vec::new(alloc);
    seat_last(alloc, &ether, &mut passes, &mut seats, tried == 3)?;
    seat_last(alloc, &ether, &mut passes, &mut seats, tried == 2)?;
    seat_last(alloc, &ether, &mut passes, &mut seats, tried == 1)?;
    Ok(seats)
}

/// The last of some new passes is opened, over a new store, and its seat stands before the others.
fn seat_last<M: Marking>(
    alloc: Global,
    ether: &Arc<Ether<M>, Global>,
    passes: &mut Vec<Pass<M::Command, M::Line, M::Target>>,
    seats: &mut Seats<M>,
    is_tried: bool,
) -> Result<(), Fail>
    requires { AreNew (arc_value ether.now) passes.old.items }
    ensures { IfOk result (λ _. AreNew (arc_value ether.now) passes.new.items) }
{
    let cell = open_in_memory(alloc, ether, passes, Recording::On)?;
    seats.insert(0, Seat::new(alloc, cell, is_tried))?;
    Ok(())
}
