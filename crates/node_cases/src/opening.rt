//! An ether, and the cells of its nodes, for all cases.
ghost use Rattle.std.specs.Prelude.{IfOk};
ghost use Rattle.std.specs.Arc.{arc_value};
ghost use Rattle.ether.specs.Passes.{AreNew};

use crate::cell::upstream::NoUpstream;
use ether::{Ether, EtherFault, Pass};
use machine_laws::{Hosted, Machine, Marking};
use node_cells::{CellFault, NodeCell, Recording};
use raft_log::GroupSize;
use raft_node::{Cause, NodeFault};
use stable_store::{MemoryStore, Stable};
use std::alloc::Global;
use std::sync::Arc;
use std::test::Fail;

/// A cell over a store in memory, with no upstream.
pub type MemoryCell<M> = NodeCell<M, MemoryStore<<M as Machine>::Command>, NoUpstream>;

/// An ether, with its passes.
#[derive(Drop)]
pub struct NewEther<M: Marking> {
    pub ether: Arc<Ether<M>, Global>,
    pub passes: Vec<Pass<M::Command, M::Line, M::Target>>,
}

/// An ether to which nothing happened yet.
pub fn make_ether<M: Marking>(
    alloc: Global,
    size: GroupSize,
    setup: &M::Setup,
) -> Result<NewEther<M>, EtherFault>
    ensures { IfOk result (λ new. AreNew (arc_value new.ether) new.passes.items) }
{
    let (ether, passes) = Ether::<M>::new(alloc, size, setup)?;
    let Ok(ether) = Arc::new(alloc, ether) else {
        return Err(EtherFault::Memory);
    };
    Ok(NewEther { ether, passes })
}

/// The cell of the last of some new passes, over this store. None where the store fails as its node is started.
pub fn open_last<M: Marking, S: Stable<M::Command>>(
    alloc: Global,
    ether: &Arc<Ether<M>, Global>,
    passes: &mut Vec<Pass<M::Command, M::Line, M::Target>>,
    store: S,
    recording: Recording,
) -> Result<Option<NodeCell<M, S, NoUpstream>>, Fail>
    requires { AreNew (arc_value ether.now) passes.old.items }
    ensures { IfOk result (λ _. AreNew (arc_value ether.now) passes.new.items) }
{
    let Some(pass) = passes.pop() else {
        return Err(Fail::from("no pass is left"));
    };
    let twin = Arc::try_clone(ether)?;
    match NodeCell::open(alloc, twin, pass, store, NoUpstream::new(), recording) {
        Ok(cell) => Ok(Some(cell)),
        Err(CellFault::Node(NodeFault::Down(Cause::Store))) => Ok(None),
        Err(fault) => Err(Fail::from(fault)),
    }
}

/// The same, over a new store in memory.
pub fn open_in_memory<M: Marking>(
    alloc: Global,
    ether: &Arc<Ether<M>, Global>,
    passes: &mut Vec<Pass<M::Command, M::Line, M::Target>>,
    recording: Recording,
) -> Result<MemoryCell<M>, Fail>
    requires { AreNew (arc_value ether.now) passes.old.items }
    ensures { IfOk result (λ _. AreNew (arc_value ether.now) passes.new.items) }
{
    let store = MemoryStore::new(alloc);
    match open_last(alloc, ether, passes, store, recording)? {
        Some(cell) => Ok(cell),
        None => Err(Fail::from("a store in memory failed")),
    }
}

/// The cells of three nodes over new stores in memory, node 1's first.
pub fn three_cells<M: Marking>(
    alloc: Global,
    setup: &M::Setup,
    recording: Recording,
) -> Result<Vec<MemoryCell<M>>, Fail> {
    let Some(size) = GroupSize::new(3) else {
        return Err(Fail::from("no such size"));
    };
    let NewEther { ether, mut passes } = make_ether::<M>(alloc, size, setup)?;
    let third = open_in_memory(alloc, &ether, &mut passes, recording)?;
    let second = open_in_memory(alloc, &ether, &mut passes, recording)?;
    let first = open_in_memory(alloc, &ether, &mut passes, recording)?;
    let mut cells = Vec::new(alloc);
    cells.push(first)?;
    cells.push(second)?;
    cells.push(third)?;
    Ok(cells)
}
