//! Three cells over journals, of which one call of node 1's disk fails.
ghost use Rattle.std.specs.Prelude.{IfOk};
ghost use Rattle.std.specs.Arc.{arc_value};
ghost use Rattle.ether.specs.Passes.{AreNew};

use crate::cell::upstream::NoUpstream;
use crate::opening::{NewEther, make_ether, open_last};
use ether::{Ether, Pass};
use fault_disks::{Fails, FaultDisk};
use journal_store::JournalStore;
use machine_laws::{Hosted, Machine, Marking};
use node_cells::{NodeCell, Recording};
use raft_log::GroupSize;
use stable_store::Stable;
use std::alloc::Global;
use std::sync::Arc;
use std::test::Fail;

/// A new journal, in which nothing is saved.
const EMPTY: [u8; 9] = *b"RBSTOR02\0";

pub type DiskJournal<B> = JournalStore<B, FaultDisk>;

pub type JournalCell<M> = NodeCell<M, DiskJournal<<M as Machine>::Command>, NoUpstream>;

/// The cells of three nodes, node 1's first. None where the call fails by which node 1's journal is opened, or its node is
/// started.
pub fn three<M: Marking>(
    alloc: Global,
    size: GroupSize,
    setup: &M::Setup,
    call: usize,
) -> Result<Option<Vec<JournalCell<M>>>, Fail> {
    let NewEther { ether, passes } = make_ether::<M>(alloc, size, setup)?;
    let mut passes = passes;
    let mut cells = Vec::new(alloc);
    if !place_last(alloc, &ether, &mut passes, &mut cells, Fails::Never)? {
        return Ok(None);
    }
    if !place_last(alloc, &ether, &mut passes, &mut cells, Fails::Never)? {
        return Ok(None);
    }
    if !place_last(alloc, &ether, &mut passes, &mut cells, Fails::Once(call))? {
        return Ok(None);
    }
    Ok(Some(cells))
}

/// The last of some new passes is opened, and its cell stands before the others. Whether it could be opened.
fn place_last<M: Marking>(
    alloc: Global,
    ether: &Arc<Ether<M>, Global>,
    passes: &mut Vec<Pass<M::Command, M::Line, M::Target>>,
    cells: &mut Vec<JournalCell<M>>,
    fails: Fails,
) -> Result<bool, Fail>
    requires { AreNew (arc_value ether.now) passes.old.items }
    ensures { IfOk result (λ _. AreNew (arc_value ether.now) passes.new.items) }
{
    let disk = FaultDisk::new(alloc, EMPTY.to_vec(alloc)?, fails);
    let Ok(store) = DiskJournal::<M::Command>::adopt(alloc, disk) else {
        return Ok(false);
    };
    let Some(cell) = open_last(alloc, ether, passes, store, Recording::On)? else {
        return Ok(false);
    };
    cells.insert(0, cell)?;
    Ok(true)
}
