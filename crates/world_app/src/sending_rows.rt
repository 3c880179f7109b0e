//! The rows in which the messages of each node were sent.
ghost use Rattle.std.specs.Prelude.{◌≡◌, ◌++◌, ◌-◌, IfOk, OnOk, length, replicate};
ghost use Rattle.world_run.specs.Groups.{nodes_in};
ghost use Rattle.world_app.specs.SendingRows.{AreEmpty, AreNoted, noted, row_in};

use crate::places::index_of;
use machine_laws::Hosted;
use raft_log::NodeId;
use std::alloc::{AllocError, Global};
use world_run::Cell;

/// The rows of this many nodes that sent nothing yet.
pub fn no_rows(alloc: Global, size: usize) -> Result<Vec<Vec<u32>>, AllocError>
    ensures { IfOk result (λ rows. AreEmpty size rows.items) }
{
    let mut rows = Vec::new(alloc);
    for _ in 0..size {
        rows.push(Vec::new(alloc))?;
    }
    Ok(rows)
}

/// The row in which a node sent its message of this number, from 1, if it did.
pub fn sending_row(rows: &[Vec<u32>], sender: NodeId, number: u64) -> Option<u32>
    ensures { result ≡ row_in rows.now sender number }
{
    let node = index_of(sender.value() as u64, rows.len())?;
    let index = index_of(number, rows[node].len())?;
    Some(rows[node][index])
}

/// Notes for each node that its further messages were sent in this row.
pub fn note_all<M: Hosted>(
    rows: &mut Vec<Vec<u32>>,
    cells: &[Cell<M>],
    row: u32,
) -> Result<(), AllocError>
    requires { length rows.old.items ≡ length cells.now }
    ensures { OnOk result (AreNoted row (nodes_in cells.now) rows.old.items rows.new.items) }
{
    for index in 0..cells.len() {
        note(&mut rows[index], cells[index].sent().len(), row)?;
    }
    Ok(())
}

/// Notes this row for each message up to this number that has no row yet.
fn note(rows: &mut Vec<u32>, count: usize, row: u32) -> Result<(), AllocError>
    ensures { OnOk result (rows.new.items ≡ noted row count rows.old.items) }
{
    while rows.len() < count {
        rows.push(row)?;
    }
    Ok(())
}
