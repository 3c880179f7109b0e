//! Records of nodes as one list.
ghost use Rattle.std.specs.Prelude.{IfOk};
ghost use Rattle.records.specs.Merging.{IsGathered, IsMergeOf};

use crate::record::{Merged, Record};
use std::alloc::{AllocError, Global};

/// The turns of all records by rising ticket, each with its own result. Turns with the same ticket, which no run has,
/// are ordered by their node, and those of one node as in its record. Takes the time of two sorts.
pub fn merge<E: Drop, O: Drop>(
    alloc: Global,
    records: Vec<Record<E, O>>,
) -> Result<Merged<E, O>, AllocError>
    ensures { IfOk result (IsMergeOf records.items) }
{
    // both sorts are stable, so turns with the same ticket stay in the order of their nodes
    let mut ranked = records;
    ranked.sort_by_key(|record| record.node.value())?;
    let mut merged = gather(alloc, ranked)?;
    merged.turns.sort_by_key(|turn| turn.ticket)?;
    Ok(merged)
}

/// The turns of all records, one record's after the other's, and the state of each node.
fn gather<E: Drop, O: Drop>(
    alloc: Global,
    records: Vec<Record<E, O>>,
) -> Result<Merged<E, O>, AllocError>
    ensures { IfOk result (IsGathered records.items) }
{
    let mut turns = Vec::new(alloc);
    let mut nodes = Vec::new(alloc);
    for record in records {
        let Record {
            node,
            turns: mut own,
            state,
        } = record;
        nodes.push((node, state))?;
        turns.append(&mut own)?;
    }
    Ok(Merged { turns, nodes })
}
