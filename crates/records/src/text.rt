//! The text of the record file of a run.
ghost use Rattle.std.specs.Prelude.{◌≡◌, ◌++◌, ◌∷◌, [], IfErr, IfOk, OnOk};
ghost use Rattle.records.specs.RunText.{AreRecordsOf, HasAStranger, IsRunText};

use crate::converting::record_of;
use crate::merging::merge;
use crate::record::Record;
use crate::text_fault::TextFault;
use crate::writable::turns_are_writable;
use crate::writing::write_record;
use buffer_commands::WireLine;
use irc_line::Name;
use machine_laws::{Hosted, Machine};
use node_cells::NodeRecord;
use raft_log::GroupSize;
use recorder::Words;
use setup_spelling::WireSetup;
use std::alloc::{AllocError, Global};
use wire_bytes::Wire;
use world_events::Event;
use world_lines::Spelled;
use world_run::Outcome;

/// The text of the record file of a run, from the records of its nodes: the size of the group, its setup, all turns by
/// rising ticket, what came out of each of them as it was recorded, and the states of the nodes.
pub fn run_text<M>(
    alloc: Global,
    size: GroupSize,
    setup: &WireSetup,
    records: Vec<NodeRecord<M::Command, WireLine, Name, M::Effect, M::Played>>,
) -> Result<Vec<u8>, TextFault>
where
    M: Hosted<Line = WireLine, Target = Name>,
    M::Effect: Words + Drop,
    M::Played: Spelled + Drop,
    ensures ok { IfOk result (λ v. IsRunText M.Command.spelled M.Command.fits M.Effect.words
        M.Played.spelled size setup.now records.items v.items) }
    ensures err { IfErr result (λ e. e ≡ TextFault.Stranger → HasAStranger records.items) }
{
    let run = merge(alloc, all_of(alloc, records)?)?;
    setup.fits();
    turns_are_writable::<M, _>(&run.turns);
    Ok(write_record(alloc, size, setup, &run)?)
}

/// The records of nodes, in order, as those of their group.
fn all_of<B: Wire, E: Drop, P: Drop>(
    alloc: Global,
    records: Vec<NodeRecord<B, WireLine, Name, E, P>>,
) -> Result<Vec<Record<Event<B, WireLine, Name>, Outcome<E, P>>>, TextFault>
    ensures ok { IfOk result (λ v. AreRecordsOf records.items v.items) }
    ensures err { IfErr result (λ e. e ≡ TextFault.Stranger → HasAStranger records.items) }
{
    let mut all = Vec::new(alloc);
    for own in records {
        let record = record_of(alloc, own)?;
        keep(&mut all, record)?;
    }
    Ok(all)
}

/// Appends an item.
fn keep<E: Drop>(all: &mut Vec<E>, item: E) -> Result<(), AllocError>
    ensures { OnOk result (all.new.items ≡ all.old.items ++ item ∷ []) }
{
    Ok(all.push(item)?)
}
