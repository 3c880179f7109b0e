//! Record files, read.
ghost use Rattle.std.specs.Prelude.{IfErr, IfOk};
ghost use Rattle.records.specs.RecordReading.{IsFaultOf, IsRecordOf};

use crate::items::{first_setup, first_size, read_items, versioned};
use crate::replay_fault::ReplayFault;
use buffer_commands::WireLine;
use irc_line::Name;
use raft_log::GroupSize;
use recorder::Dated;
use std::alloc::Global;
use whole_input::MOST_BYTES;
use wire_bytes::Wire;
use world_events::Event;

/// What is needed to rerun what was recorded.
#[derive(Drop)]
pub struct Recording<S, B: Wire> {
    /// How many nodes there were.
    pub size: GroupSize,
    pub setup: S,
    pub events: Vec<Event<B, WireLine, Name>>,
}

/// The parts of a record file, and the lines after its line `outputs`, whatever they are. In a file from before clients
/// had names a line whose body has one is bad.
///
/// Of several faults the first is reported: the length, the beginning of the first line, and then the lines in their
/// order.
pub fn parse_record<S: Wire, B: Dated>(
    alloc: Global,
    input: &[u8],
) -> Result<(Recording<S, B>, &[u8]), ReplayFault>
    ensures parts { IfOk result (λ r. IsRecordOf S.spelled S.fits B.spelled B.fits
        B.brings_name input.now r.0.size r.0.setup r.0.events.items r.1.now) }
    ensures bad { IfErr result
        (IsFaultOf S.spelled S.fits B.spelled B.fits B.brings_name input.now) }
{
    if input.len() > MOST_BYTES {
        return Err(ReplayFault::TooLong);
    }
    let Some((version, rest)) = versioned(input) else {
        return Err(ReplayFault::Version);
    };
    let Some((size, rest)) = first_size(rest) else {
        return Err(ReplayFault::BadLine(1));
    };
    let Some((setup, rest)) = first_setup(alloc, rest)? else {
        return Err(ReplayFault::BadLine(2));
    };
    let (events, outputs) = read_items(alloc, version, rest)?;
    let recording = Recording {
        size,
        setup,
        events,
    };
    Ok((recording, outputs))
}
