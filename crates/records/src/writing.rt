//! Record files, written.
ghost use Rattle.std.specs.Prelude.{◌≡◌, ◌++◌, IfOk, OnOk};
ghost use Rattle.recorder.specs.EventLists.{text_of_events};
ghost use Rattle.records.specs.RecordText.{AreWritableTurns, events_of, file_text, outputs_text};
ghost use Rattle.records.specs.declared.file_version.FileVersion.TheVariants.{Second};

use crate::output::push_outputs;
use crate::record::{Merged, Turn};
use buffer_commands::WireLine;
use irc_line::Name;
use raft_log::GroupSize;
use recorder::{Words, push_body, push_event, push_number};
use std::alloc::{AllocError, Global};
use wire_bytes::Wire;
use world_events::Event;
use world_lines::Spelled;
use world_run::Outcome;

/// The text of the record file of a run: its size and setup, the events of its turns, what came out of each turn as it
/// was recorded, and the states of the nodes at the end.
pub fn write_record<S: Wire, B: Wire, E: Words, P: Spelled>(
    alloc: Global,
    size: GroupSize,
    setup: &S,
    run: &Merged<Event<B, WireLine, Name>, Outcome<E, P>>,
) -> Result<Vec<u8>, AllocError>
    requires setup { S.fits setup.now }
    requires events { AreWritableTurns B.spelled B.fits run.now.turns.items }
    ensures { IfOk result (λ v. v.items ≡ file_text S.spelled S.fits B.spelled B.fits Second size
        setup.now (events_of run.now.turns.items) (outputs_text E.words P.spelled run.now)) }
{
    let mut out = Vec::new(alloc);
    out.extend_from_slice(b"RBREC02 ")?;
    push_number(&mut out, size.value() as u64)?;
    out.push(b'\n')?;
    push_body(alloc, &mut out, setup)?;
    out.push(b'\n')?;
    push_events(alloc, &mut out, &run.turns)?;
    out.extend_from_slice(b"outputs\n")?;
    push_outputs(&mut out, run)?;
    Ok(out)
}

/// Appends the events of turns, a line each.
fn push_events<B: Wire, O>(
    alloc: Global,
    out: &mut Vec<u8>,
    turns: &[Turn<Event<B, WireLine, Name>, O>],
) -> Result<(), AllocError>
    requires { AreWritableTurns B.spelled B.fits turns.now }
    ensures { OnOk result (out.new.items ≡ out.old.items ++
        text_of_events B.spelled B.fits (events_of turns.now)) }
{
    for turn in turns {
        push_event(alloc, out, &turn.event)?;
        out.push(b'\n')?;
    }
    Ok(())
}
