//! Records that are read whole, and the words of their verdicts.
ghost use Rattle.std.specs.Prelude.{◌≡◌, ◌≢◌, IfErr, IfOk, IfSome};
ghost use Rattle.std.specs.Io.KnownBytes.{Appends};
ghost use Rattle.world_app.specs.Replays.{IsRecordFault, IsReplayOf, verdict_words};

use crate::record_fault::RecordFault;
use crate::replays::replay;
use recorder::push_number;
use records::Verdict;
use std::alloc::{AllocError, Global};
use std::io::{Read, Write};
use whole_input::read_whole;

/// Reads a record whole, runs its events again, and writes how its lines compare with those of the run: `same`, or the
/// number of the first line that differs.
///
/// Nothing is written before the last event has happened. No contract says when `Read`, `Write` and `Memory` come.
pub fn replay_record<R: Read, W: Write>(
    alloc: Global,
    input: &mut R,
    output: &mut W,
) -> Result<Verdict, RecordFault>
    ensures verdict { IfOk result (λ v. IfSome (R.remaining input.old) (λ bytes.
        IsReplayOf bytes v)) }
    ensures written { IfOk result (λ v.
        Appends (W.contents output.old) (W.contents output.new) (verdict_words v)) }
    ensures bad { IfErr result (λ e. IfSome (R.remaining input.old) (λ bytes.
        IsRecordFault bytes e)) }
    ensures unwritten { IfErr result (λ e. e ≢ RecordFault.Write → output.new ≡ output.old) }
{
    let bytes = read_whole(alloc, input)?;
    let verdict = replay(alloc, &bytes)?;
    let text = verdict_text(alloc, verdict)?;
    output.write_all(&text).map_err(|_| RecordFault::Write)?;
    output.flush().map_err(|_| RecordFault::Write)?;
    Ok(verdict)
}

/// A verdict in words, as a line.
fn verdict_text(alloc: Global, verdict: Verdict) -> Result<Vec<u8>, AllocError>
    ensures { IfOk result (λ text. text.items ≡ verdict_words verdict) }
{
    let mut text = Vec::new(alloc);
    match verdict {
        Verdict::Same => text.extend_from_slice(b"same\n")?,
        Verdict::Differs(line) => {
            text.extend_from_slice(b"differs at ")?;
            push_number(&mut text, line)?;
            text.push(b'\n')?;
        }
    }
    Ok(text)
}
