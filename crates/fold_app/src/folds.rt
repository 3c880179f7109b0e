//! Folding an input of bodies into the text of their answers.
ghost use Rattle.std.specs.Prelude.{◌≡◌, ◌≢◌, List, [], ◌⊎◌, ℕ, IfOk, IfErr, OnOk, IfSome, Ok, Err, false};
ghost use Rattle.machine_laws.specs.Runs.{History};
ghost use Rattle.fold_app.specs.Fold.{Request, fold_text, plain_answers};
ghost use Rattle.fold_app.specs.Faults.{IsOfALine};
ghost use Rattle.whole_input.specs.Reads.{IsTooLong, IsWithin};
ghost use Rattle.std.specs.Io.KnownBytes.{Appends, IsAtEnd};

use crate::fault::FoldFault;
use crate::feeding::Folding;
use buffer_commands::{Action, Command, Effect, Setup};
use buffer_machine::BufferMachine;
use machine_laws::Machine;
use request_once::{Answer, Body, Once};
use std::alloc::Global;
use std::io::{Read, Write};
use whole_input::{MOST_READS, count_within, read_piece, room_for_a_piece};

/// Folds the bodies of an input, as it is read, through buffers with the plain setup, each request
/// taking effect once, and writes the text of their answers.
///
/// Nothing is written before the last line is folded, and after a bad line the rest is still read.
/// No contract says when a reader, a writer or an allocation fails, so none says when `Read`,
/// `Write` and `Memory` come.
pub fn fold<R: Read, W: Write>(
    alloc: Global,
    input: &mut R,
    output: &mut W,
) -> Result<(), FoldFault>
    ensures written { OnOk result (IfSome (R.remaining input.old) (λ bytes.
        (text : List ℕ) × (fold_text plain_answers bytes ≡ Ok text)
        × Appends (W.contents output.old) (W.contents output.new) text)) }
    ensures line { IfErr result (λ e. IsOfALine e → IfSome (R.remaining input.old)
        (λ bytes. fold_text plain_answers bytes ≡ Err e)) }
    ensures bounded { OnOk result (IsWithin (R.remaining input.old)) }
    ensures too_long { IfErr result (λ e. e ≡ FoldFault.InputTooLong →
        IsTooLong (R.remaining input.old)) }
    ensures unwritten { IfErr result (λ e. e ≢ FoldFault.Write → output.new ≡ output.old) }
{
    // all is folded before the first byte is written, so that a failed fold writes nothing
    let text = plain_text(alloc, input)?;
    output.write_all(&text).map_err(|_| FoldFault::Write)?;
    output.flush().map_err(|_| FoldFault::Write)
}

/// The text of the answers to all bodies of an input, from a new machine.
#[tactic(auto, unfolding(crate::specs::Fold::plain_answers))]
fn plain_text<R: Read>(alloc: Global, input: &mut R) -> Result<Vec<u8>, FoldFault>
    ensures ok { IfOk result (λ text. IfSome (R.remaining input.old) (λ bytes.
        fold_text plain_answers bytes ≡ Ok text.items)) }
    ensures line { IfErr result (λ e. IsOfALine e → IfSome (R.remaining input.old) (λ bytes.
        fold_text plain_answers bytes ≡ Err e)) }
    ensures bounded { OnOk result (IsWithin (R.remaining input.old)) }
    ensures too_long { IfErr result (λ e. e ≡ FoldFault.InputTooLong →
        IsTooLong (R.remaining input.old)) }
    ensures fault { IfErr result (λ e. e ≢ FoldFault.Write) }
{
    let setup = Setup::plain(alloc)?;
    let mut machine: Once<BufferMachine> = Once::start(alloc, &setup)?;
    fold_reads(alloc, &mut machine, input)
}

/// The text of the answers of a machine to all bodies of an input, which is folded as it is read. A
/// bad line is reported only once the input was read to its end.
fn fold_reads<M, R: Read>(
    alloc: Global,
    machine: &mut M,
    input: &mut R,
) -> Result<Vec<u8>, FoldFault>
where
    M: Machine<Command = Body<Command, Action>, Effect = Answer<Effect>>,
    requires { M.spoilt machine.old ≡ false }
    ensures ok { IfOk result (λ text. IfSome (R.remaining input.old) (λ bytes. (s : M.Setup)
        → M.stands machine.old s [] → fold_text (M.effects s) bytes ≡ Ok text.items)) }
    ensures line { IfErr result (λ e. IsOfALine e → IfSome (R.remaining input.old) (λ bytes.
        (s : M.Setup) → fold_text (M.effects s) bytes ≡ Err e)) }
    ensures bounded { OnOk result (IsWithin (R.remaining input.old)) }
    ensures too_long { IfErr result (λ e. e ≡ FoldFault.InputTooLong →
        IsTooLong (R.remaining input.old)) }
    ensures read { IfErr result (λ e. IsOfALine e →
        IsWithin (R.remaining input.old) × IsAtEnd (R.remaining input.new)) }
    ensures fault { IfErr result (λ e. e ≢ FoldFault.Write) }
{
    let mut room = room_for_a_piece(alloc)?;
    let mut folding = Folding::new(alloc);
    let mut bytes = 0usize;
    for _ in 0..MOST_READS {
        match read_piece(input, room.as_mut_slice())? {
            None => {}
            Some(0) => return folding.finish(machine),
            Some(count) => {
                bytes = count_within(bytes, count)?;
                folding.feed(machine, &room[..count])?;
            }
        }
    }
    Err(FoldFault::Read)
}

/// The text of the answers of a machine to all bodies of an input, or the fault of its first
/// bad line.
pub fn fold_input<M>(alloc: Global, machine: &mut M, input: &[u8]) -> Result<Vec<u8>, FoldFault>
where
    M: Machine<Command = Body<Command, Action>, Effect = Answer<Effect>>,
    requires { M.spoilt machine.old ≡ false }
    ensures ok { (s : M.Setup) → M.stands machine.old s [] →
        IfOk result (λ text. fold_text (M.effects s) input.now ≡ Ok text.items) }
    ensures err { (s : M.Setup) → IfErr result (λ e. e ≢ FoldFault.Memory →
        fold_text (M.effects s) input.now ≡ Err e) }
    ensures fault { IfErr result (λ e. (e ≡ FoldFault.Memory) ⊎ IsOfALine e) }
{
    let mut folding = Folding::new(alloc);
    folding.feed(machine, input)?;
    folding.finish(machine)
}
