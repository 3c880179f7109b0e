//! An input that is folded as it comes, in whatever pieces.
ghost use Rattle.std.specs.Prelude.{◌≡◌, ◌≢◌, ◌+◌, ◌^◌, ◌<◌, ◌≤◌, ◌⊎◌, ◌∷◌, ◌++◌, [], length, IfOk, IfErr, OnOk, None, false};
ghost use Rattle.irc_line.specs.Splitting.{HasNoLineFeed};
ghost use Rattle.fold_app.specs.Faults.{IsOfALine};
ghost use Rattle.fold_app.specs.Fed.{FoldsOn, FailsOn, Carries, GivesText, GivesFault};

use crate::bodies::fold_line;
use crate::fault::FoldFault;
use crate::lines::at_line_feed;
use buffer_commands::{Action, Command, Effect};
use machine_laws::Machine;
use request_once::{Answer, Body};
use std::alloc::Global;

/// The state of folding an input as it comes.
#[derive(Drop)]
pub struct Folding {
    /// The text of the answers so far.
    output: Vec<u8>,
    /// A buffer for the bytes of each line.
    bytes: Vec<u8>,
    /// The bytes of the line that has not ended yet.
    begun: Vec<u8>,
    /// How many lines have ended.
    place: u64,
    /// What is wrong with the first bad line; from then on nothing is folded.
    fault: Option<FoldFault>,
}

impl Folding {
    /// The folding of an input of which nothing has come.
    pub fn new(alloc: Global) -> Folding
        ensures output { result.output.items ≡ [] }
        ensures begun { result.begun.items ≡ [] }
        ensures place { result.place ≡ 0 }
        ensures fault { result.fault ≡ None }
    {
        Folding {
            output: Vec::new(alloc),
            bytes: Vec::new(alloc),
            begun: Vec::new(alloc),
            place: 0,
            fault: None,
        }
    }

    /// Folds what comes next of the input, wherever it was cut. After a bad line nothing is folded.
    pub fn feed<M>(&mut self, machine: &mut M, piece: &[u8]) -> Result<(), FoldFault>
    where
        M: Machine<Command = Body<Command, Action>, Effect = Answer<Effect>>,
        requires whole { self.old.fault ≡ None → M.spoilt machine.old ≡ false }
        requires room { self.old.place + length piece.now < 2 ^ 64 }
        ensures fed { OnOk result (Carries M.stands M.effects machine.old self.old piece.now
            machine.new self.new) }
        ensures fault { IfErr result (λ e. e ≡ FoldFault.Memory) }
        ensures whole { OnOk result (self.new.fault ≡ None → M.spoilt machine.new ≡ false) }
        ensures room { self.new.place ≤ self.old.place + length piece.now }
    {
        if self.fault.is_some() {
            return Ok(());
        }
        match self.feed_lines(machine, piece) {
            Ok(()) => Ok(()),
            Err(FoldFault::Memory) => Err(FoldFault::Memory),
            Err(fault) => {
                self.fault = Some(fault);
                Ok(())
            }
        }
    }

    /// Folds each line that ends in these bytes, and keeps what follows the last of them.
    fn feed_lines<M>(&mut self, machine: &mut M, piece: &[u8]) -> Result<(), FoldFault>
    where
        M: Machine<Command = Body<Command, Action>, Effect = Answer<Effect>>,
        requires whole { M.spoilt machine.old ≡ false }
        requires room { self.old.place + length piece.now < 2 ^ 64 }
        ensures folded { OnOk result (FoldsOn M.stands M.effects machine.old self.old piece.now
            machine.new self.new) }
        ensures err { IfErr result (λ e. e ≢ FoldFault.Memory →
            FailsOn M.stands M.effects machine.old self.old piece.now e) }
        ensures fault { IfErr result (λ e. (e ≡ FoldFault.Memory) ⊎ IsOfALine e) }
        ensures whole { OnOk result (M.spoilt machine.new ≡ false) }
        ensures room { self.new.place ≤ self.old.place + length piece.now }
        ensures kept { self.new.fault ≡ self.old.fault }
    {
        let mut rest = piece;
        while let Some((end, behind)) = at_line_feed(rest) {
            self.end_line(machine, end)?;
            rest = behind;
        }
        self.begun.extend_from_slice(rest)?;
        Ok(())
    }

    /// Folds the line that is begun, and ends with these bytes and a LF.
    fn end_line<M>(&mut self, machine: &mut M, end: &[u8]) -> Result<(), FoldFault>
    where
        M: Machine<Command = Body<Command, Action>, Effect = Answer<Effect>>,
        requires whole { M.spoilt machine.old ≡ false }
        requires room { self.old.place + 1 < 2 ^ 64 }
        requires line { HasNoLineFeed end.now }
        ensures folded { OnOk result (FoldsOn M.stands M.effects machine.old self.old
            (end.now ++ 10 ∷ []) machine.new self.new) }
        ensures err { IfErr result (λ e. e ≢ FoldFault.Memory →
            FailsOn M.stands M.effects machine.old self.old (end.now ++ 10 ∷ []) e) }
        ensures fault { IfErr result (λ e. (e ≡ FoldFault.Memory) ⊎ IsOfALine e) }
        ensures whole { OnOk result (M.spoilt machine.new ≡ false) }
        ensures room { self.new.place ≡ self.old.place + 1 }
        ensures kept { self.new.fault ≡ self.old.fault }
    {
        self.place += 1;
        if self.begun.is_empty() {
            return fold_line(machine, &mut self.output, &mut self.bytes, self.place, end);
        }
        self.begun.extend_from_slice(end)?;
        let folded = fold_line(
            machine,
            &mut self.output,
            &mut self.bytes,
            self.place,
            &self.begun,
        );
        self.begun.clear();
        folded
    }

    /// Folds the last line, if it lacks its LF, and returns the text of all answers, or what is
    /// wrong with the first bad line.
    pub fn finish<M>(mut self, machine: &mut M) -> Result<Vec<u8>, FoldFault>
    where
        M: Machine<Command = Body<Command, Action>, Effect = Answer<Effect>>,
        requires whole { self.fault ≡ None → M.spoilt machine.old ≡ false }
        requires room { self.place + 1 < 2 ^ 64 }
        ensures ok { IfOk result (λ text.
            GivesText M.stands M.effects machine.old self text.items) }
        ensures err { IfErr result (λ e. GivesFault M.stands M.effects machine.old self e) }
    {
        if let Some(fault) = self.fault {
            return Err(fault);
        }
        if !self.begun.is_empty() {
            self.place += 1;
            fold_line(
                machine,
                &mut self.output,
                &mut self.bytes,
                self.place,
                &self.begun,
            )?;
        }
        Ok(self.output)
    }
}
