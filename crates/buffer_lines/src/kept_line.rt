ghost use Rattle.std.specs.Prelude.{◌≡◌, ◌++◌, OnOk};
ghost use Rattle.irc_line.specs.Lines.{spelling};
ghost use Rattle.buffer_lines.specs.Stamps.{timed};

use crate::head::push_head;
use crate::offset::Offset;
use crate::stamp::{STAMP_LEN, push_stamped};
use irc_line::Line;
use std::alloc::AllocError;
use std::marker::Model;
use wire_bytes::Moment;

/// A line with the moment at which it came. It has two parameters, a target and a text.
#[derive(Drop)]
pub struct KeptLine {
    at: Moment,
    line: Line,
}

impl Model for KeptLine {
    ghost use Rattle.std.specs.Prelude.{ℕ};
    ghost use Rattle.irc_line.specs.Lines.{Parts};
    ghost use Rattle.buffer_lines.specs.Stamps.{line_code};

    ghost Value = { ℕ × Parts };

    ghost coded = { line_code };

    ghost view = { λ k. (k.at, k.line) };
}

impl KeptLine {
    /// A line that came at this moment.
    pub fn new(at: Moment, line: Line) -> KeptLine
        ensures { result ≡ (at, line) }
    {
        KeptLine { at, line }
    }

    /// The moment at which the line came.
    pub fn at(&self) -> Moment
        ensures { result ≡ self.now.0 }
    {
        self.at
    }

    pub fn line(&self) -> &Line
        ensures { result.now ≡ self.now.1 }
    {
        &self.line
    }

    /// Appends the line as it is played, with the time before its text. After an error a part of it
    /// may have been appended.
    #[tactic(auto, using(crate::proofs::Heads::played_behind))]
    pub(crate) fn play(&self, out: &mut Vec<u8>, offset: Offset) -> Result<(), AllocError>
        ensures { OnOk result (out.new.items ≡ out.old.items ++ spelling (timed offset self.now)) }
    {
        let line = &self.line;
        push_head(out, line.prefix(), line.command(), line.parameter(0))?;
        push_stamped(out, offset, self.at, line.parameter(1))?;
        Ok(())
    }

    /// How many bytes the line has at most when it is played.
    pub(crate) fn played_room(&self) -> usize {
        // it is longer by the time, and by a colon where its text had none
        self.line.spelling().len().saturating_add(STAMP_LEN + 1)
    }
}
