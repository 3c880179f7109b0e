//! What a content says, as slices of it: all is judged before anything is built.
ghost use Rattle.std.specs.Prelude.{◌≡◌, Err, IfErr, IfOk, IsTrue, Ok, OnOk, Some, map};
ghost use Rattle.irc_line.specs.Names.{same_bytes};
ghost use Rattle.irc_line.specs.Lines.{is_line, spelling};
ghost use Rattle.irc_line.specs.Grammar.{upper};
ghost use Rattle.irc_line.specs.Reading.{judged_parts};

use crate::comparing::{behind_prefix, behind_upper};
use crate::limits::{LINE_LIMIT, PARAMETER_LIMIT};
use crate::spelling::prefix_len;
use crate::tail::{are_spelled, lent_parameters, tail_size};
use crate::word::upper_byte;
use crate::{Line, LineFault};
use std::alloc::{AllocError, Global};
use std::marker::Model;

/// What a content says: its prefix, its command in the letters as received, and what follows the
/// command.
#[derive(Drop)]
pub struct Draft<'a> {
    pub prefix: Option<&'a [u8]>,
    pub command: &'a [u8],
    pub tail: &'a [u8],
}

impl<'a> Model for Draft<'a> {
    ghost use Rattle.irc_line.specs.Lines.{Parts, lent_prefix, parts_code};
    ghost use Rattle.irc_line.specs.Reading.{drafted};

    ghost Value = { Parts };

    ghost coded = { parts_code };

    ghost view = { λ d. drafted (lent_prefix d.prefix) d.command.now d.tail.now };
}

impl<'a> Draft<'a> {
    /// Whether the draft is within a line's limits: 15 parameters, and 511 bytes of
    /// canonical spelling.
    #[tactic(auto, unfolding(crate::specs::Lines::spelling))]
    pub fn check_limits(&self) -> Result<(), LineFault>
        ensures ok { OnOk result (judged_parts (Some self.now) ≡ Ok self.now) }
        ensures err { IfErr result (λ e. judged_parts (Some self.now) ≡ Err e) }
    {
        let size = tail_size(self.command, self.tail);
        if size.parameters > PARAMETER_LIMIT {
            return Err(LineFault::TooManyParameters);
        }
        let front = prefix_len(self.prefix).saturating_add(self.command.len());
        if front.saturating_add(size.spelled) > LINE_LIMIT {
            return Err(LineFault::TooLong);
        }
        Ok(())
    }

    /// Whether these bytes are the draft's canonical spelling.
    pub fn is_spelled(&self, bytes: &[u8]) -> bool
        ensures { result ≡ same_bytes (spelling self.now) bytes.now }
    {
        let Some(bytes) = behind_prefix(self.prefix, bytes) else {
            return false;
        };
        match behind_upper(self.command, bytes) {
            None => false,
            Some(bytes) => are_spelled(self.command, self.tail, bytes),
        }
    }

    /// The line of the draft, whose canonical spelling is these bytes: they are copied once.
    pub fn copied(&self, alloc: Global, bytes: &[u8]) -> Result<Line, AllocError>
        requires line { IsTrue (is_line self.now) }
        requires spelled { IsTrue (same_bytes (spelling self.now) bytes.now) }
        ensures { IfOk result (λ l. l ≡ self.now) }
    {
        let text = Vec::from_slice(alloc, bytes)?;
        let start = prefix_len(self.prefix);
        Line::cut(text, start, start + self.command.len())
    }

    /// The line of the draft, whose canonical spelling is written out.
    pub fn build(&self, alloc: Global) -> Result<Line, AllocError>
        requires { IsTrue (is_line self.now) }
        ensures { IfOk result (λ l. l ≡ self.now) }
    {
        let command = in_upper_case(alloc, self.command)?;
        let parameters = lent_parameters(alloc, self.tail)?;
        Line::new(alloc, self.prefix, &command, &parameters)
    }
}

fn in_upper_case(alloc: Global, word: &[u8]) -> Result<Vec<u8>, AllocError>
    ensures { IfOk result (λ v. v.items ≡ map upper word.now) }
{
    word.iter().map(|b| upper_byte(*b)).collect(alloc)
}
