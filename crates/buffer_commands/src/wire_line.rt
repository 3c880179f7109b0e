ghost use Rattle.std.specs.Prelude.{◌≡◌, ◌<◌, ◌≤◌, length, MatchOption};
ghost use Rattle.irc_line.specs.Lines.{spelling};
ghost use Rattle.irc_line.specs.Reading.{IsShort};
ghost use Rattle.wire_bytes.specs.Contents.{FitsLine};
ghost use Rattle.irc_line.specs.Limits.{line_limit};

use irc_line::{LINE_LIMIT, Line};
use std::alloc::{AllocError, Global};
use std::marker::Model;
use wire_bytes::{Copied, Wire, WireFault};

/// Any line of at most 511 bytes.
#[derive(Drop)]
pub struct WireLine {
    line: Line,
}

impl Model for WireLine {
    ghost use Rattle.std.specs.Prelude.{◌≤◌, length};
    ghost use Rattle.irc_line.specs.Lines.{Parts, parts_code, spelling};
    ghost use Rattle.irc_line.specs.Limits.{line_limit};

    ghost Value = { Parts };

    ghost coded = { parts_code };

    ghost view = { λ l. l.line };

    ghost invariant = { λ l. length (spelling l.line) ≤ line_limit };
}

impl WireLine {
    /// The line, where it is not too long.
    pub fn from_line(line: Line) -> Option<WireLine>
        ensures { MatchOption result (line_limit < length (spelling line))
            (λ l. (l ≡ line) × IsShort line) }
    {
        if line.spelled_len() <= LINE_LIMIT {
            Some(WireLine { line })
        } else {
            None
        }
    }

    pub fn line(&self) -> &Line
        ensures value { result.now ≡ self.now }
        ensures fits { length (spelling self.now) ≤ line_limit }
    {
        &self.line
    }

    /// Does nothing. A line of at most 511 bytes has a spelling.
    pub fn fits(&self)
        ensures { FitsLine self.now }
    {
        let line = self.line();
        line.command();
    }
}

impl Copied for WireLine {
    fn copy(&self, alloc: Global) -> Result<Self, AllocError> {
        Ok(WireLine {
            line: self.line.copy(alloc)?,
        })
    }
}

/// Written like any line.
impl Wire for WireLine {
    ghost use Rattle.wire_bytes.specs.Contents.{spelled_line, FitsLine, line};
    ghost use Rattle.wire_bytes.specs.Wants.{once_whole};
    ghost use Rattle.wire_bytes.specs.LineCodec.{line_is_codec};

    ghost spelled = { spelled_line };

    ghost fits = { FitsLine };

    ghost taken = { line };

    ghost wants = { once_whole line };

    fn put(&self, out: &mut Vec<u8>) -> Result<(), AllocError> {
        let line = self.line();
        line.put(out)
    }

    fn take(alloc: Global, input: &[u8]) -> Result<(Self, usize), WireFault> {
        let (line, len) = Line::take(alloc, input)?;
        let line = WireLine::from_line(line).ok_or(WireFault::Bad(0))?;
        Ok((line, len))
    }

    ghost is_codec = { line_is_codec };
}
