//! The lines that wait to be claimed.
ghost use Rattle.std.specs.Prelude.{◌≡◌, ◌+◌, ◌==◌, ◌≤◌, ◌++◌, ◌∷◌, [], length, drop, slice_get, nat_lt, nat_le, is_some, if◌then◌else◌, OnOk, Some, None};
ghost use Rattle.upstream_claim.specs.Numbered.{waiting_limit};
ghost use Rattle.wire_bytes.specs.Limits.{number_limit};

use irc_line::Line;
use std::alloc::{AllocError, Global};
use std::collections::VecDeque;
use wire_bytes::Number;

/// The most lines that wait to be claimed.
// each is held in memory while there is no server, and a line that is sent hours late makes no sense any more
const MOST_LINES: usize = 1_000;

/// The lines that wait, in the order in which they are to be claimed, and how many were claimed before them.
#[derive(Drop)]
pub struct Unclaimed {
    pub count: u64,
    pub lines: VecDeque<Line>,
    ghost limit: { count ≤ number_limit },
}

impl Unclaimed {
    pub fn new(alloc: Global) -> Unclaimed
        ensures count { result.count ≡ 0 }
        ensures lines { result.lines.items ≡ [] }
    {
        Unclaimed {
            count: 0,
            lines: VecDeque::new(alloc),
        }
    }

    /// Whether no more lines may wait.
    pub fn is_full(&self) -> bool
        ensures { result ≡ nat_le waiting_limit (length self.now.lines.items) }
    {
        self.lines.len() >= MOST_LINES
    }

    /// The number of the next line to be claimed.
    pub fn next(&self) -> Option<u64>
        ensures { result
            ≡ (if nat_lt 0 (length self.now.lines.items) then Some (self.now.count + 1) else None) }
    {
        if self.lines.is_empty() {
            None
        } else {
            Some(self.count + 1)
        }
    }

    /// Adds a line after all others that wait.
    pub fn keep(&mut self, line: Line) -> Result<(), AllocError>
        ensures lines { OnOk result (self.new.lines.items ≡ self.old.lines.items ++ line ∷ []) }
        ensures count { self.new.count ≡ self.old.count }
    {
        self.lines.push_back(line)?;
        Ok(())
    }

    /// Removes and returns the line of a number, where it is the next to be claimed.
    pub fn claim(&mut self, number: Number) -> Option<Line>
        ensures line { result
            ≡ (if number == self.old.count + 1 then slice_get self.old.lines.items 0 else None) }
        ensures lines { self.new.lines.items
            ≡ (if is_some result then drop 1 self.old.lines.items else self.old.lines.items) }
        ensures count { self.new.count
            ≡ (if is_some result then self.old.count + 1 else self.old.count) }
    {
        if number.value() != self.count + 1 {
            return None;
        }
        let line = self.lines.pop_front()?;
        self.count = number.value();
        Some(line)
    }
}
