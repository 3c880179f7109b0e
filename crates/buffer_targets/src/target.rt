ghost use Rattle.std.specs.Prelude.{◌≡◌, ◌≤◌, [], IfOk, IsOk, OnOk, OnErr};
ghost use Rattle.std.specs.Cmp.Lexicographic.{slice_cmp};
ghost use Rattle.std.specs.Ordering.{nat_cmp};
ghost use Rattle.irc_line.specs.Names.{fold_name};
ghost use Rattle.buffer_lines.specs.Stamps.{ring, shown_framed};
ghost use Rattle.buffer_targets.specs.Targets.{cleared, none_seen, pushed, resized, seen_all, target, unseen_of};

use crate::seen::Seen;
use buffer_lines::{KeptLine, LineRing, Offset, Shown};
use irc_line::{Name, compare_names};
use std::alloc::{AllocError, Global};
use std::cmp::Ordering;
use std::marker::Model;

/// A target with the last lines that came for it.
#[derive(Drop)]
pub struct Target {
    name: Name,
    lines: LineRing,
    seen: Seen,
}

impl Model for Target {
    ghost use Rattle.buffer_targets.specs.Targets.{TargetLines, target, target_code};

    ghost Value = { TargetLines };

    ghost coded = { target_code };

    ghost view = { λ t. target t.name t.lines t.seen };
}

impl Target {
    /// A target of this name, with no lines.
    pub(crate) fn new(alloc: Global, name: &Name, size: usize) -> Result<Target, AllocError>
        ensures { IfOk result (λ t. t ≡ target name.now (ring [] size) none_seen) }
    {
        Ok(Target {
            name: name.copy(alloc)?,
            lines: LineRing::new(alloc, size)?,
            seen: Seen::new(),
        })
    }

    /// How the target's key compares with that of a name, in the order of their bytes.
    pub(crate) fn compare(&self, name: &[u8]) -> Ordering
        ensures { result ≡ slice_cmp nat_cmp (fold_name self.now.name) (fold_name name.now) }
    {
        compare_names(self.name.as_bytes(), name)
    }

    /// The name as given when the target was made.
    pub fn name(&self) -> &Name
        ensures { result.now ≡ self.now.name }
    {
        &self.name
    }

    pub fn lines(&self) -> &LineRing
        ensures { result.now ≡ self.now.lines }
    {
        &self.lines
    }

    /// How many of the kept lines, from the oldest on, each reader has seen.
    pub fn seen(&self) -> &[usize]
        ensures { result.now ≡ self.now.seen }
    {
        self.seen.counts()
    }

    /// Removes all lines.
    pub(crate) fn clear(&mut self)
        ensures { self.new ≡ cleared self.old }
    {
        self.lines.clear();
        self.seen.clear();
    }

    /// Keeps at most this many lines from now on. A refused call changes nothing.
    pub(crate) fn resize(&mut self, size: usize) -> Result<(), AllocError>
        ensures ok { OnOk result (self.new ≡ resized size self.old) }
        ensures err { OnErr result (self.new ≡ self.old) }
        ensures smaller { size ≤ self.old.lines.size → IsOk result }
    {
        let before = self.lines.count();
        self.lines.set_size(size)?;
        self.seen.lose(before.saturating_sub(size));
        Ok(())
    }

    /// Adds a line. `here` says for each reader whether it is here and sees the line; it may be empty.
    pub(crate) fn push(&mut self, line: KeptLine, here: &[bool])
        ensures { self.new ≡ pushed line here.now self.old }
    {
        let before = self.lines.count();
        self.lines.push(line);
        let all = self.lines.count();
        self.seen
            .note(all, before.saturating_add(1).saturating_sub(all), here);
    }

    /// Notes that the readers who are here have seen all that is kept.
    pub(crate) fn see(&mut self, here: &[bool])
        ensures { self.new ≡ seen_all here.now self.old }
    {
        self.seen.note(self.lines.count(), 0, here);
    }

    /// The kept lines that a reader has not seen, with their times, between the two frame lines; nothing where it has
    /// seen all.
    pub fn play_unseen(&self, reader: usize, offset: Offset) -> Result<Vec<Shown>, AllocError>
        ensures { IfOk result (λ v. v.items ≡
            shown_framed offset self.now.name (unseen_of reader self.now)) }
    {
        let name = self.name.as_bytes();
        self.lines.play_behind(self.seen.of(reader), offset, name)
    }
}
