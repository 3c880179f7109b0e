ghost use Rattle.std.specs.Prelude.{◌≡◌, slice_get, slice_index};
ghost use Rattle.buffer_targets.specs.Targets.{counted, counted_one, fewer, none_seen};

use std::marker::Model;

/// The most readers: each name that a client gives is one.
pub const READERS: usize = 64;

/// How many of a target's lines each reader has seen, from the oldest on.
#[derive(Drop)]
pub struct Seen {
    counts: [usize; READERS],
    is_any: bool,
}

impl Model for Seen {
    ghost use Rattle.std.specs.Prelude.{◌≡◌, List, ℕ, false};
    ghost use Rattle.buffer_targets.specs.Targets.{none_seen};

    ghost Value = { List ℕ };

    ghost view = { λ s. s.counts };

    ghost invariant = { λ s. s.is_any ≡ false → s.counts ≡ none_seen };
}

impl Seen {
    pub fn new() -> Seen
        ensures { result ≡ none_seen }
    {
        Seen {
            counts: [0; READERS],
            is_any: false,
        }
    }

    /// How many each reader has seen.
    pub fn counts(&self) -> &[usize]
        ensures { result.now ≡ self.now }
    {
        &self.counts
    }

    /// How many a reader has seen; 0 for a reader past the limit.
    pub fn of(&self, reader: usize) -> usize
        ensures { result ≡ slice_index self.now reader }
    {
        match self.counts.get(reader) {
            Some(count) => *count,
            None => 0,
        }
    }

    /// All lines were removed.
    pub fn clear(&mut self)
        ensures { self.new ≡ none_seen }
    {
        // nothing to do while nobody has seen a line
        if self.is_any {
            self.counts = [0; READERS];
            self.is_any = false;
        }
    }

    /// This many of the oldest lines were dropped.
    pub fn lose(&mut self, gone: usize)
        ensures { self.new ≡ fewer gone self.old }
    {
        if self.is_any {
            lower(&mut self.counts, gone);
        }
    }

    /// This many of the oldest lines were dropped, and the readers who are here have seen all that
    /// there are now.
    pub fn note(&mut self, all: usize, gone: usize, here: &[bool])
        ensures { self.new ≡ counted all gone here.now self.old }
    {
        if !here.is_empty() {
            self.is_any = true;
            count(&mut self.counts, all, gone, here);
        }
    }
}

fn lower(counts: &mut [usize], gone: usize)
    ensures { counts.new ≡ fewer gone counts.old }
{
    for count in counts.iter_mut() {
        *count = count.saturating_sub(gone);
    }
}

fn count(counts: &mut [usize], all: usize, gone: usize, here: &[bool])
    ensures { counts.new ≡ counted all gone here.now counts.old }
{
    let mut place = 0;
    for count in counts.iter_mut() {
        *count = count_of(*count, all, gone, flag_at(here, place));
        place += 1;
    }
}

/// Whether a reader is here, if that is known.
fn flag_at(here: &[bool], place: usize) -> Option<bool>
    ensures { result ≡ slice_get here.now place }
{
    here.get(place).copied()
}

/// How many of all lines a reader has seen, by whether it is here, if that is known.
fn count_of(before: usize, all: usize, gone: usize, is_here: Option<bool>) -> usize
    ensures { result ≡ counted_one all gone is_here before }
{
    match is_here {
        Some(true) => all,
        Some(false) => before.saturating_sub(gone),
        None => before,
    }
}
