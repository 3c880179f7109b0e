//! Lines that were sent, as clauses see them.
ghost use Rattle.std.specs.Prelude.{◌≡◌, ◌++◌, ◌∷◌, []};
ghost use Rattle.bouncer_run.specs.Pasts.{lines_of};

use irc_line::Line;
use std::snapshot::Snapshot;

/// Lines with their numbers, in the order in which they were sent; a program keeps nothing of them.
#[derive(Drop)]
pub enum Past {
    Nothing,
    /// One more line, after those of a past.
    Told(u64, Snapshot<Line>, Snapshot<Past>),
}

impl Past {
    /// No line yet.
    pub fn nothing() -> Snapshot<Past>
        ensures { lines_of result.value ≡ [] }
    {
        Snapshot::of(&Past::Nothing)
    }

    /// One more line.
    pub fn with(past: Snapshot<Past>, number: u64, line: &Line) -> Snapshot<Past>
        ensures { lines_of result.value ≡ lines_of past.value ++ (number, line.now) ∷ [] }
    {
        Snapshot::of(&Past::Told(number, Snapshot::of(line), past))
    }
}
