//! How fast a log grows.
ghost use Rattle.std.specs.Prelude.{◌≡◌, ◌+◌, ◌≤◌, ◌<◌, ◌∷◌, IfOk, IfSome, OnErr, OnOk, [], length, option_to_list, take};
ghost use Rattle.bouncer_run.specs.Rates.{LeavesRoom, days_left, is_older, is_undone, noted, oldest, up_to_day};

use driver::FULL;
use std::alloc::{AllocError, Global};
use std::marker::Model;
use wire_bytes::Moment;

/// An hour, in seconds.
const HOUR: u64 = 3_600;

/// A day, in seconds.
pub const DAY: u64 = 86_400;

/// A day has 24 hours, so a day has 25 marks an hour apart.
const MOST_MARKS: usize = 25;

/// How many entries a log had at a moment.
#[derive(Clone, Copy, Debug, PartialEq, Eq)]
pub struct Mark {
    pub at: Moment,
    pub entries: u64,
}

impl Mark {
    /// Whether this many seconds have passed since, at this moment.
    fn is_older(&self, seconds: u64, at: Moment) -> bool
        requires { seconds ≤ 86400 }
        ensures { result ≡ is_older seconds at self.now }
    {
        self.at.seconds() + seconds <= at.seconds()
    }

    /// Whether the clock went back since, or the log became shorter, as a new mark shows.
    fn is_undone(&self, new: &Mark) -> bool
        ensures { result ≡ is_undone self.now new.now }
    {
        new.at < self.at || new.entries < self.entries
    }
}

/// How long a log was during the last day: marks an hour apart, the oldest about a day old.
#[derive(Drop)]
pub struct LogRate {
    /// The newest first.
    marks: Vec<Mark>,
}

impl Model for LogRate {
    ghost use Rattle.std.specs.Prelude.{List};
    ghost use Rattle.bouncer_run.specs.declared.log_rate.Mark.{Mark};
    ghost use Rattle.bouncer_run.specs.Rates.{AreMarks};

    ghost Value = { List Mark };

    ghost view = { λ r. r.marks.items };

    ghost invariant = { λ r. AreMarks r.marks.items };
}

impl LogRate {
    /// Nothing is known yet.
    pub fn new(alloc: Global) -> LogRate
        ensures { result ≡ [] }
    {
        LogRate {
            marks: Vec::new(alloc),
        }
    }

    /// This mark is known, if there is one.
    #[tactic(auto, using(crate::proofs::Marks::one))]
    pub fn of(alloc: Global, mark: Option<Mark>) -> Result<LogRate, AllocError>
        ensures { IfOk result (λ r. r ≡ option_to_list mark) }
    {
        let mut marks = Vec::new(alloc);
        if let Some(mark) = mark {
            marks.push(mark)?;
        }
        Ok(LogRate { marks })
    }

    /// A mark is made of how many entries the log has at this moment, if the newest mark is an hour
    /// old. If the clock went back, or the log is shorter than it was, the marks begin anew.
    #[tactic(auto, using(crate::proofs::Marks::one, crate::proofs::Marks::one_more))]
    pub fn note(&mut self, at: Moment, entries: u64) -> Result<(), AllocError>
        ensures ok { OnOk result (self.new ≡ noted (record { at = at; entries = entries }) self.old) }
        ensures err { OnErr result (self.new ≡ self.old) }
    {
        let new = Mark { at, entries };
        let Some(newest) = self.marks.first().copied() else {
            return add(&mut self.marks, new);
        };
        if newest.is_undone(&new) {
            self.marks[0] = new;
            self.marks.truncate(1);
            return Ok(());
        }
        if !newest.is_older(HOUR, at) {
            return Ok(());
        }
        add(&mut self.marks, new)
    }

    /// In how many days a log of this many entries is full at this moment, at the rate since the
    /// oldest mark. `None` if that is less than an hour ago, or the log did not grow.
    #[tactic(auto, using(crate::proofs::Marks::few_seconds, crate::proofs::Marks::leaves_room))]
    pub fn days_left(&self, at: Moment, entries: u64) -> Option<u64>
        ensures value { result ≡ days_left self.now at entries }
        ensures room { IfSome result (λ days.
            IfSome (oldest self.now) (λ mark. LeavesRoom at entries mark days)) }
    {
        let oldest = self.marks.last()?;
        if !oldest.is_older(HOUR, at) || entries <= oldest.entries {
            return None;
        }
        let passed = at.seconds() - oldest.at.seconds();
        let left = FULL.saturating_sub(entries);
        Some(left * passed / (entries - oldest.entries) / DAY)
    }
}

/// A new mark is put before these, of which those up to the first that is a day old are kept.
fn add(marks: &mut Vec<Mark>, new: Mark) -> Result<(), AllocError>
    ensures ok { OnOk result (marks.new.items ≡ new ∷ up_to_day new.at marks.old.items) }
    ensures err { OnErr result (marks.new.items ≡ marks.old.items) }
{
    let kept = count_to_day(marks, new.at);
    marks.insert(0, new)?;
    marks.truncate(kept + 1);
    Ok(())
}

/// How many marks there are up to the first that is a day old at this moment.
fn count_to_day(marks: &[Mark], at: Moment) -> usize
    ensures front { take result marks.now ≡ up_to_day at marks.now }
    ensures within { result ≤ length marks.now }
{
    match marks {
        [] => 0,
        [mark, earlier @ ..] => if mark.is_older(DAY, at) {
            1
        } else {
            1 + count_to_day(earlier, at)
        },
    }
}
