//! When a log is full, as it is logged.
ghost use Rattle.std.specs.Prelude.{◌≡◌, OnErr, OnOk};
ghost use Rattle.bouncer_run.specs.Rates.{days_told, noted};

use crate::log_rate::LogRate;
use driver::{Level, News, Now};
use std::alloc::AllocError;
use std::fmt;

/// How long a log is, and how fast it grows.
#[derive(Drop)]
pub struct Growth {
    rate: LogRate,
    entries: u64,
}

impl Growth {
    /// It grew this fast, and its length is not known yet.
    pub fn new(rate: LogRate) -> Growth
        ensures { result ≡ record { rate = rate; entries = 0 } }
    {
        Growth { rate, entries: 0 }
    }

    /// The log is this long now.
    pub fn hear(&mut self, now: &Now, entries: u64) -> Result<(), AllocError>
        ensures entries { self.new.entries ≡ entries }
        ensures ok { OnOk result (self.new.rate
            ≡ noted (record { at = now.now.at; entries = entries }) self.old.rate) }
        ensures err { OnErr result (self.new.rate ≡ self.old.rate) }
    {
        self.entries = entries;
        self.rate.note(now.at, entries)
    }

    /// In how many days the log is full, if this says that it fills, and if it is known.
    pub fn days_of(&self, now: &Now, news: &News) -> Option<u64>
        ensures { result ≡ days_told self.now.rate now.now.at self.now.entries news.now }
    {
        match news {
            News::LogFills(_, Level::Filling | Level::NearlyFull) => self
                .rate
                .days_left(now.at, self.entries),
            _ => None,
        }
    }
}

/// News of a log that fills, and in how many days it is full.
#[derive(Drop)]
pub struct FullIn<'a> {
    pub news: &'a News,
    pub days: u64,
}

impl fmt::Display for FullIn<'_> {
    fn fmt<W: fmt::Write>(&self, f: &mut fmt::Formatter<W>) -> fmt::Result {
        let news = self.news;
        match self.days {
            0 => write!(
                f,
                "{news} (at the rate of the last day it is full in less than a day)"
            ),
            1 => write!(
                f,
                "{news} (at the rate of the last day it is full in 1 day)"
            ),
            days => write!(
                f,
                "{news} (at the rate of the last day it is full in {days} days)"
            ),
        }
    }
}
