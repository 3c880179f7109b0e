//! What is logged to standard error.
ghost use Rattle.std.specs.Prelude.{◌≡◌};
ghost use Rattle.bouncer_run.specs.Levels.{is_told};

use crate::edge_news::EdgeNews;
use crate::growth::{FullIn, Growth};
use crate::journal_errors::{Because, JournalErrors};
use crate::operator::Operator;
use bouncer_config::LogLevel;
use driver::{News, Now};
use jiff::Timestamp;
use raft_log::NodeId;
use std::alloc::AllocError;
use std::fmt::Display;
use std::io;
use std::rt::Runtime;

/// Writes to standard error what an operator is to know: a line for each event, with the time and,
/// if it is about one, the node. No line has a password or the text of a message in it.
#[derive(Drop)]
pub struct Telling<R: Runtime> {
    rt: R,
    level: LogLevel,
    errors: Option<JournalErrors>,
    growth: Option<Growth>,
}

impl<R: Runtime> Telling<R> {
    /// It does not say why a store fails, nor when a log that fills is full.
    pub fn new(rt: R, level: LogLevel) -> Telling<R> {
        Telling {
            rt,
            level,
            errors: None,
            growth: None,
        }
    }

    /// It also says why the store of a node failed, and when a log that fills is full.
    pub fn over(rt: R, level: LogLevel, errors: JournalErrors, growth: Growth) -> Telling<R> {
        Telling {
            rt,
            level,
            errors: Some(errors),
            growth: Some(growth),
        }
    }

    /// One event of a node.
    pub fn tell<E: Display>(&self, now: &Now, node: u8, event: &E) {
        if !is_told(self.level, false) {
            return;
        }
        if let Ok(time) = Timestamp::from_second(now.at.seconds() as i64) {
            let _ = eprintln!(self.rt; "{time} node {node}: {event}");
        }
    }

    /// One event, which may be of a node.
    fn tell_of<E: Display>(&self, now: &Now, node: Option<NodeId>, event: &E) {
        match node {
            Some(node) => self.tell(now, node.value(), event),
            None => self.tell_all(now, event),
        }
    }

    /// Why the store of a node failed, if this says that it did, and if it is known.
    fn error_of(&self, news: &News) -> Option<io::Error> {
        match &self.errors {
            Some(errors) => errors.of_news(news),
            None => None,
        }
    }

    /// In how many days the log is full, if this says that it fills, and if it is known.
    fn days_of(&self, now: &Now, news: &News) -> Option<u64> {
        match &self.growth {
            Some(growth) => growth.days_of(now, news),
            None => None,
        }
    }

    /// One event that is of no node.
    pub fn tell_all<E: Display>(&self, now: &Now, event: &E) {
        if !is_told(self.level, false) {
            return;
        }
        if let Ok(time) = Timestamp::from_second(now.at.seconds() as i64) {
            let _ = eprintln!(self.rt; "{time} {event}");
        }
    }
}

impl<R: Runtime> Operator for Telling<R> {
    fn hear_length(&mut self, now: &Now, entries: u64) -> Result<(), AllocError> {
        match &mut self.growth {
            Some(growth) => growth.hear(now, entries),
            None => Ok(()),
        }
    }

    fn hear(&mut self, now: &Now, news: News) {
        if let Some(error) = self.error_of(&news) {
            let because = Because { news: &news, error };
            self.tell_of(now, news.node(), &because);
        } else if let Some(days) = self.days_of(now, &news) {
            let full_in = FullIn { news: &news, days };
            self.tell_of(now, news.node(), &full_in);
        } else {
            self.tell_of(now, news.node(), &news);
        }
    }

    fn hear_edge(&mut self, now: &Now, news: EdgeNews) {
        if !is_told(self.level, news.is_detail()) {
            return;
        }
        self.tell_of(now, news.node(), &news);
    }
}

/// Whether an event is logged: details only if they are asked for.
fn is_told(level: LogLevel, is_detail: bool) -> bool
    ensures { result ≡ is_told level is_detail }
{
    match level {
        LogLevel::Quiet => false,
        LogLevel::Info => !is_detail,
        LogLevel::Debug => true,
    }
}
