//! What time it is.
ghost use Rattle.std.specs.Prelude.{◌≡◌, ◌+◌, ◌-◌, min, nat_le, IsTrue};
ghost use Rattle.wire_bytes.specs.Limits.{second_limit};

use driver::Now;
use std::io;
use std::rt::Clock;
use std::time::{Instant, SystemTime, UNIX_EPOCH};
use wire_bytes::{LAST_SECOND, Moment};

/// A clock that begins with the program.
#[derive(Clone, Copy)]
pub struct Clockwork {
    start: Instant,
}

impl Clockwork {
    pub fn start(rt: &impl Clock) -> io::Result<Clockwork> {
        Ok(Clockwork {
            start: Instant::now(rt)?,
        })
    }

    /// The moment now.
    pub fn now(&self, rt: &impl Clock) -> io::Result<Now> {
        let passed = self.start.elapsed(rt)?;
        let ms = passed
            .as_secs()
            .saturating_mul(1000)
            .saturating_add(passed.subsec_millis() as u64);
        Ok(Now {
            ms,
            at: time_of_day(rt),
        })
    }
}

/// The moment now by the time of day, or 1970 if it is not known.
pub fn time_of_day(rt: &impl Clock) -> Moment {
    moment_of(seconds_of_day(rt))
}

/// The seconds since 1970 by the time of day, or 0 if it is earlier than that, or not known.
fn seconds_of_day(rt: &impl Clock) -> u64 {
    let Ok(time) = SystemTime::now(rt) else {
        return 0;
    };
    match time.duration_since(UNIX_EPOCH) {
        Ok(since) => since.as_secs(),
        Err(_) => 0,
    }
}

/// The moment this many seconds after 1970, or the last that there is.
fn moment_of(seconds: u64) -> Moment
    ensures { result ≡ min seconds second_limit }
{
    Moment::new(seconds.min(LAST_SECOND))
}

/// What is done again and again, at most this often.
#[derive(Clone, Copy)]
pub struct Ticks {
    /// How much time is between two, in milliseconds.
    every: u64,
    /// When the next one is due, in milliseconds.
    due: u64,
}

impl Ticks {
    /// The first one is due at once.
    pub fn new(every: u64) -> Ticks
        ensures { result ≡ record { every = every; due = 0 } }
    {
        Ticks { every, due: 0 }
    }

    /// How long it is until the next one is due.
    pub fn wait(&self, ms: u64) -> u64
        ensures { result ≡ self.now.due - ms }
    {
        self.due.saturating_sub(ms)
    }

    /// Whether one is due at this moment. If so, the next one is due after the time between two.
    pub fn take(&mut self, ms: u64) -> bool
        ensures due { result ≡ nat_le self.old.due ms }
        ensures next { IsTrue result
            → self.new.due ≡ min (ms + self.old.every) 18446744073709551615 }
        ensures every { self.new.every ≡ self.old.every }
    {
        if ms < self.due {
            return false;
        }
        self.due = ms.saturating_add(self.every);
        true
    }
}
