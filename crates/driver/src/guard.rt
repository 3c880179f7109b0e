//! Wrong passwords: when each is answered, and which of them are logged.
ghost use Rattle.std.specs.Prelude.{◌≡◌};
ghost use Rattle.driver.specs.Guarding.{due_at, is_first, new_guard, next_turn, noted, soon, untold, watched};

use crate::order::Now;
use crate::timer::Timer;

/// How many wrong passwords a minute are answered without a turn.
// a person mistypes a few times, and each device of theirs may send an old one
const FIRST: u64 = 10;

/// How long a wrong password waits for its answer, in milliseconds.
const ANSWERED_BEHIND: u64 = 2_000;

/// How far apart the turns are of those beyond the first ones, in milliseconds.
const TURNS_APART: u64 = 1_000;

/// How far ahead a turn may be, in milliseconds: a client has no more time to register.
const FURTHEST: u64 = 10_000;

/// For how long wrong passwords are counted, in milliseconds.
const MINUTE: u64 = 60_000;

/// How many wrong passwords came, and when the next one is answered.
#[derive(Clone, Copy)]
pub struct Guard {
    /// Since when they are counted.
    since: Timer,
    /// How many came since.
    wrong: u64,
    /// When the last one that got a turn is answered.
    turn: u64,
}

impl Guard {
    /// No wrong password yet.
    pub fn new(now: &Now) -> Guard
        ensures { result ≡ new_guard now.now.ms }
    {
        Guard {
            since: Timer::from(now.ms),
            wrong: 0,
            turn: 0,
        }
    }

    /// When a wrong password that comes now is answered.
    pub fn due(&self, now: &Now) -> u64
        ensures { result ≡ due_at self.now now.now.ms }
    {
        if self.is_first() {
            soon(now)
        } else {
            self.next_turn(now)
        }
    }

    /// Whether one that comes now is among the first of its minute.
    pub fn is_first(&self) -> bool
        ensures { result ≡ is_first self.now }
    {
        self.wrong < FIRST
    }

    /// The turn after the last one.
    fn next_turn(&self, now: &Now) -> u64
        ensures { result ≡ next_turn self.now now.now.ms }
    {
        let soon = soon(now);
        let next = self.turn.saturating_add(TURNS_APART);
        if soon < next { next } else { soon }
    }

    /// A wrong password came.
    pub fn note(&mut self, now: &Now)
        ensures { self.new ≡ noted now.now.ms self.old }
    {
        let next = self.next_turn(now);
        if !self.is_first() && next <= now.ms.saturating_add(FURTHEST) {
            self.turn = next;
        }
        if self.wrong == 0 {
            self.since = Timer::from(now.ms);
        }
        self.wrong = self.wrong.saturating_add(1);
    }

    /// Counts anew once a minute is over. Returns how many came in it that were not logged.
    pub fn watch(&mut self, now: &Now) -> u64
        ensures untold { result ≡ untold now.now.ms self.old }
        ensures watched { self.new ≡ watched now.now.ms self.old }
    {
        if !self.since.has_passed(MINUTE, now.ms) {
            return 0;
        }
        let more = self.wrong.saturating_sub(FIRST);
        self.wrong = 0;
        more
    }
}

/// When a wrong password that comes now and needs no turn is answered.
fn soon(now: &Now) -> u64
    ensures { result ≡ soon now.now.ms }
{
    now.ms.saturating_add(ANSWERED_BEHIND)
}
