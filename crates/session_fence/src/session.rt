//! What is kept about the sessions with upstream.
ghost use Rattle.std.specs.Prelude.{◌≡◌, ◌+◌, ◌&&◌, ◌==◌};
ghost use Rattle.session_fence.specs.Sessions.{is_new};
ghost use Rattle.machine_laws.specs.Sessions.{is_that};
ghost use Rattle.session_fence.specs.States.{top_of, now_of, taken_of};

use wire_bytes::{Number, SessionId};

/// What is kept about the sessions with upstream.
#[derive(Clone, Copy)]
pub enum Session {
    /// None was opened.
    Never,
    /// The one with the greatest id is in force, and this many of its lines were taken.
    InForce(SessionId, Number),
    /// The one with the greatest id was shut.
    Over(SessionId),
}

impl Session {
    /// The session in force.
    pub fn now(self) -> Option<SessionId>
        ensures { result ≡ now_of self }
    {
        match self {
            Session::InForce(id, _) => Some(id),
            Session::Never | Session::Over(_) => None,
        }
    }

    /// Whether an id is above each one that was opened.
    pub fn is_new(self, id: SessionId) -> bool
        ensures { result ≡ is_new (top_of self) id }
    {
        match self {
            Session::Never => true,
            Session::InForce(top, _) | Session::Over(top) => id > top,
        }
    }

    /// Whether this is the session in force.
    pub fn is_now(self, id: SessionId) -> bool
        ensures { result ≡ is_that (now_of self) id }
    {
        match self {
            Session::InForce(now, _) => now == id,
            Session::Never | Session::Over(_) => false,
        }
    }

    /// Whether this is the number of the next line of the session in force, which has this id.
    pub fn is_next(self, id: SessionId, number: Number) -> bool
        ensures { result ≡ (is_that (now_of self) id && number == taken_of self + 1) }
    {
        match self {
            Session::InForce(now, taken) => { now == id && number.value() == taken.value() + 1 }
            Session::Never | Session::Over(_) => false,
        }
    }
}
