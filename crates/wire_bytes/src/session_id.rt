ghost use Rattle.std.specs.Prelude.{◌≡◌, ℕ, ◌≤◌, Some, Ok};
ghost use Rattle.wire_bytes.specs.Limits.{number_limit};

use crate::copied::Copied;
use crate::number::Number;
use crate::wire::Wire;
use crate::wire_fault::WireFault;
use std::alloc::{AllocError, Global};
use std::fmt;
use std::marker::Model;

/// A session with the server: the term in which it was opened, and the attempt within that term.
///
/// A clause sees it as the two numbers; the order is by term first.
#[derive(Clone, Copy, Debug, PartialEq, Eq, PartialOrd, Ord)]
pub struct SessionId {
    term: u64,
    attempt: u64,
}

impl Model for SessionId {
    ghost use Rattle.std.specs.Prelude.{ℕ, ◌≤◌};
    ghost use Rattle.wire_bytes.specs.Limits.{number_limit};

    ghost Value = { ℕ × ℕ };

    ghost view = { λ s. (s.term, s.attempt) };

    ghost invariant = { λ s. (s.term ≤ number_limit) × (s.attempt ≤ number_limit) };

    ghost inverse = { λ v. record { term = v.0; attempt = v.1 } };
}

impl SessionId {
    pub fn new(term: u64, attempt: u64) -> SessionId
        requires { (term ≤ number_limit) × (attempt ≤ number_limit) }
        ensures { result ≡ (term, attempt) }
    {
        SessionId { term, attempt }
    }

    pub fn term(self) -> u64
        ensures value { result ≡ self.0 }
        ensures limit { self.0 ≤ number_limit }
    {
        self.term
    }

    pub fn attempt(self) -> u64
        ensures value { result ≡ self.1 }
        ensures limit { self.1 ≤ number_limit }
    {
        self.attempt
    }
}

impl Copied for SessionId {
    fn copy(&self, _alloc: Global) -> Result<Self, AllocError>
        ensures { result ≡ Ok self.now }
    {
        Ok(*self)
    }
}

impl Wire for SessionId {
    ghost use Rattle.wire_bytes.specs.Values.{spelled_session, FitsSession, session};
    ghost use Rattle.wire_bytes.specs.Wants.{never};
    ghost use Rattle.wire_bytes.specs.ValueCodecs.{session_is_codec};

    ghost spelled = { spelled_session };

    ghost fits = { FitsSession };

    ghost taken = { session };

    ghost wants = { never };

    #[tactic(auto, unfolding(crate::specs::Values::spelled_session))]
    fn put(&self, out: &mut Vec<u8>) -> Result<(), AllocError> {
        (Number::new(self.term), Number::new(self.attempt)).put(out)
    }

    #[tactic(auto, unfolding(crate::specs::Values::session))]
    fn take(alloc: Global, input: &[u8]) -> Result<(Self, usize), WireFault> {
        let ((term, attempt), len) = <(Number, Number)>::take(alloc, input)?;
        Ok((SessionId::new(term.value(), attempt.value()), len))
    }

    ghost is_codec = { session_is_codec };
}

impl fmt::Display for SessionId {
    ghost use Rattle.std.specs.Prelude.{Some};
    ghost use Rattle.wire_bytes.specs.Texts.{session_text};

    ghost output = { λ s. Some (session_text s) };

    fn fmt<W: fmt::Write>(&self, f: &mut fmt::Formatter<W>) -> fmt::Result {
        let SessionId { term, attempt } = *self;
        write!(f, "{term}.{attempt}")
    }
}
