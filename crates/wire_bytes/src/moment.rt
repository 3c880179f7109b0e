ghost use Rattle.std.specs.Prelude.{IfOk, IfErr, Ok, Err, ◌≡◌, ℕ, ◌≤◌, Some};
ghost use Rattle.wire_bytes.specs.Limits.{second_limit};
ghost use Rattle.wire_bytes.specs.Values.{moment};

use crate::copied::Copied;
use crate::fields::take_u64;
use crate::limits::LAST_SECOND;
use crate::wire::Wire;
use crate::wire_fault::WireFault;
use std::alloc::{AllocError, Global};
use std::fmt;
use std::marker::Model;

/// Whole seconds since 1970 in UTC, at most `LAST_SECOND`.
///
/// A clause sees it as the number of seconds.
#[derive(Clone, Copy, Debug, PartialEq, Eq, PartialOrd, Ord)]
pub struct Moment {
    seconds: u64,
}

impl Model for Moment {
    ghost use Rattle.std.specs.Prelude.{ℕ, ◌≤◌};
    ghost use Rattle.wire_bytes.specs.Limits.{second_limit};

    ghost Value = { ℕ };

    ghost view = { λ m. m.seconds };

    ghost invariant = { λ m. m.seconds ≤ second_limit };

    ghost inverse = { λ v. record { seconds = v } };
}

impl Moment {
    pub fn new(seconds: u64) -> Moment
        requires { seconds ≤ second_limit }
        ensures { result ≡ seconds }
    {
        Moment { seconds }
    }

    pub fn seconds(self) -> u64
        ensures value { result ≡ self }
        ensures limit { self ≤ second_limit }
    {
        self.seconds
    }
}

impl Copied for Moment {
    fn copy(&self, _alloc: Global) -> Result<Self, AllocError>
        ensures { result ≡ Ok self.now }
    {
        Ok(*self)
    }
}

impl Wire for Moment {
    ghost use Rattle.wire_bytes.specs.Values.{spelled_number, FitsMoment, moment};
    ghost use Rattle.wire_bytes.specs.Wants.{never};
    ghost use Rattle.wire_bytes.specs.ValueCodecs.{moment_is_codec};

    ghost spelled = { spelled_number };

    ghost fits = { FitsMoment };

    ghost taken = { moment };

    ghost wants = { never };

    #[tactic(auto, unfolding(crate::specs::Values::spelled_number))]
    fn put(&self, out: &mut Vec<u8>) -> Result<(), AllocError> {
        out.extend_from_slice(&self.seconds.to_be_bytes())
    }

    #[tactic(auto, unfolding(crate::specs::Values::moment))]
    fn take(_alloc: Global, input: &[u8]) -> Result<(Self, usize), WireFault> {
        let (seconds, len) = take_u64(input, LAST_SECOND)?;
        Ok((Moment { seconds }, len))
    }

    ghost is_codec = { moment_is_codec };
}

impl fmt::Display for Moment {
    ghost use Rattle.std.specs.Prelude.{Some};
    ghost use Rattle.std.specs.Fmt.{decimal};

    ghost output = { λ m. Some (decimal m) };

    fn fmt<W: fmt::Write>(&self, f: &mut fmt::Formatter<W>) -> fmt::Result {
        let seconds = self.seconds;
        write!(f, "{seconds}")
    }
}
