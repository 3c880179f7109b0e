ghost use Rattle.std.specs.Prelude.{IfOk, IfErr, Ok, Err, ◌≡◌, ℕ, ◌≤◌, Some};
ghost use Rattle.wire_bytes.specs.Values.{number};
ghost use Rattle.wire_bytes.specs.Limits.{number_limit};

use crate::copied::Copied;
use crate::fields::take_u64;
use crate::limits::LAST_NUMBER;
use crate::wire::Wire;
use crate::wire_fault::WireFault;
use std::alloc::{AllocError, Global};
use std::fmt;
use std::marker::Model;

/// A number of a request, a floor or a sequence, at most 2^60.
///
/// A clause sees it as the number.
#[derive(Clone, Copy, Debug, PartialEq, Eq, PartialOrd, Ord)]
pub struct Number {
    value: u64,
}

impl Model for Number {
    ghost use Rattle.std.specs.Prelude.{ℕ, ◌≤◌};
    ghost use Rattle.wire_bytes.specs.Limits.{number_limit};

    ghost Value = { ℕ };

    ghost view = { λ n. n.value };

    ghost invariant = { λ n. n.value ≤ number_limit };

    ghost inverse = { λ v. record { value = v } };
}

impl Number {
    pub fn new(value: u64) -> Number
        requires { value ≤ number_limit }
        ensures { result ≡ value }
    {
        Number { value }
    }

    pub fn value(self) -> u64
        ensures value { result ≡ self }
        ensures limit { self ≤ number_limit }
    {
        self.value
    }
}

impl Copied for Number {
    fn copy(&self, _alloc: Global) -> Result<Self, AllocError>
        ensures { result ≡ Ok self.now }
    {
        Ok(*self)
    }
}

impl Wire for Number {
    ghost use Rattle.wire_bytes.specs.Values.{spelled_number, FitsNumber, number};
    ghost use Rattle.wire_bytes.specs.Wants.{never};
    ghost use Rattle.wire_bytes.specs.ValueCodecs.{number_is_codec};

    ghost spelled = { spelled_number };

    ghost fits = { FitsNumber };

    ghost taken = { number };

    ghost wants = { never };

    #[tactic(auto, unfolding(crate::specs::Values::spelled_number))]
    fn put(&self, out: &mut Vec<u8>) -> Result<(), AllocError> {
        out.extend_from_slice(&self.value.to_be_bytes())
    }

    #[tactic(auto, unfolding(crate::specs::Values::number))]
    fn take(_alloc: Global, input: &[u8]) -> Result<(Self, usize), WireFault> {
        let (value, len) = take_u64(input, LAST_NUMBER)?;
        Ok((Number { value }, len))
    }

    ghost is_codec = { number_is_codec };
}

impl fmt::Display for Number {
    ghost use Rattle.std.specs.Prelude.{Some};
    ghost use Rattle.std.specs.Fmt.{decimal};

    ghost output = { λ n. Some (decimal n) };

    fn fmt<W: fmt::Write>(&self, f: &mut fmt::Formatter<W>) -> fmt::Result {
        let value = self.value;
        write!(f, "{value}")
    }
}
