ghost use Rattle.std.specs.Prelude.{◌≡◌, ◌<◌};

use std::marker::Model;

/// How many minutes the clock is ahead of UTC, from -1,439 to 1,439.
///
/// A clause sees it as that number and 1,439 more.
#[derive(Clone, Copy, Debug, PartialEq, Eq)]
pub struct Offset {
    above_least: u16,
}

impl Model for Offset {
    ghost use Rattle.std.specs.Prelude.{ℕ, ◌<◌};

    ghost Value = { ℕ };

    ghost view = { λ o. o.above_least };

    ghost invariant = { λ o. o.above_least < 2879 };

    ghost inverse = { λ n. record { above_least = n } };
}

impl Offset {
    /// The offset of this many minutes, to which 1,439 were added.
    pub fn new(above_least: u16) -> Offset
        requires { above_least < 2879 }
        ensures { result ≡ above_least }
    {
        Offset { above_least }
    }

    /// The minutes, with 1,439 added.
    pub fn above_least(self) -> u16
        ensures value { result ≡ self }
        ensures limit { self < 2879 }
    {
        self.above_least
    }
}

/// No offset: the clock shows UTC.
impl Default for Offset {
    ghost is_default = { λ o. o ≡ 1439 };

    fn default() -> Offset
        ensures { result ≡ 1439 }
    {
        Offset { above_least: 1439 }
    }
}
