//! The numbers of a setup as bytes, the highest first.
ghost use Rattle.std.specs.Prelude.{◌≡◌, ◌≤◌, Ok};
ghost use Rattle.setup_spelling.specs.Spelling.{line_count, offset_minutes, query_count};
ghost use Rattle.buffer_commands.specs.Settings.{query_limit, size_limit};

use buffer_commands::{MOST_LINES, MOST_QUERIES};
use std::alloc::{AllocError, Global};
use std::marker::Model;
use wire_bytes::{Copied, Wire, WireFault, take_byte, take_u16};

/// How many lines a channel or a query keeps, at most 500: two bytes.
///
/// A clause sees it as the number.
#[derive(Clone, Copy, Debug, PartialEq, Eq)]
pub struct LineCount {
    lines: u16,
}

impl Model for LineCount {
    ghost use Rattle.std.specs.Prelude.{ℕ, ◌≤◌};
    ghost use Rattle.buffer_commands.specs.Settings.{size_limit};

    ghost Value = { ℕ };

    ghost view = { λ c. c.lines };

    ghost invariant = { λ c. c.lines ≤ size_limit };

    ghost inverse = { λ v. record { lines = v } };
}

impl LineCount {
    pub fn new(lines: u16) -> LineCount
        requires { lines ≤ size_limit }
        ensures { result ≡ lines }
    {
        LineCount { lines }
    }

    pub fn lines(self) -> u16
        ensures value { result ≡ self }
        ensures limit { self ≤ size_limit }
    {
        self.lines
    }
}

impl Copied for LineCount {
    fn copy(&self, _alloc: Global) -> Result<Self, AllocError>
        ensures { result ≡ Ok self.now }
    {
        Ok(*self)
    }
}

impl Wire for LineCount {
    ghost use Rattle.std.specs.Prelude.{◌≤◌};
    ghost use Rattle.setup_spelling.specs.Spelling.{line_count, spelled_short};
    ghost use Rattle.wire_bytes.specs.Wants.{never};
    ghost use Rattle.setup_spelling.specs.SetupCodec.{line_count_is_codec};
    ghost use Rattle.buffer_commands.specs.Settings.{size_limit};

    ghost spelled = { spelled_short };

    ghost fits = { λ n. n ≤ size_limit };

    ghost taken = { line_count };

    ghost wants = { never };

    #[tactic(auto, unfolding(crate::specs::Spelling::spelled_short))]
    fn put(&self, out: &mut Vec<u8>) -> Result<(), AllocError> {
        out.extend_from_slice(&self.lines.to_be_bytes())
    }

    #[tactic(auto, unfolding(crate::specs::Spelling::line_count))]
    fn take(_alloc: Global, input: &[u8]) -> Result<(Self, usize), WireFault> {
        let (lines, len) = take_u16(input, MOST_LINES)?;
        Ok((LineCount { lines }, len))
    }

    ghost is_codec = { line_count_is_codec };
}

/// How many queries there may be, 1 to 50: one byte.
///
/// A clause sees it as the number.
#[derive(Clone, Copy, Debug, PartialEq, Eq)]
pub struct QueryCount {
    queries: u8,
}

impl Model for QueryCount {
    ghost use Rattle.std.specs.Prelude.{ℕ, ◌≤◌};
    ghost use Rattle.buffer_commands.specs.Settings.{query_limit};

    ghost Value = { ℕ };

    ghost view = { λ c. c.queries };

    ghost invariant = { λ c. (1 ≤ c.queries) × (c.queries ≤ query_limit) };

    ghost inverse = { λ v. record { queries = v } };
}

impl QueryCount {
    pub fn new(queries: u8) -> QueryCount
        requires some { 1 ≤ queries }
        requires few { queries ≤ query_limit }
        ensures { result ≡ queries }
    {
        QueryCount { queries }
    }

    pub fn queries(self) -> u8
        ensures value { result ≡ self }
        ensures some { 1 ≤ self }
        ensures few { self ≤ query_limit }
    {
        self.queries
    }
}

impl Copied for QueryCount {
    fn copy(&self, _alloc: Global) -> Result<Self, AllocError>
        ensures { result ≡ Ok self.now }
    {
        Ok(*self)
    }
}

impl Wire for QueryCount {
    ghost use Rattle.std.specs.Prelude.{◌∷◌, [], ◌≤◌};
    ghost use Rattle.setup_spelling.specs.Spelling.{query_count};
    ghost use Rattle.wire_bytes.specs.Wants.{never};
    ghost use Rattle.wire_bytes.specs.FieldCodecs.{byte-codec};
    ghost use Rattle.buffer_commands.specs.Settings.{query_limit};

    ghost spelled = { λ n. n ∷ [] };

    ghost fits = { λ n. (1 ≤ n) × (n ≤ query_limit) };

    ghost taken = { query_count };

    ghost wants = { never };

    fn put(&self, out: &mut Vec<u8>) -> Result<(), AllocError> {
        Ok(out.push(self.queries)?)
    }

    fn take(_alloc: Global, input: &[u8]) -> Result<(Self, usize), WireFault> {
        let (queries, len) = take_byte(input, 1, MOST_QUERIES)?;
        Ok((QueryCount { queries }, len))
    }

    ghost is_codec = { byte-codec 1 query_limit };
}

/// How many minutes the clock is ahead of UTC, with 1,439 added, at most 2,878: two bytes.
///
/// A clause sees it as that number.
#[derive(Clone, Copy, Debug, PartialEq, Eq)]
pub struct OffsetMinutes {
    above_least: u16,
}

impl Model for OffsetMinutes {
    ghost use Rattle.std.specs.Prelude.{ℕ, ◌≤◌};

    ghost Value = { ℕ };

    ghost view = { λ o. o.above_least };

    ghost invariant = { λ o. o.above_least ≤ 2878 };

    ghost inverse = { λ v. record { above_least = v } };
}

impl OffsetMinutes {
    pub fn new(above_least: u16) -> OffsetMinutes
        requires { above_least ≤ 2878 }
        ensures { result ≡ above_least }
    {
        OffsetMinutes { above_least }
    }

    pub fn above_least(self) -> u16
        ensures value { result ≡ self }
        ensures limit { self ≤ 2878 }
    {
        self.above_least
    }
}

impl Copied for OffsetMinutes {
    fn copy(&self, _alloc: Global) -> Result<Self, AllocError>
        ensures { result ≡ Ok self.now }
    {
        Ok(*self)
    }
}

impl Wire for OffsetMinutes {
    ghost use Rattle.std.specs.Prelude.{◌≤◌};
    ghost use Rattle.setup_spelling.specs.Spelling.{offset_minutes, spelled_short};
    ghost use Rattle.wire_bytes.specs.Wants.{never};
    ghost use Rattle.setup_spelling.specs.SetupCodec.{offset_is_codec};

    ghost spelled = { spelled_short };

    ghost fits = { λ n. n ≤ 2878 };

    ghost taken = { offset_minutes };

    ghost wants = { never };

    #[tactic(auto, unfolding(crate::specs::Spelling::spelled_short))]
    fn put(&self, out: &mut Vec<u8>) -> Result<(), AllocError> {
        out.extend_from_slice(&self.above_least.to_be_bytes())
    }

    #[tactic(auto, unfolding(crate::specs::Spelling::offset_minutes))]
    fn take(_alloc: Global, input: &[u8]) -> Result<(Self, usize), WireFault> {
        let (above_least, len) = take_u16(input, 2878)?;
        Ok((OffsetMinutes { above_least }, len))
    }

    ghost is_codec = { offset_is_codec };
}
