//! The limits of a body, of a moment, of a number and of a node.
ghost use Rattle.std.specs.Prelude.{◌≡◌};
ghost use Rattle.wire_bytes.specs.declared.limits.TheConstants.{LAST_NUMBER, MOST_NODES};
ghost use Rattle.wire_bytes.specs.Limits.{body_limit, node_limit, number_limit, second_limit};

/// The most bytes of the spelling of a body of the log.
// a body holds one line and what goes with it, well below this
pub const BODY_LIMIT: usize = 65_536;

/// The last second that a moment may be, since 1970 in UTC.
// its year has four digits, as log files write it: the year 9999 ends with second 253,402,300,799
pub const LAST_SECOND: u64 = 250_000_000_000;

/// The last number of a request, a floor, a run, a term, an attempt or a sequence.
// a program that counts a million a second reaches it in 36,000 years, and its sums stay within 64 bits
pub const LAST_NUMBER: u64 = 1 << 60;

/// The most nodes, which are numbered from 1.
// of seven, three may be down
pub const MOST_NODES: u8 = 7;

/// The limits by number, as the contract of a function that does nothing. The last second lies in the year 9892.
pub fn limits_of_values()
    ensures body { body_limit ≡ 65536 }
    ensures second { second_limit ≡ 250000000000 }
    ensures number { LAST_NUMBER ≡ number_limit }
    ensures nodes { MOST_NODES ≡ node_limit }
{}
