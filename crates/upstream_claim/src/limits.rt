//! The limit on the lines that wait, as a number, as the contract of a function that does nothing.
ghost use Rattle.std.specs.Prelude.{◌≡◌};
ghost use Rattle.upstream_claim.specs.declared.unclaimed.TheConstants.{MOST_LINES};

/// How many lines may wait to be claimed.
pub fn limit_of_lines()
    ensures { MOST_LINES ≡ 1000 }
{}
