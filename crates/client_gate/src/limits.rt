//! The limit of a gate, as a number, as the contract of a function that does nothing.
ghost use Rattle.std.specs.Prelude.{◌≡◌};
ghost use Rattle.client_gate.specs.declared.turn.TheConstants.{MOST_WAITING};

/// How many requests may wait.
pub fn limit_of_requests()
    ensures waiting { MOST_WAITING ≡ 100 }
{}
