//! The next line to be claimed, while a list of bodies is folded.
ghost use Rattle.std.specs.Prelude.{◌≡◌, ℕ, Option};
ghost use Rattle.machine_laws.specs.Runs.{After, History};
ghost use Rattle.bouncer_tower.specs.Bodies.{within_limit};

use bouncer_tower::Layers;
use machine_laws::Machine;
use wire_bytes::LAST_NUMBER;

/// A machine that knows the next line to be claimed.
pub trait Claiming: Machine {
    /// The number of the next line to be claimed after a history.
    ghost next_claim: { Self.Setup → History Self.Command → Option ℕ };

    /// Allocates nothing.
    fn next_claim(&self) -> Option<u64>
        ensures { After (Self.stands self.now) (λ s earlier. result ≡ next_claim s earlier) };
}

impl Claiming for Layers {
    ghost use Rattle.bouncer_tower.specs.Bodies.{next_claim};

    ghost next_claim = { next_claim };

    fn next_claim(&self) -> Option<u64> {
        within_limit(self.machine().next_claim())
    }
}

/// A number, if a claim may have it.
fn within_limit(number: Option<u64>) -> Option<u64>
    ensures { result ≡ within_limit number }
{
    match number {
        Some(number) if number <= LAST_NUMBER => Some(number),
        _ => None,
    }
}
