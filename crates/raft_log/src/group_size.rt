ghost use Rattle.std.specs.Prelude.{◌≡◌, ◌≢◌, IfSome, IsSome, ◌↔◌, Some, None};
ghost use Rattle.raft_log.specs.Peers.{IsGroupSize};

use std::marker::Model;

/// How many nodes a group has: 3, 5 or 7.
///
/// A clause sees it as the number.
#[derive(Clone, Copy, Debug, PartialEq, Eq)]
pub struct GroupSize {
    value: u8,
}

impl Model for GroupSize {
    ghost use Rattle.std.specs.Prelude.{ℕ};
    ghost use Rattle.raft_log.specs.Peers.{IsGroupSize};

    ghost Value = { ℕ };

    ghost view = { λ n. n.value };

    ghost invariant = { λ n. IsGroupSize n.value };

    ghost inverse = { λ v. record { value = v } };
}

impl GroupSize {
    /// This size, if a group may have it.
    pub fn new(value: u8) -> Option<GroupSize>
        ensures value { IfSome result (λ size. size ≡ value) }
        ensures allowed { IsSome result ↔ IsGroupSize value }
    {
        if value == 3 || value == 5 || value == 7 {
            Some(GroupSize { value })
        } else {
            None
        }
    }

    pub fn value(self) -> u8
        ensures value { result ≡ self }
        ensures limits { IsGroupSize self }
    {
        self.value
    }
}
