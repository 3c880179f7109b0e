//! The laws of a store.
ghost use Rattle.std.specs.Prelude.{◌≡◌, ◌↔◌, IfOk, IfErr, OnOk, OnErr};
ghost use Rattle.stable_store.specs.declared.saved.Saved.{Saved};
ghost use Rattle.stable_store.specs.Stores.{Condition, IsAllowed, IsHonest, MayBecome, Serves};
ghost use Rattle.stable_store.specs.Stores.{IsDone, MayFollow, MayStandAfter, MayStandStill};

use crate::change::Change;
use crate::saved::Saved;
use crate::store_fault::StoreFault;
use wire_bytes::Wire;

/// A store for what a node keeps over a restart.
///
/// Its laws hold if its device is honest. A `save` that returns an error may have been done or not, and nobody knows
/// which until `again` or a `save` returns Ok: until then the store may hold more than one state, and it may return
/// `Device`.
pub trait Stable<B: Wire>: Drop {
    /// What the store holds, as far as it knows: the changes that were saved, one after the other.
    ghost saved: { Self → Saved B };

    /// What the store may hold, if its device were read again.
    ghost may_stand: { Self → Saved B → Type 0 };

    /// Whether its device is honest, which no call changes; whether there was an error that nothing has mended; and how
    /// many calls of the device failed, a count that stays at the greatest u64.
    ghost condition: { Self → Condition };

    /// What the store holds.
    fn read(&self) -> Result<Saved<B>, StoreFault>
        ensures ok { IsHonest (condition self.now) → IfOk result (λ s. s ≡ saved self.now) }
        ensures sure { IsHonest (condition self.now) → OnOk result (Serves (condition self.now)) }
        ensures fault { IfErr result (IsAllowed (condition self.now) (condition self.now)) };

    /// Saves a change. After Ok the store holds it; after an error the store may hold what it may have held before, or
    /// the change.
    fn save(&mut self, change: &Change<B>) -> Result<(), StoreFault>
        requires { Serves (condition self.old) → MayFollow (saved self.old) change.now }
        ensures ok { IsHonest (condition self.old)
            → OnOk result (IsDone (may_stand self.old) change.now (saved self.new)) }
        ensures err { IsHonest (condition self.old)
            → OnErr result (saved self.new ≡ saved self.old) }
        ensures stands { IsHonest (condition self.old)
            → MayStandAfter (may_stand self.old) change.now (may_stand self.new) }
        ensures fault { IfErr result (IsAllowed (condition self.old) (condition self.new)) }
        ensures condition { MayBecome result (condition self.old) (condition self.new) };

    /// Makes the store usable again after an error, from what the device holds. After Ok it is known which of the
    /// possible states it holds; after an error all of them are still possible.
    fn again(&mut self) -> Result<(), StoreFault>
        ensures ok { IsHonest (condition self.old)
            → OnOk result (may_stand self.old (saved self.new)) }
        ensures err { IsHonest (condition self.old)
            → OnErr result (saved self.new ≡ saved self.old) }
        ensures stands { IsHonest (condition self.old)
            → MayStandStill (may_stand self.old) (may_stand self.new) }
        ensures fault { IfErr result (IsAllowed (condition self.old) (condition self.new)) }
        ensures condition { MayBecome result (condition self.old) (condition self.new) };

    /// How many calls of the device failed.
    fn failures(&self) -> u64
        ensures { result ≡ (condition self.now).failures };

    /// If nothing is to be mended, it is known what the store holds.
    ghost sure: { (s : Self) (v : Saved B) → Serves (condition s)
        → may_stand s v ↔ (v ≡ saved s) };
}
