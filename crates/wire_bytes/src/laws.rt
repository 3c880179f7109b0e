ghost use Rattle.std.specs.Prelude.{◌≡◌, ◌≤◌, List, [], ◌++◌, ℕ, length, take, Ok, Err};
ghost use Rattle.wire_bytes.specs.declared.wire_fault.WireFault.{WireFault};
ghost use Rattle.std.specs.Ordering.{nat_cmp, ordering_then};
ghost use Rattle.wire_bytes.specs.Fields.{AreBytes};

use crate::origin::Origin;
use crate::session_id::SessionId;
use crate::wire::Wire;

/// No spelling begins another, and no two values have the same one.
pub fn none_begins_another<W: Wire>()
    ensures value { (a b : W) (rest : List ℕ) → W.fits a → W.fits b → W.spelled a
        ≡ W.spelled b ++ rest → a ≡ b }
    ensures rest { (a b : W) (rest : List ℕ) → W.fits a → W.fits b → W.spelled a
        ≡ W.spelled b ++ rest → rest ≡ [] }
{}

/// A value is read exactly where its spelling is a front of the input; a fault comes only where no front is a spelling.
pub fn the_front_is_read<W: Wire>()
    ensures only { (input : List ℕ) (v : W) (n : ℕ) → AreBytes input → W.taken input ≡ Ok (v, n)
        → W.fits v × (take n input ≡ W.spelled v) × (n ≤ length input) }
    ensures always { (input : List ℕ) (v : W) (n : ℕ) → W.fits v → take n input ≡ W.spelled v
        → W.taken input ≡ Ok (v, length (W.spelled v)) }
    ensures refused { (input : List ℕ) (v : W) (n : ℕ) (e : WireFault) → W.taken input ≡ Err e
        → W.fits v → ¬ (take n input ≡ W.spelled v) }
{}

/// Origins are ordered by node, then by run, then by number.
pub fn origins_are_ordered_by_node_first()
    ensures { (a b : Origin) → ⟦<Origin as Ord>⟧.cmp a b
        ≡ ordering_then (nat_cmp a.0 b.0) (ordering_then (nat_cmp a.1 b.1) (nat_cmp a.2 b.2)) }
{}

/// Sessions are ordered by term, then by attempt.
pub fn sessions_are_ordered_by_term_first()
    ensures { (a b : SessionId) → ⟦<SessionId as Ord>⟧.cmp a b
        ≡ ordering_then (nat_cmp a.0 b.0) (nat_cmp a.1 b.1) }
{}
