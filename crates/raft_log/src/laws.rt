//! What holds of a repair, by the comparison of entries, and of the runs of a log.
ghost use Rattle.std.specs.Prelude.{ℕ, List, ◌≡◌, ◌∷◌};
ghost use Rattle.raft_log.specs.declared.entry.Entry.{Entry};
ghost use Rattle.raft_log.specs.Laws.{AddsMissing, CutsFirstConflict, KeepsBeforeConflict};
ghost use Rattle.raft_log.specs.Runs.{Alternate, runs_of};

use wire_bytes::Wire;

/// If no entry conflicts with the log, the missing ones are added and nothing else changes.
pub fn what_does_not_conflict_is_added<B: Wire>()
    ensures { (log : List (Entry B)) (prev : ℕ) (es : List (Entry B)) → AddsMissing log prev es }
{}

/// The first entry that conflicts, with this many before it, is removed with all that follow it, and the rest of the
/// entries takes their place.
pub fn the_first_conflict_cuts<B: Wire>()
    ensures { (log : List (Entry B)) (prev k : ℕ) (es : _) → CutsFirstConflict log prev k es }
{}

/// The log up to an index is unchanged, if no entry conflicts up to it.
pub fn what_stands_before_a_conflict_is_kept<B: Wire>()
    ensures { (log : List (Entry B)) (prev k : ℕ) (es : _) → KeepsBeforeConflict log prev k es }
{}

/// The first run of a log begins at index 1, and each other one after the one before it, in another term.
pub fn runs_are_where_the_term_changes<B: Wire>()
    ensures first { (log : List (Entry B)) (r : _) (rs : _) → runs_of log ≡ r ∷ rs → r.first ≡ 1 }
    ensures others { (log : List (Entry B)) → Alternate (runs_of log) }
{}
