//! What holds of every history.
ghost use Rattle.std.specs.Prelude.{◌≡◌, ◌+◌, ◌++◌, ◌∷◌, [], ℕ, List, length};
ghost use Rattle.machine_laws.specs.Runs.{History, came};

/// Commands that come one after the other come to one history; the last has the last place and is at the newest end.
#[tactic(auto, using(crate::proofs::Come::came_append, crate::proofs::Come::came_one_more))]
pub fn commands_come_one_behind_the_other<C>()
    ensures parts { (place : ℕ) (xs ys : List C) (earlier : History C)
        → came place (xs ++ ys) earlier ≡ came (place + length xs) ys (came place xs earlier) }
    ensures last { (place : ℕ) (xs : List C) (x : C) (earlier : History C)
        → came place (xs ++ x ∷ []) earlier ≡ (place + length xs, x) ∷ came place xs earlier }
{}
