//! Requests that are dropped, blanks and marks change nothing, and each line is handed out once.
ghost use Rattle.std.specs.Prelude.{◌≡◌, ◌≤◌, ℕ, map};
ghost use Rattle.machine_laws.specs.Runs.{History, all_effects};
ghost use Rattle.wire_bytes.specs.declared.origin.Origin.{Origin};
ghost use Rattle.request_once.specs.Fresh.{dones};
ghost use Rattle.buffer_commands.specs.Settings.{Settings};
ghost use Rattle.bouncer_tower.specs.Bodies.{TowerBody, answers, claimed, outgoing, plain, session};
ghost use Rattle.bouncer_tower.specs.Hosting.{handed_over};
ghost use Rattle.bouncer_tower.specs.Laws.{AddsItsHands, AreDifferent, AreInOrder, AreOf};
ghost use Rattle.bouncer_tower.specs.Laws.{HandsOutLines, HaveDifferentNumbers, IgnoresBlanksAndMarks};
ghost use Rattle.bouncer_tower.specs.Laws.{IgnoresDropped, KeepsNumbers};

/// A request that is not the next of its origin changes neither the commands of the buffers nor the session in force,
/// the lines for upstream or their claims, then or later: what follows it has the same outcome as without it.
pub fn a_dropped_request_changes_nothing()
    ensures plain { IgnoresDropped plain }
    ensures session { IgnoresDropped session }
    ensures outgoing { (s : Settings) → IgnoresDropped (outgoing s) }
    ensures claimed { (s : Settings) → IgnoresDropped (claimed s) }
{}

/// A blank or a mark changes none of these either, nor what any later body brings about.
pub fn a_blank_or_a_mark_changes_nothing()
    ensures plain { IgnoresBlanksAndMarks plain }
    ensures session { IgnoresBlanksAndMarks session }
    ensures outgoing { (s : Settings) → IgnoresBlanksAndMarks (outgoing s) }
    ensures claimed { (s : Settings) → IgnoresBlanksAndMarks (claimed s) }
    ensures answers { (s : Settings) (place : ℕ) (body : TowerBody)
        → IgnoresBlanksAndMarks (λ h. answers s h place body) }
{}

/// The claims that took effect have the numbers from 1 on, each once, and are for lines that were numbered. The lines
/// that a body hands out are those of the claims that it adds; each is the line of its number, which it keeps.
pub fn each_line_is_handed_once()
    ensures in_order { (s : Settings) (h : History TowerBody) → AreInOrder (claimed s h) }
    ensures once { (s : Settings) (h : History TowerBody) → AreDifferent (claimed s h) }
    ensures numbered { (s : Settings) (h : History TowerBody) → AreOf (outgoing s h) (claimed s h) }
    ensures claims { (s : Settings) (h : _) (place : ℕ) (body : TowerBody)
        → AddsItsHands s h place body }
    ensures lines { (s : Settings) (h : _) (place : ℕ) (body : TowerBody)
        → HandsOutLines s h place body }
    ensures stay { (s : Settings) (h : _) (place : ℕ) (body : TowerBody)
        → KeepsNumbers s h place body }
{}

/// Over a whole list of bodies, the lines that are handed out are those of the claims that took effect, in
/// order: no number is handed out twice.
#[tactic(auto, using(crate::proofs::Handed::all_hands_are_claims, crate::proofs::Handed::hands_differ))]
pub fn no_number_is_handed_out_twice()
    ensures claims { (s : Settings) (h : History TowerBody)
        → map (λ k. k.0) (handed_over s h) ≡ claimed s h }
    ensures once { (s : Settings) (h : History TowerBody) → HaveDifferentNumbers (handed_over s h) }
{}

/// Over a whole list of bodies, a request of one origin and number is answered `Done` at most once.
#[tactic(auto, using(request_once::proofs::Answered::done_once))]
pub fn each_request_is_done_once()
    ensures { (s : Settings) (h : History TowerBody) (origin : Origin) (number : ℕ)
        → dones origin number (all_effects (answers s) h) ≤ 1 }
{}
