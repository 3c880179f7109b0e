//! Each line is claimed once.
ghost use Rattle.std.specs.Prelude.{◌≡◌, ◌≤◌, ◌+◌, ◌-◌, ◌∷◌, ◌++◌, ℕ, length, map, slice_get, take, Some};
ghost use Rattle.irc_line.specs.Lines.{Parts};
ghost use Rattle.machine_laws.specs.Runs.{History};
ghost use Rattle.wire_bytes.specs.declared.session_id.SessionId.{SessionId};
ghost use Rattle.upstream_claim.specs.Hands.{handed_over, hands};
ghost use Rattle.upstream_claim.specs.Numbered.{answers, claimed, outgoing};
ghost use Rattle.upstream_claim.specs.Numbered.{waiting_limit};

use crate::command::ClaimsCommand;
use machine_laws::HasSession;

/// The claims that took effect have the numbers from 1 on, in order and each once, and each is for a line that was
/// numbered; at most 1,000 lines wait.
#[tactic(auto, using(crate::proofs::Sound::claims_in_order, crate::proofs::Sound::claims_once, crate::proofs::Sound::claims_numbered, crate::proofs::Sound::few_wait))]
pub fn each_line_is_claimed_once<M: HasSession>()
    ensures in_order { (s : M.Setup) (h : History (ClaimsCommand M.Command)) (i n : ℕ)
        (id : SessionId)
        → slice_get (claimed M.session M.sends (M.effects s) h) i ≡ Some (n, id) → n ≡ i + 1 }
    ensures once { (s : M.Setup) (h : History (ClaimsCommand M.Command)) (i j n : ℕ)
        (one other : SessionId)
        → slice_get (claimed M.session M.sends (M.effects s) h) i ≡ Some (n, one)
        → slice_get (claimed M.session M.sends (M.effects s) h) j ≡ Some (n, other) → i ≡ j }
    ensures numbered { (s : M.Setup) (h : History (ClaimsCommand M.Command)) (i n : ℕ)
        (id : SessionId)
        → slice_get (claimed M.session M.sends (M.effects s) h) i ≡ Some (n, id)
        → (1 ≤ n) × (n ≤ length (outgoing M.session M.sends (M.effects s) h)) }
    ensures waiting { (s : M.Setup) (h : History (ClaimsCommand M.Command))
        → length (outgoing M.session M.sends (M.effects s) h) ≤ length (claimed M.session M.sends
        (M.effects s) h) + waiting_limit }
{}

/// The lines that a command hands out are those of the claims that it adds, in order; each is the line of its number. A
/// line that was numbered keeps its number.
#[tactic(auto, using(crate::proofs::Handing::hands_are_claims, crate::proofs::Handing::hands_are_lines, crate::proofs::Handing::lines_stay))]
pub fn each_hand_is_a_claim<M: HasSession>()
    ensures claims { (s : M.Setup) (h : History (ClaimsCommand M.Command)) (place : ℕ)
        (x : ClaimsCommand M.Command)
        → claimed M.session M.sends (M.effects s) ((place, x) ∷ h)
        ≡ claimed M.session M.sends (M.effects s) h ++ map (λ k. k.0) (hands
        (answers M.session M.sends (M.effects s) h place x)) }
    ensures lines { (s : M.Setup) (h : History (ClaimsCommand M.Command)) (place : ℕ)
        (x : ClaimsCommand M.Command) (i n : ℕ) (id : SessionId) (line : Parts)
        → slice_get (hands (answers M.session M.sends (M.effects s) h place x)) i
        ≡ Some ((n, id), line) → slice_get (outgoing M.session M.sends (M.effects s) h) (n - 1)
        ≡ Some line }
    ensures stay { (s : M.Setup) (h : History (ClaimsCommand M.Command)) (place : ℕ)
        (x : ClaimsCommand M.Command)
        → take (length (outgoing M.session M.sends (M.effects s) h)) (outgoing M.session M.sends
        (M.effects s) ((place, x)
        ∷ h)) ≡ outgoing M.session M.sends (M.effects s) h }
{}

/// Over a whole list, the lines that are handed out are those of the claims that took effect, in order: no number is
/// handed out twice.
#[tactic(auto, using(crate::proofs::Handing::all_hands_are_claims, crate::proofs::Handing::hands_differ))]
pub fn no_number_is_handed_out_twice<M: HasSession>()
    ensures claims { (s : M.Setup) (h : History (ClaimsCommand M.Command))
        → map (λ k. k.0) (handed_over M.session M.sends (M.effects s) h)
        ≡ claimed M.session M.sends (M.effects s) h }
    ensures once { (s : M.Setup) (h : History (ClaimsCommand M.Command)) (i j n : ℕ)
        (one other : SessionId) (line another : Parts)
        → slice_get (handed_over M.session M.sends (M.effects s) h) i ≡ Some ((n, one), line)
        → slice_get (handed_over M.session M.sends (M.effects s) h) j ≡ Some ((n, other), another)
        → i ≡ j }
{}
