//! Each request takes effect once.
ghost use Rattle.std.specs.Prelude.{◌≡◌, ◌≤◌, ◌++◌, ◌∷◌, ℕ, false, true};
ghost use Rattle.machine_laws.specs.Runs.{History, all_effects};
ghost use Rattle.wire_bytes.specs.declared.origin.Origin.{Origin};
ghost use Rattle.request_once.specs.Fresh.{answers, dones, fresh, is_blank_or_mark, last, plain, stays, times};

use crate::body::Body;
use machine_laws::HasClients;

/// No two of the requests that stay have the same origin and number. One that does not stay changes nothing, then or
/// later: what follows it gives the same commands as without it.
#[tactic(auto, using(crate::proofs::Stays::stays_once, crate::proofs::Stays::plain_without))]
pub fn each_request_takes_effect_once<M: HasClients>()
    ensures once { (bodies : History (Body M.Command M.Action)) (origin : Origin) (number : ℕ)
        → times origin number (fresh bodies) ≤ 1 }
    ensures dropped { (later earlier : History (Body M.Command M.Action)) (place : ℕ)
        (origin : Origin)
        (number at : ℕ) (action : M.Action)
        → stays (fresh earlier) (Body.Asked origin number at action) ≡ false
        → plain M.client (later ++ (place, Body.Asked origin number at action) ∷ earlier)
        ≡ plain M.client (later ++ earlier) }
{}

/// A blank or a mark changes neither the commands below nor the number of any origin's last request, then or later, nor
/// how any later body is answered.
#[tactic(auto, using(crate::proofs::Stays::same_commands, crate::proofs::Stays::same_last, crate::proofs::Stays::same_answers))]
pub fn a_blank_or_a_mark_changes_nothing<M: HasClients>()
    ensures commands { (later earlier : History (Body M.Command M.Action)) (place : ℕ)
        (body : Body M.Command M.Action) → is_blank_or_mark body ≡ true
        → plain M.client (later ++ (place, body) ∷ earlier) ≡ plain M.client (later ++ earlier) }
    ensures numbers { (later earlier : History (Body M.Command M.Action)) (place : ℕ)
        (body : Body M.Command M.Action) → is_blank_or_mark body ≡ true → (origin : Origin)
        → last (later ++ (place, body) ∷ earlier) origin ≡ last (later ++ earlier) origin }
    ensures answers { (s : M.Setup) (later earlier : History (Body M.Command M.Action)) (place : ℕ)
        (body : Body M.Command M.Action) → is_blank_or_mark body ≡ true → (at : ℕ)
        (other : Body M.Command M.Action)
        → answers M.client (M.effects s) (later ++ (place, body) ∷ earlier) at other
        ≡ answers M.client (M.effects s) (later ++ earlier) at other }
{}

/// Over a whole list, the requests of an origin and number are answered `Done` as often as they stay: at most once.
#[tactic(auto, using(crate::proofs::Answered::dones_stay, crate::proofs::Answered::done_once))]
pub fn each_request_is_done_once<M: HasClients>()
    ensures stay { (s : M.Setup) (h : History (Body M.Command M.Action)) (origin : Origin)
        (number : ℕ)
        → dones origin number (all_effects (answers M.client (M.effects s)) h)
        ≡ times origin number (fresh h) }
    ensures once { (s : M.Setup) (h : History (Body M.Command M.Action)) (origin : Origin)
        (number : ℕ)
        → dones origin number (all_effects (answers M.client (M.effects s)) h) ≤ 1 }
{}
