//! What a reader can check the definitions of what names have seen against, as contracts of functions that do nothing.
ghost use Rattle.std.specs.Prelude.{◌≡◌, ◌≤◌, ◌&&◌, ◌∷◌, [], ℕ, List, Some, drop, length, true, false};
ghost use Rattle.irc_line.specs.Names.{is_channel};
ghost use Rattle.wire_bytes.specs.declared.origin.Origin.{Origin};
ghost use Rattle.buffer_commands.specs.Settings.{Settings};
ghost use Rattle.buffer_commands.specs.declared.command.Action.TheVariants.{Attach};
ghost use Rattle.buffer_commands.specs.declared.command.Command.{Command};
ghost use Rattle.buffer_commands.specs.declared.command.Command.TheVariants.{Client};
ghost use Rattle.buffer_machine.specs.Before.{attached_before, closings_before, effects_before, emptied_before, is_unnamed, shown_before, stored_before, stored_query_before};
ghost use Rattle.buffer_machine.specs.Crowd.{attached, floor, holds, ids, is_id_in, takes};
ghost use Rattle.buffer_machine.specs.Buffers.{detached, emptied, is_known, kept, stored, stored_query};
ghost use Rattle.buffer_machine.specs.Effects.{closings, effects, shown};
ghost use Rattle.buffer_machine.specs.Marks.{mark, seen, unseen};
ghost use Rattle.buffer_targets.specs.Targets.{readers};

/// If no client ever gives a name, no name is known and none has seen anything; who is attached, what is stored, what
/// is emptied and what each command brings about are as they were before clients could give one.
#[tactic(auto, using(crate::proofs::Unnamed::no_ids, crate::proofs::Unnamed::no_mark, crate::proofs::Unnamed::attached_was, crate::proofs::Unnamed::stored_was, crate::proofs::Unnamed::stored_query_was, crate::proofs::Unnamed::emptied_was, crate::proofs::UnnamedEffects::closings_was, crate::proofs::UnnamedEffects::shown_was, crate::proofs::UnnamedEffects::effects_was))]
pub fn without_names_all_is_as_before()
    ensures ids { (s : Settings) (history : List Command) → is_unnamed history ≡ true
        → ids s history ≡ [] }
    ensures mark { (s : Settings) (history : List Command) (id t : List ℕ)
        → is_unnamed history ≡ true → mark s id t history ≡ 0 }
    ensures attached { (s : Settings) (x : Command) (earlier : List Command)
        → is_unnamed (x ∷ earlier) ≡ true → attached s (x ∷ earlier) ≡
        attached_before s.many_clients (floor earlier) (attached s earlier) x }
    ensures stored { (s : Settings) (x : Command) (earlier : List Command) (t : List ℕ)
        → is_unnamed (x ∷ earlier) ≡ true → stored s t earlier x ≡ stored_before s t earlier x }
    ensures stored_query { (s : Settings) (x : Command) (earlier : List Command)
        → is_unnamed (x ∷ earlier) ≡ true
        → stored_query s earlier x ≡ stored_query_before s earlier x }
    ensures emptied { (s : Settings) (x : Command) (earlier : List Command) (t : List ℕ)
        → is_unnamed (x ∷ earlier) ≡ true → emptied s t earlier x ≡ emptied_before s t earlier x }
    ensures closings { (s : Settings) (x : Command) (earlier : List Command)
        → is_unnamed (x ∷ earlier) ≡ true → closings s earlier x ≡ closings_before s earlier x }
    ensures shown { (s : Settings) (x : Command) (earlier : List Command)
        → is_unnamed (x ∷ earlier) ≡ true → shown s earlier x ≡ shown_before s earlier x }
    ensures effects { (s : Settings) (x : Command) (earlier : List Command)
        → is_unnamed (x ∷ earlier) ≡ true → effects s earlier x ≡ effects_before s earlier x }
{}

/// At most 64 names are known, and none is forgotten.
#[tactic(auto, using(crate::proofs::NameCount::few_ids, crate::proofs::NameCount::id_stays))]
pub fn no_more_than_64_names_are_known()
    ensures few { (s : Settings) (history : List Command) → length (ids s history) ≤ readers }
    ensures stays { (s : Settings) (x : Command) (earlier : List Command) (id : List ℕ)
        → is_id_in id (ids s earlier) ≡ true → is_id_in id (ids s (x ∷ earlier)) ≡ true }
{}

/// The name of an attached client has seen all of a target after the next command, unless the target is a detached
/// channel; and a name by which a client attaches has seen all that there is at that time.
#[tactic(auto, using(crate::proofs::Placing::was_there, crate::proofs::Placing::comes_now))]
pub fn who_was_there_is_played_nothing()
    ensures was { (s : Settings) (earlier : List Command) (x : Command) (id t : List ℕ)
        → holds s earlier id ≡ true → (is_channel t && detached s earlier t) ≡ false
        → unseen s (x ∷ earlier) id t ≡ [] }
    ensures comes { (s : Settings) (earlier : List Command) (o : Origin) (at : ℕ)
        (id t : List ℕ) → takes s earlier (Client o at (Attach (Some id))) ≡ true
        → is_known s earlier t ≡ true → (is_channel t && detached s earlier t) ≡ false
        → unseen s (Client o at (Attach (Some id)) ∷ earlier) id t ≡ [] }
{}

/// What a name has not seen are the kept lines after those that it has seen.
#[tactic(auto, using(crate::proofs::Placing::unseen_behind))]
pub fn what_is_seen_begins_what_is_kept()
    ensures { (s : Settings) (history : List Command) (id t : List ℕ)
        → unseen s history id t ≡ drop (seen s history id t) (kept s history t) }
{}

/// A client that attaches by a name empties nothing: each target keeps what it kept.
#[tactic(auto, using(crate::proofs::UnnamedEffects::named_empties, crate::proofs::UnnamedEffects::named_keeps))]
pub fn attaching_by_a_name_empties_nothing()
    ensures emptied { (s : Settings) (earlier : List Command) (o : Origin) (at : ℕ)
        (id t : List ℕ) → emptied s t earlier (Client o at (Attach (Some id))) ≡ false }
    ensures kept { (s : Settings) (earlier : List Command) (o : Origin) (at : ℕ)
        (id t : List ℕ) → kept s (Client o at (Attach (Some id)) ∷ earlier) t ≡ kept s earlier t }
{}
