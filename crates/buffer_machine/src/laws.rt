//! What a reader can check the definitions of the buffers against, as contracts of functions that do nothing.
ghost use Rattle.std.specs.Prelude.{◌≡◌, ◌≤◌, ◌&&◌, ◌∷◌, [], ℕ, List, length, true, false};
ghost use Rattle.irc_line.specs.Names.{fold_name, is_channel};
ghost use Rattle.irc_line.specs.Keys.{is_in};
ghost use Rattle.irc_line.specs.Lines.{Parts};
ghost use Rattle.wire_bytes.specs.declared.origin.Origin.{Origin};
ghost use Rattle.buffer_commands.specs.Settings.{Settings};
ghost use Rattle.buffer_commands.specs.declared.command.Action.{Action};
ghost use Rattle.buffer_commands.specs.declared.command.Action.TheVariants.{Say};
ghost use Rattle.buffer_commands.specs.declared.command.Command.{Command};
ghost use Rattle.buffer_commands.specs.declared.command.Command.TheVariants.{Client, Upstream};
ghost use Rattle.buffer_commands.specs.declared.command.Verb.{Verb};
ghost use Rattle.buffer_commands.specs.declared.effect.Effect.TheVariants.{Close};
ghost use Rattle.buffer_machine.specs.Messages.{channel_of, is_among};
ghost use Rattle.buffer_machine.specs.Buffers.{clears, detached, empties, is_known, kept, nick, playback, plays, size};
ghost use Rattle.buffer_machine.specs.Crowd.{attached, ids, is_attach, takes};
ghost use Rattle.buffer_machine.specs.Effects.{effects, open_channels, shown};
ghost use Rattle.buffer_machine.specs.Held.{IsSound, held};

/// What a target keeps is at most its size.
#[tactic(auto, using(crate::proofs::Kept::kept_fits))]
pub fn no_target_keeps_more_than_its_size()
    ensures { (s : Settings) (history : List Command) (t : List ℕ)
        → length (kept s history t) ≤ size s t history }
{}

/// A line of a detached channel is shown to nobody, whether it comes from upstream or a client says it; nor is the
/// channel among those that a client is shown when it attaches.
#[tactic(auto, using(crate::proofs::Readings::line_unshown, crate::proofs::Readings::said_unshown, crate::proofs::Readings::not_open))]
pub fn a_detached_channel_is_not_shown()
    ensures taken { (s : Settings) (earlier : List Command) (at : ℕ) (line : Parts)
        → detached s earlier (fold_name (channel_of line)) ≡ true
        → shown s earlier (Upstream at line) ≡ [] }
    ensures said { (s : Settings) (earlier : List Command) (o : Origin) (at : ℕ) (verb : Verb)
        (name text : List ℕ) → detached s earlier (fold_name name) ≡ true
        → shown s earlier (Client o at (Say verb name text)) ≡ [] }
    ensures attaching { (s : Settings) (earlier : List Command) (c : List ℕ)
        → detached s earlier c ≡ true → is_in c (open_channels s earlier) ≡ false }
{}

/// A target that playing empties keeps nothing after a command that plays it, as long as no client gave a name.
#[tactic(auto, using(crate::proofs::Readings::played_out))]
pub fn playing_leaves_nothing()
    ensures { (s : Settings) (earlier : List Command) (x : Command) (t : List ℕ) → clears s t ≡ true
        → empties (ids s earlier) x ≡ true → plays (takes s earlier x) (attached s earlier)
        (is_channel t && detached s earlier t) t (is_known s earlier t) x ≡ true
        → kept s (x ∷ earlier) t ≡ [] }
{}

/// A request other than Attach by a client that is not attached closes it and changes nothing: neither who is attached,
/// nor the own nick, nor the channels and queries with what they keep, nor what is played of any target.
#[tactic(auto, using(crate::proofs::Readings::held_stays, crate::proofs::Readings::attached_still, crate::proofs::Readings::nick_still, crate::proofs::Readings::playback_still, crate::proofs::Readings::closed_alone))]
pub fn who_is_not_attached_changes_nothing()
    ensures held { (s : Settings) → IsSound s → (earlier : List Command) (o : Origin) (at : ℕ)
        (a : Action) → is_attach a ≡ false → is_among o (attached s earlier) ≡ false
        → held s (Client o at a ∷ earlier) ≡ held s earlier }
    ensures attached { (s : Settings) → IsSound s → (earlier : List Command) (o : Origin) (at : ℕ)
        (a : Action) → is_attach a ≡ false → is_among o (attached s earlier) ≡ false
        → attached s (Client o at a ∷ earlier) ≡ attached s earlier }
    ensures nick { (s : Settings) → IsSound s → (earlier : List Command) (o : Origin) (at : ℕ)
        (a : Action) → is_attach a ≡ false → is_among o (attached s earlier) ≡ false
        → nick s (Client o at a ∷ earlier) ≡ nick s earlier }
    ensures playback { (s : Settings) → IsSound s → (earlier : List Command) (o : Origin) (at : ℕ)
        (a : Action) (t : List ℕ) → is_attach a ≡ false → is_among o (attached s earlier) ≡ false
        → playback s (Client o at a ∷ earlier) t ≡ playback s earlier t }
    ensures effects { (s : Settings) → IsSound s → (earlier : List Command) (o : Origin) (at : ℕ)
        (a : Action) → is_attach a ≡ false → is_among o (attached s earlier) ≡ false
        → effects s earlier (Client o at a) ≡ Close o ∷ [] }
{}
