//! What a change of the setup means, and what follows where buffers hold the same after two lists.
ghost use Rattle.std.specs.Prelude.{◌≡◌, ◌<◌, ◌&&◌, ◌||◌, not, ℕ, Bool, List, []};
ghost use Rattle.buffer_commands.specs.Settings.{Settings};
ghost use Rattle.buffer_commands.specs.declared.command.Command.{Command};
ghost use Rattle.buffer_machine.specs.Crowd.{floor, is_id_in};
ghost use Rattle.buffer_machine.specs.Held.{Held, IsSound, commands, held};
ghost use Rattle.buffer_targets.specs.Targets.{TargetLines, has_channel, newest};
ghost use Rattle.irc_line.specs.Keys.{is_in};
ghost use Rattle.machine_laws.specs.Runs.{run};
ghost use Rattle.bouncer_tower.specs.Bodies.{TowerBody, plain};
ghost use Rattle.raft_log.specs.declared.entry.Entry.{Entry};
ghost use Rattle.renewal.specs.Lists.{IsRenewal, bodies_of, settled_log};
ghost use Rattle.renewal.specs.Moved.{moved, size_moved, target_moved};
ghost use Rattle.renewal.specs.Renewed.{Renewed};

/// Where buffers hold the same after two lists of commands, and have the same floors and nobody attached, the two lists
/// lead to the same: whatever comes next brings about the same.
pub fn what_is_held_the_same_is_renewed()
    ensures { (s : Settings) (old new : List Command) → IsSound s
        → ((node : ℕ) → node < 8 → floor new node ≡ floor old node)
        → held s new ≡ held s old → (held s new).clients ≡ [] → Renewed s old new }
{}

/// Under the same setup, where no name is forgotten, a renewed log leads to the same as the old one: whatever comes
/// next brings about the same.
pub fn the_same_setup_means_the_same()
    ensures { (s : Settings) (boots : List ℕ) (term : ℕ) (old new : List (Entry TowerBody))
        → IsSound s → IsRenewal s s [] boots term old new → Renewed s
        (commands (plain (settled_log boots old))) (commands (plain (run (bodies_of new)))) }
{}

/// The own nick stays, and so does each name that is not forgotten. A channel stays, unless the old setup names it, the
/// new one doesn't, and the own nick was not in it; and the channels are added that the new setup names, the old one
/// doesn't, and that did not exist. A target that stays keeps its newest lines, as many as its size now allows.
pub fn what_a_change_keeps()
    ensures nick { (s t : Settings) (forgotten : List (List ℕ)) (was : List ℕ → Bool) (h : Held)
        → (moved s t forgotten was h).nick ≡ h.nick }
    ensures names { (s t : Settings) (forgotten : List (List ℕ)) (was : List ℕ → Bool) (h : Held)
        (id : List ℕ) → is_id_in id (moved s t forgotten was h).names.ids
        ≡ (is_id_in id h.names.ids && not (is_id_in id forgotten)) }
    ensures channels { (s t : Settings) (forgotten : List (List ℕ)) (was : List ℕ → Bool) (h : Held)
        (key : List ℕ) → has_channel key (moved s t forgotten was h).channels
        ≡ ((has_channel key h.channels
        && (not (is_in key s.channels) || (is_in key t.channels || was key)))
        || (is_in key t.channels
        && (not (is_in key s.channels) && not (has_channel key h.channels)))) }
    ensures lines { (old new : ℕ) (gone : List Bool) (x : TargetLines)
        → (target_moved old new gone x).lines.lines
        ≡ newest (size_moved old new x.lines.size) x.lines.lines }
{}
