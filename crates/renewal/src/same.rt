//! Whether what two machines hold is the same, part by part.
ghost use Rattle.std.specs.Prelude.{◌≡◌, ◌<◌, ℕ, [], option_map, IsTrue};
ghost use Rattle.machine_laws.specs.Runs.{History};
ghost use Rattle.buffer_commands.specs.Settings.{Settings};
ghost use Rattle.buffer_commands.specs.declared.command.Command.{Command};
ghost use Rattle.buffer_machine.specs.Crowd.{floor};
ghost use Rattle.buffer_machine.specs.Held.{commands, held};
ghost use Rattle.buffer_machine.specs.Machine.{Stands};

use buffer_lines::KeptLine;
use buffer_machine::BufferMachine;
use irc_line::{Line, Name, is_same};
use std::collections::VecDeque;

/// Whether no client is attached.
pub fn is_left(a: &BufferMachine) -> bool
    ensures clients { (s : Settings) (h : History Command) → Stands a.now s h → IsTrue result
        → (held s (commands h)).clients ≡ [] }
    ensures holders { (s : Settings) (h : History Command) → Stands a.now s h → IsTrue result
        → (held s (commands h)).names.holders ≡ [] }
{
    a.clients().is_empty() && a.holders().is_empty()
}

/// Whether each node has the same floor in both.
pub fn are_same_floors(a: &BufferMachine, b: &BufferMachine) -> bool
    ensures { (s t : Settings) (old new : History Command) → Stands a.now s old
        → Stands b.now t new → IsTrue result
        → (node : ℕ) → node < 8 → floor (commands new) node ≡ floor (commands old) node }
{
    for node in 0..8u8 {
        if a.floor(node) != b.floor(node) {
            return false;
        }
    }
    true
}

/// Whether two names are the same, byte by byte.
pub fn is_same_name(a: &Name, b: &Name) -> bool
    ensures { IsTrue result → b.now ≡ a.now }
{
    is_same(a.as_bytes(), b.as_bytes())
}

/// Whether the same lines wait, in the same order.
pub fn are_same_waiting(a: &VecDeque<Line>, b: &VecDeque<Line>) -> bool
    ensures { IsTrue result → b.now.items ≡ a.now.items }
{
    if a.len() != b.len() {
        return false;
    }
    for place in 0..a.len() {
        if !is_same_waiting(a.get(place), b.get(place)) {
            return false;
        }
    }
    true
}

fn is_same_waiting(a: Option<&Line>, b: Option<&Line>) -> bool
    ensures { IsTrue result → option_map (λ l. l.now) b.entry ≡ option_map (λ l. l.now) a.entry }
{
    match a {
        None => b.is_none(),
        Some(a) => match b {
            None => false,
            Some(b) => is_same_line(a, b),
        },
    }
}

pub fn is_same_kept(a: Option<&KeptLine>, b: Option<&KeptLine>) -> bool
    ensures { IsTrue result → option_map (λ k. k.now) b.entry ≡ option_map (λ k. k.now) a.entry }
{
    match a {
        None => b.is_none(),
        Some(a) => match b {
            None => false,
            Some(b) => a.at() == b.at() && is_same_line(a.line(), b.line()),
        },
    }
}

/// Whether two lines are the same: no two have one spelling.
fn is_same_line(a: &Line, b: &Line) -> bool
    ensures { IsTrue result → b.now ≡ a.now }
{
    is_same(a.spelling(), b.spelling())
}
