//! What holds of every gate, as contracts of functions that do nothing.
ghost use Rattle.std.specs.Prelude.{List, ℕ};
ghost use Rattle.client_gate.specs.declared.settings.Settings.{Settings};
ghost use Rattle.client_gate.specs.Calls.{Call};
ghost use Rattle.client_gate.specs.Cutting.{AnswersAlike, LeadsAlike};
ghost use Rattle.client_gate.specs.Numbers.{AreNumberedFrom, all_requests};

/// However a client's bytes are cut, they lead to the same gate, and are answered by the same
/// requests and the same bytes.
pub fn cutting_changes_nothing()
    ensures gate { (s : Settings) (calls : List Call) (first second : List ℕ) →
        LeadsAlike s calls first second }
    ensures answers { (s : Settings) (calls : List Call) (first second : List ℕ) →
        AnswersAlike s calls first second }
{}

/// Over a whole list of calls the requests have the numbers from 1 on, each once and in order; a
/// call that ran out of memory has none of them.
pub fn requests_are_numbered_in_order()
    ensures { (s : Settings) (calls : List Call) → AreNumberedFrom 1 (all_requests s calls) }
{}
