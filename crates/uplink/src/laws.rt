//! Laws of all calls of an uplink, as contracts of functions that do nothing.
ghost use Rattle.std.specs.Prelude.{◌≡◌, ◌∷◌, ◌++◌, ℕ, List, IsTrue};
ghost use Rattle.irc_line.specs.Names.{is_name};
ghost use Rattle.irc_line.specs.Splitting.{items};
ghost use Rattle.uplink.specs.declared.session.Session.TheVariants.{Registering};
ghost use Rattle.uplink.specs.Calls.{Call, bytes_of, closing, inputs_of, session_of};
ghost use Rattle.uplink.specs.Calls.Call.{Fed};
ghost use Rattle.uplink.specs.Orders.{AreAlike, is_in_order, session_inputs};

/// However bytes are cut, they bring the same.
pub fn the_cutting_does_not_matter()
    ensures { (nick first second : List ℕ) (before later : List Call) →
        AreAlike nick (before ++ Fed (first ++ second) ∷ later)
        (before ++ Fed first ∷ Fed second ∷ later) }
{}

/// Over all calls nothing is given before the first 001, which opens the session; from it on each
/// line except PING is heard, and the end comes last, if it was reported.
pub fn a_session_is_heard_from_its_first_welcome()
    ensures { (nick : List ℕ) (calls : List Call) →
        inputs_of nick calls ≡ session_inputs (items (bytes_of calls)) ++ closing calls }
{}

/// Over all calls a session opens at most once, before anything is heard, and ends at most once,
/// after all that is heard.
pub fn a_session_opens_and_ends_once()
    ensures { (nick : List ℕ) (calls : List Call) → IsTrue (is_in_order (inputs_of nick calls)) }
{}

/// Each nick that is asked for is a name, so it has at most 64 bytes.
pub fn a_nick_asked_for_is_a_name()
    ensures { (nick last : List ℕ) (calls : List Call) → IsTrue (is_name nick) →
        session_of nick calls ≡ Registering last → IsTrue (is_name last) }
{}
