//! The promises, for every setup, size of the group and list of events.
ghost use Rattle.std.specs.Prelude.{ℕ, List};
ghost use Rattle.buffer_commands.specs.Settings.{Settings};
ghost use Rattle.world_run.specs.World.{Event, agreed, outputs};
ghost use Rattle.world_run.specs.Laws as all;
ghost use Rattle.world_run.specs.Laws.{AgreedGrows, EachBrought, InAgreed, OneList};
ghost use Rattle.world_run.specs.Laws.{ApplyIsFaithful, LooksAreFaithful};
ghost use Rattle.headline.specs.Tower.{tower};
ghost use Rattle.headline.specs.Promises.{AreAgreed, ComesOut, OverAll};
ghost use Rattle.headline.specs.Promises.{DoneIsAgreed, DoneIsBefore};
ghost use Rattle.headline.specs.Promises.{DoneOnce, OthersChangeNothing, RequestsActOnce};
ghost use Rattle.headline.specs.Promises.{HandedIsOutgoing, HandedOnce};
ghost use Rattle.headline.specs.Promises.{AppliedMarks, ConfirmedLooks, MarksAreAbove};

use bouncer_tower::Tower;
use raft_node::Described;

/// The machine of these promises is the one that the code's tower describes.
pub fn the_tower_is_so_described()
    ensures agreed { (s : Settings) (size : ℕ) (es : List (Event (tower s)))
        → AreAgreed s size es (agreed (⟦<Tower as Described>⟧.machine s) size es) }
    ensures outputs { (s : Settings) (size : ℕ) (es : List (Event (tower s)))
        → ComesOut s size es (outputs (⟦<Tower as Described>⟧.machine s) size es) }
{}

/// For the committed entries of any two nodes at any two moments one list begins the other; what was committed is never
/// taken back, even if all nodes restart in between; each body is blank or was brought by an event.
pub fn the_nodes_agree()
    ensures one_list { (s : Settings) → all.OverAll (tower s) OneList }
    ensures in_agreed { (s : Settings) → all.OverAll (tower s) InAgreed }
    ensures agreed_grows { (s : Settings) → all.OverAll (tower s) AgreedGrows }
    ensures each_brought { (s : Settings) → all.OverAll (tower s) EachBrought }
{}

/// A look that is answered at a place is the playback of the first bodies of the agreed list, on every node. What
/// leaves a node when it applies a place is what the tower answers there to the agreed list, as far as it may leave
/// that node.
pub fn playback_is_faithful()
    ensures looks { (s : Settings) → all.OverAll (tower s) LooksAreFaithful }
    ensures applies { (s : Settings) → all.OverAll (tower s) ApplyIsFaithful }
{}

/// At most one request of an origin and number takes effect, and the answer that it is done leaves at most once, of all
/// nodes and all their runs. Any other of that origin and number changes nothing.
pub fn requests_act_once()
    ensures effect { (s : Settings) → OverAll s RequestsActOnce }
    ensures others { (s : Settings) → OverAll s OthersChangeNothing }
    ensures done { (s : Settings) → OverAll s DoneOnce }
{}

/// Requests are linearizable: what was reported as done took effect in what is agreed by then, and before each place of
/// what no event had asked for by then.
pub fn requests_are_linearizable()
    ensures agreed { (s : Settings) → OverAll s DoneIsAgreed }
    ensures before { (s : Settings) → OverAll s DoneIsBefore }
{}

/// The numbers of the lines that are handed upstream, by all nodes and all their runs, are all different; each line is the
/// outgoing line of its number, with a claim that took effect.
pub fn lines_are_handed_once()
    ensures once { (s : Settings) → OverAll s HandedOnce }
    ensures outgoing { (s : Settings) → OverAll s HandedIsOutgoing }
{}

/// A mark that no event has asked for so far is above all that any node has committed by now. So a node that has
/// applied it has applied all of that, and so has one that answers a look at its place or after it.
pub fn confirmed_looks_are_current()
    ensures above { (s : Settings) → OverAll s MarksAreAbove }
    ensures applied { (s : Settings) → OverAll s AppliedMarks }
    ensures looks { (s : Settings) → OverAll s ConfirmedLooks }
{}
