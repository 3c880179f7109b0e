//! What can always be had by further events of the nodes of a majority, after every list of events, for every machine.
ghost use Rattle.std.specs.Prelude.{◌-◌, ℕ, List, slice_get};
ghost use Rattle.bouncer_tower.specs.Bodies.{outgoing, session};
ghost use Rattle.buffer_commands.specs.Settings.{Settings};
ghost use Rattle.world_run.specs.Laws.{OverAll};
ghost use Rattle.world_run.specs.World.{Event};
ghost use Rattle.progress.specs.Laws.{CanBeElected, CanSettle, ClientsMayAsk, HasCandidate};
ghost use Rattle.progress.specs.Laws.{NewHasRoom, NothingWedges};
ghost use Rattle.progress.specs.Handing.{NewIsInForce, WaitingIsHanded};
ghost use Rattle.progress.specs.Joining.{SessionsJoin, channels_held};
ghost use Rattle.progress.specs.Looks.{LooksArePlayed};
ghost use Rattle.progress.specs.Sessions.{SessionsCanOpen, WaitingIsClaimed};

use bouncer_tower::Tower;
use machine_laws::Hosted;
use raft_node::Described;

/// A majority always has a node whose log is as up to date as that of each of its nodes. If that node does not lead, it
/// waits until its term is above all others, asks for the others' votes and gets them. Nodes outside of the majority
/// have no part in it.
pub fn a_leader_can_be_had<M: Hosted>()
    ensures elects { (s : M.Setup) → OverAll (⟦<M as Described>⟧.machine s) CanBeElected }
    ensures chooses { (s : M.Setup) → OverAll (⟦<M as Described>⟧.machine s) HasCandidate }
{}

/// If that node leads already, it goes on, unless another node of the majority is ahead of it: then it first hears of
/// that, and is elected anew. From there the leader and each of the others exchange appends and answers, until each of
/// them has committed all that it has. No node is started again.
pub fn what_a_leader_has_can_be_committed<M: Hosted>()
    ensures { (s : M.Setup) → OverAll (⟦<M as Described>⟧.machine s) CanSettle }
{}

/// And then what is asked for at any node of the majority comes into the leader's log, is committed in the same way,
/// and is applied at that node, where the answer leaves. The limits have to leave room, as they do in a new group: two
/// entries in each log of the majority, and a term above all terms.
pub fn nothing_wedges<M: Hosted>()
    ensures through { (s : M.Setup) → OverAll (⟦<M as Described>⟧.machine s) NothingWedges }
    ensures clients { (s : M.Setup) → ClientsMayAsk (⟦<M as Described>⟧.machine s) }
    ensures new { (s : M.Setup) → NewHasRoom (⟦<M as Described>⟧.machine s) }
{}

/// Once all that a majority's leader has is settled, any node of the majority applies it, in the run in which it was. A
/// look there, from any place of that, is then played. All that any node ever committed is in what is played.
pub fn a_look_is_played<M: Hosted>()
    ensures { (s : M.Setup) → OverAll (⟦<M as Described>⟧.machine s) LooksArePlayed }
{}

/// A majority always has a node that comes to lead it and opens a new session with upstream, in the run in which it
/// was: with one more attempt than it had made in that run. A session that is live at it already is shut first. The
/// opening of the new one is committed by each of the majority and applied at the leader right after all that it had,
/// and what that brings about for the session leaves there. Besides the room that the logs need the leader needs an
/// attempt: it has 2^60 in a run.
pub fn a_session_can_be_opened<M: Hosted>()
    ensures { (s : M.Setup) → OverAll (⟦<M as Described>⟧.machine s) SessionsCanOpen }
{}

/// If a line waits to be claimed by then, the leader claims it by that session. The claim is committed and applied in
/// the same way, right after the opening of the session, and what it brings about for the session leaves. The leader's
/// log needs room for three entries in all.
pub fn a_line_that_waits_is_claimed<M: Hosted>()
    ensures { (s : M.Setup) → OverAll (⟦<M as Described>⟧.machine s) WaitingIsClaimed }
{}

/// With the machine of the bouncer the session that is opened is the one in force: it is above all that were opened
/// before. And the line that it hands upstream is the one of that number: the first of the lines that were numbered and
/// not claimed.
pub fn a_line_that_waits_is_handed()
    ensures opened { (s : Settings) (size : ℕ) (es : List (Event (⟦<Tower as Described>⟧.machine s))) →
        NewIsInForce (⟦<Tower as Described>⟧.machine s) session size es }
    ensures handed { (s : Settings) (size : ℕ) (es : List (Event (⟦<Tower as Described>⟧.machine s))) →
        WaitingIsHanded (⟦<Tower as Described>⟧.machine s) (λ h number. slice_get (outgoing s h) (number - 1)) size es }
{}

/// With the machine of the bouncer the session that is opened joins each channel again that the buffers hold then, by
/// the line JOIN that leaves at the leader for that session: the channels of the setup and those that were joined
/// since, without those that were left. Its opening lets nothing else leave, and the buffers still hold the same
/// channels.
pub fn a_session_joins_its_channels_again()
    ensures { (s : Settings) (size : ℕ) (es : List (Event (⟦<Tower as Described>⟧.machine s))) →
        SessionsJoin (⟦<Tower as Described>⟧.machine s) (channels_held s) size es }
{}

/// The same for the machine of the bouncer, whatever its setup.
pub fn no_bouncer_wedges()
    ensures through { (s : Settings) → OverAll (⟦<Tower as Described>⟧.machine s) NothingWedges }
    ensures clients { (s : Settings) → ClientsMayAsk (⟦<Tower as Described>⟧.machine s) }
    ensures looks { (s : Settings) → OverAll (⟦<Tower as Described>⟧.machine s) LooksArePlayed }
    ensures sessions { (s : Settings) → OverAll (⟦<Tower as Described>⟧.machine s) SessionsCanOpen }
    ensures channels { (s : Settings) (size : ℕ) (es : List (Event (⟦<Tower as Described>⟧.machine s))) →
        SessionsJoin (⟦<Tower as Described>⟧.machine s) (channels_held s) size es }
{
    nothing_wedges::<Tower>();
    a_look_is_played::<Tower>();
    a_session_can_be_opened::<Tower>();
    a_session_joins_its_channels_again();
}
