//! Machines that a node of a cluster hosts.
ghost use Rattle.std.specs.Prelude.{◌≡◌, ◌≤◌, ℕ, List, Option, IfOk, length};
ghost use Rattle.irc_line.specs.Lines.{Parts};
ghost use Rattle.machine_laws.specs.Runs.{After, Brings, History};
ghost use Rattle.machine_laws.specs.Classes.{class_map};
ghost use Rattle.machine_laws.specs.declared.class.Class.{Class};
ghost use Rattle.machine_laws.specs.declared.class.Source.{Source};
ghost use Rattle.wire_bytes.specs.Limits.{body_limit};

use crate::class::{Class, Source};
use crate::machine::Machine;
use irc_line::Line;
use std::alloc::{AllocError, Global};
use wire_bytes::{Copied, Mark, Moment, Number, Origin, SessionId, Wire};

/// A machine that a node of a cluster hosts. Its commands are the bodies of the node's log.
pub trait Hosted: Machine {
    ghost use Rattle.wire_bytes.specs.declared.mark.Mark.{Mark};
    ghost use Rattle.wire_bytes.specs.declared.origin.Origin.{Origin};
    ghost use Rattle.wire_bytes.specs.declared.session_id.SessionId.{SessionId};

    type Action: Wire;

    /// A line as it comes from upstream.
    type Line: Wire;

    /// What a playback is requested for.
    type Target: Wire;

    /// A line of a playback.
    type Played: Copied;

    /// The body of a client's numbered request at a moment.
    ghost asked: { Origin → ℕ → ℕ → Self.Action → Self.Command };

    /// The body that raises a node's floor.
    ghost node_gone: { ℕ → ℕ → Self.Command };

    /// The body that changes nothing and has no answer.
    ghost blank: { Self.Command };

    /// The body by which a run of a node marks a place. It changes nothing.
    ghost mark: { Mark → Self.Command };

    /// The body of a session that is opened.
    ghost opened: { SessionId → Self.Command };

    /// The body of a session that is shut.
    ghost shut: { SessionId → Self.Command };

    /// The body of a session's line, by its number in the session and the moment at which it came.
    ghost heard: { SessionId → ℕ → ℕ → Self.Line → Self.Command };

    /// The body by which a session claims the line of this number.
    ghost claim: { SessionId → ℕ → Self.Command };

    /// Who may bring a body.
    ghost source: { Self.Command → Source };

    /// The number of the next line to be claimed, where a line is numbered and not claimed; none past 2^60.
    ghost next_claim: { Self.Setup → History Self.Command → Option ℕ };

    /// What is played back for a target after a history.
    ghost playback: { Self.Setup → History Self.Command → Self.Target → List Self.Played };

    /// Where an effect goes.
    ghost class: { Self.Effect → Class Parts };

    /// Allocates nothing.
    fn asked(origin: Origin, number: Number, at: Moment, action: Self::Action) -> Self::Command
        ensures { result ≡ asked origin number at action };

    /// Allocates nothing.
    fn node_gone(node: u8, floor: Number) -> Self::Command
        ensures { result ≡ node_gone node floor };

    /// What a new leader appends first. Allocates nothing.
    fn blank() -> Self::Command
        ensures { result ≡ blank };

    /// Allocates nothing.
    fn mark(made: Mark) -> Self::Command
        ensures { result ≡ mark made };

    /// Allocates nothing.
    fn opened(id: SessionId) -> Self::Command
        ensures { result ≡ opened id };

    /// Allocates nothing.
    fn shut(id: SessionId) -> Self::Command
        ensures { result ≡ shut id };

    /// Allocates nothing. The lines of a session are numbered from 1.
    fn heard(id: SessionId, number: Number, at: Moment, line: Self::Line) -> Self::Command
        ensures { result ≡ heard id number at line };

    /// Allocates nothing.
    fn claim(id: SessionId, number: Number) -> Self::Command
        ensures { result ≡ claim id number };

    /// Does nothing. Every body has a spelling, of at most 65,536 bytes.
    fn fits(body: &Self::Command)
        ensures fits { Self.Command.fits body.now }
        ensures short { length (Self.Command.spelled body.now) ≤ body_limit };

    /// Who may bring a body. Allocates nothing.
    fn source(body: &Self::Command) -> Source
        ensures { result ≡ source body.now };

    /// The number of the next line to be claimed: the first that is numbered and not claimed, whichever session is in
    /// force. None if that number would pass 2^60. Allocates nothing.
    fn next_claim(&self) -> Option<Number>
        ensures { After (Self.stands self.now) (λ s earlier. result ≡ next_claim s earlier) };

    /// What is played back for a target; nothing for an unknown one. It empties nothing.
    fn playback(&self, target: &Self::Target) -> Result<Vec<Self::Played>, AllocError>
        ensures { Brings (Self.stands self.now) result (λ v. v.items)
            (λ s earlier. playback s earlier target.now) };

    /// Where an effect goes. Allocates nothing.
    fn class(effect: &Self::Effect) -> Class<&Line>
        ensures { class_map (λ l. l.now) result ≡ class effect.now };
}
