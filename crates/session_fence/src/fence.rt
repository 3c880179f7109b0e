//! A machine whose sessions with upstream follow one another.
ghost use Rattle.std.specs.Prelude.{◌≡◌, ℕ, List, [], ◌∷◌, IfOk, IfErr, OnOk, OnErr, MatchResult, Some, None, IsTrue, true, false};
ghost use Rattle.machine_laws.specs.Runs.{History};
ghost use Rattle.session_fence.specs.Sessions.{plain, answers, session, sent};
ghost use Rattle.session_fence.specs.States.{IsKept};

use crate::command::FenceCommand;
use crate::effect::FenceEffect;
use crate::session::Session;
use crate::step::step;
use irc_line::Line;
use machine_laws::{ApplyFault, HasClients, HasLines, HasSession, Machine};
use std::alloc::{AllocError, Global};
use wire_bytes::{Moment, Number, Origin, SessionId};

/// A machine whose sessions with upstream follow one another. A session that is opened under an id above all earlier
/// ones is in force until it is shut or another such session is opened. Its lines are taken in order, each once. What
/// any other session says changes nothing.
#[derive(Drop)]
pub struct Fence<M: HasLines> {
    alloc: Global,
    machine: M,
    session: Session,
    spoilt: bool,
    ghost whole: { spoilt ≡ false → M.spoilt machine ≡ false },
}

impl<M: HasLines> Fence<M> {
    /// The machine below.
    pub fn machine(&self) -> &M
        ensures { (s : M.Setup) (earlier : History (FenceCommand M.Command M.Line))
            → ⟦<Fence<M> as Machine>⟧.stands self.now s earlier
            → M.stands result.now s (plain M.up M.down M.heard earlier) }
    {
        &self.machine
    }
}

impl<M: HasLines> Machine for Fence<M> {
    type Setup = M::Setup;

    type Command = FenceCommand<M::Command, M::Line>;

    type Effect = FenceEffect<M::Effect>;

    ghost stands = { λ m s earlier. M.stands m.machine s (plain M.up M.down M.heard earlier)
        × IsKept m.session earlier × (m.spoilt ≡ false) };

    ghost effects = { λ s earlier place x. answers M.up M.down M.heard M.rejoined
        (M.effects s) earlier place x };

    ghost spoilt = { λ m. m.spoilt };

    fn start(alloc: Global, setup: &M::Setup) -> Result<Self, AllocError> {
        Ok(Fence {
            alloc,
            machine: M::start(alloc, setup)?,
            session: Session::Never,
            spoilt: false,
        })
    }

    fn apply(
        &mut self,
        place: u64,
        command: &FenceCommand<M::Command, M::Line>,
    ) -> Result<Vec<FenceEffect<M::Effect>>, ApplyFault> {
        if self.spoilt {
            return Err(ApplyFault::Spoilt);
        }
        let result = step(
            self.alloc,
            &mut self.machine,
            &mut self.session,
            place,
            command,
        );
        if result.is_err() {
            self.spoilt = true;
        }
        result
    }

    ghost stands_whole = { λ m s earlier h. h.2 };
}

impl<M: HasClients + HasLines> HasClients for Fence<M> {
    ghost use Rattle.session_fence.specs.declared.command.FenceCommand.TheVariants.{Inner};

    type Action = M::Action;

    ghost client = { λ origin at action. Inner (M.client origin at action) };

    ghost node_gone = { λ node floor. Inner (M.node_gone node floor) };

    fn client(
        alloc: Global,
        origin: Origin,
        at: Moment,
        action: &M::Action,
    ) -> Result<Self::Command, AllocError> {
        Ok(FenceCommand::Inner(M::client(alloc, origin, at, action)?))
    }

    fn node_gone(node: u8, floor: Number) -> Self::Command {
        FenceCommand::Inner(M::node_gone(node, floor))
    }
}

impl<M: HasClients + HasLines> HasSession for Fence<M> {
    ghost session = { session };

    ghost sends = { sent M.sent };

    fn session(&self) -> Option<SessionId> {
        self.session.now()
    }

    fn sends(effect: FenceEffect<M::Effect>) -> Result<(Origin, Line), FenceEffect<M::Effect>> {
        match effect {
            FenceEffect::Inner(effect) => M::sent(effect).map_err(FenceEffect::Inner),
            FenceEffect::Rejoin(id, line) => Err(FenceEffect::Rejoin(id, line)),
        }
    }
}
