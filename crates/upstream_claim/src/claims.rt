//! A machine whose lines for upstream are numbered and claimed once.
ghost use Rattle.std.specs.Prelude.{◌≡◌, ℕ, ◌+◌, List, [], ◌∷◌, length, nat_lt, Some, None, if◌then◌else◌, IfOk, IfErr, OnOk, OnErr, IsTrue, true, false};
ghost use Rattle.machine_laws.specs.Runs.{History};
ghost use Rattle.upstream_claim.specs.Numbered.{plain, numbered, answers, next_claim, waiting};
ghost use Rattle.upstream_claim.specs.States.{IsKept};

use crate::command::ClaimsCommand;
use crate::effect::ClaimsEffect;
use crate::step::step;
use crate::unclaimed::Unclaimed;
use irc_line::Line;
use machine_laws::{ApplyFault, HasClients, HasSession, Machine};
use std::alloc::{AllocError, Global};
use std::collections::VecDeque;
use wire_bytes::{Moment, Number, Origin};

/// A machine whose lines for upstream are numbered from 1 and kept until the session in force claims them, in order,
/// each once. While 1,000 lines wait, a further one gets no number, and its client gets `Busy`.
///
/// A claimed line is dropped: only the lines that wait are kept, and how many were claimed.
#[derive(Drop)]
pub struct Claims<M: HasSession> {
    alloc: Global,
    machine: M,
    unclaimed: Unclaimed,
    spoilt: bool,
    ghost whole: { spoilt ≡ false → M.spoilt machine ≡ false },
}

impl<M: HasSession> Claims<M> {
    /// The machine below.
    pub fn machine(&self) -> &M
        ensures { (s : M.Setup) (earlier : History (ClaimsCommand M.Command))
            → ⟦<Claims<M> as Machine>⟧.stands self.now s earlier
            → M.stands result.now s (plain earlier) }
    {
        &self.machine
    }

    /// The number of the next line to be claimed, where a line is numbered and not claimed.
    pub fn next_claim(&self) -> Option<u64>
        ensures { (s : M.Setup) (earlier : History (ClaimsCommand M.Command))
            → ⟦<Claims<M> as Machine>⟧.stands self.now s earlier
            → result ≡ next_claim M.session M.sends (M.effects s) earlier }
    {
        self.unclaimed.next()
    }

    /// The lines that wait, in the order in which they are to be claimed.
    pub fn waiting(&self) -> &VecDeque<Line>
        ensures { (s : M.Setup) (earlier : History (ClaimsCommand M.Command))
            → ⟦<Claims<M> as Machine>⟧.stands self.now s earlier
            → result.now.items ≡ waiting M.session M.sends (M.effects s) earlier }
    {
        &self.unclaimed.lines
    }
}

impl<M: HasSession> Machine for Claims<M> {
    type Setup = M::Setup;

    type Command = ClaimsCommand<M::Command>;

    type Effect = ClaimsEffect<M::Effect>;

    ghost stands = { λ m s earlier. M.stands m.machine s (plain earlier)
        × IsKept m.unclaimed.count m.unclaimed.lines.items (numbered M.session M.sends
        (M.effects s) earlier)
        × (m.spoilt ≡ false) };

    ghost effects = { λ s earlier place x. answers M.session M.sends
        (M.effects s) earlier place x };

    ghost spoilt = { λ m. m.spoilt };

    fn start(alloc: Global, setup: &M::Setup) -> Result<Self, AllocError> {
        Ok(Claims {
            alloc,
            machine: M::start(alloc, setup)?,
            unclaimed: Unclaimed::new(alloc),
            spoilt: false,
        })
    }

    fn apply(
        &mut self,
        place: u64,
        command: &ClaimsCommand<M::Command>,
    ) -> Result<Vec<ClaimsEffect<M::Effect>>, ApplyFault> {
        if self.spoilt {
            return Err(ApplyFault::Spoilt);
        }
        let result = step(
            self.alloc,
            &mut self.machine,
            &mut self.unclaimed,
            place,
            command,
        );
        if result.is_err() {
            self.spoilt = true;
        }
        result
    }

    ghost stands_whole = { λ m s earlier h. h.2 };
}

impl<M: HasSession> HasClients for Claims<M> {
    ghost use Rattle.upstream_claim.specs.declared.command.ClaimsCommand.TheVariants.{Inner};

    type Action = M::Action;

    ghost client = { λ origin at action. Inner (M.client origin at action) };

    ghost node_gone = { λ node floor. Inner (M.node_gone node floor) };

    fn client(
        alloc: Global,
        origin: Origin,
        at: Moment,
        action: &M::Action,
    ) -> Result<Self::Command, AllocError> {
        Ok(ClaimsCommand::Inner(M::client(alloc, origin, at, action)?))
    }

    fn node_gone(node: u8, floor: Number) -> Self::Command {
        ClaimsCommand::Inner(M::node_gone(node, floor))
    }
}
