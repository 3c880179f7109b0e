//! A machine each of whose requests takes effect once.
ghost use Rattle.std.specs.Prelude.{◌≡◌, ℕ, List, [], ◌∷◌, IfOk, IfErr, OnOk, OnErr, IsTrue, true, false};
ghost use Rattle.std.specs.BTreeMap.{get};
ghost use Rattle.machine_laws.specs.Runs.{History};
ghost use Rattle.request_once.specs.Fresh.{plain, answers, HasNumbers};

use crate::answer::Answer;
use crate::body::Body;
use crate::step::step;
use machine_laws::{ApplyFault, HasClients, Machine};
use std::alloc::{AllocError, Global};
use std::collections::BTreeMap;
use wire_bytes::Origin;

/// A machine on which each request takes effect once: one with the next number of its origin is applied and answered
/// `Done`, one with an earlier number is answered `Repeat`, one with a later number `Gap`, and these two change
/// nothing. A blank, which has no answer, and a mark, which is answered `Marked`, change nothing either.
///
/// The last numbers are kept for good, in a map by origin.
#[derive(Drop)]
pub struct Once<M: HasClients> {
    alloc: Global,
    machine: M,
    last: BTreeMap<Origin, u64>,
    spoilt: bool,
    ghost whole: { spoilt ≡ false → M.spoilt machine ≡ false },
}

impl<M: HasClients> Once<M> {
    /// The machine below.
    pub fn machine(&self) -> &M
        ensures { (s : M.Setup) (earlier : History (Body M.Command M.Action))
            → ⟦<Once<M> as Machine>⟧.stands self.now s earlier
            → M.stands result.now s (plain M.client earlier) }
    {
        &self.machine
    }
}

impl<M: HasClients> Machine for Once<M> {
    type Setup = M::Setup;

    type Command = Body<M::Command, M::Action>;

    type Effect = Answer<M::Effect>;

    ghost stands = { λ m s earlier. M.stands m.machine s (plain M.client earlier)
        × HasNumbers (get (⟦<Origin as Ord>⟧.cmp) m.last) earlier × (m.spoilt ≡ false) };

    ghost effects = { λ s earlier place x. answers M.client (M.effects s) earlier place x };

    ghost spoilt = { λ m. m.spoilt };

    fn start(alloc: Global, setup: &M::Setup) -> Result<Self, AllocError> {
        Ok(Once {
            alloc,
            machine: M::start(alloc, setup)?,
            last: BTreeMap::new(alloc),
            spoilt: false,
        })
    }

    fn apply(
        &mut self,
        place: u64,
        body: &Body<M::Command, M::Action>,
    ) -> Result<Vec<Answer<M::Effect>>, ApplyFault> {
        if self.spoilt {
            return Err(ApplyFault::Spoilt);
        }
        let result = step(self.alloc, &mut self.machine, &mut self.last, place, body);
        if result.is_err() {
            self.spoilt = true;
        }
        result
    }

    ghost stands_whole = { λ m s earlier h. h.2 };
}
