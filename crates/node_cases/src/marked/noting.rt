//! The least machine whose bodies tell their marks.
ghost use Rattle.std.specs.Prelude.{◌≡◌};
ghost use Rattle.node_cases.specs.Latest.{no_mark};

use irc_line::Line;
use machine_laws::{ApplyFault, Class, Hosted, Machine, Marking, Source, single};
use std::alloc::{AllocError, Global};
use wire_bytes::{Mark, Moment, Number, Origin, SessionId};

/// Each body is a mark, and the number of the last one is played. A blank is the mark of node 0.
#[derive(Drop)]
pub struct Notes {
    alloc: Global,
    last: Number,
}

impl Machine for Notes {
    ghost use Rattle.std.specs.Prelude.{◌≡◌, [], false, refl};
    ghost use Rattle.node_cases.specs.Latest.{last_number};

    type Setup = u8;

    type Command = Mark;

    type Effect = u8;

    ghost stands = { λ m _ h. m.last ≡ last_number h };

    ghost effects = { λ _ _ _ _. [] };

    ghost spoilt = { λ _. false };

    fn start(alloc: Global, _setup: &u8) -> Result<Notes, AllocError> {
        Ok(Notes {
            alloc,
            last: Number::new(0),
        })
    }

    fn apply(&mut self, _place: u64, command: &Mark) -> Result<Vec<u8>, ApplyFault> {
        self.last = command.number;
        Ok(Vec::new(self.alloc))
    }

    ghost stands_whole = { λ m s h st. refl };
}

/// A mark as it stands for what is none.
fn no_mark() -> Mark
    ensures { result ≡ no_mark }
{
    Mark {
        node: 0,
        boot: Number::new(0),
        number: Number::new(0),
    }
}

impl Hosted for Notes {
    ghost use Rattle.std.specs.Prelude.{[], ◌∷◌, None};
    ghost use Rattle.machine_laws.specs.declared.class.Class.TheVariants.{Nowhere};
    ghost use Rattle.machine_laws.specs.declared.class.Source.TheVariants.{Run};
    ghost use Rattle.node_cases.specs.Latest.{last_number, no_mark};

    type Action = u8;

    type Line = u8;

    type Target = u8;

    type Played = Number;

    ghost asked = { λ _ _ _ _. no_mark };

    ghost node_gone = { λ _ _. no_mark };

    ghost blank = { no_mark };

    ghost mark = { λ m. m };

    ghost opened = { λ _. no_mark };

    ghost shut = { λ _. no_mark };

    ghost heard = { λ _ _ _ _. no_mark };

    ghost claim = { λ _ _. no_mark };

    ghost source = { λ b. Run b.node b.boot };

    ghost next_claim = { λ _ _. None };

    ghost playback = { λ _ h _. last_number h ∷ [] };

    ghost class = { λ _. Nowhere };

    fn asked(_origin: Origin, _number: Number, _at: Moment, _action: u8) -> Mark {
        no_mark()
    }

    fn node_gone(_node: u8, _floor: Number) -> Mark {
        no_mark()
    }

    fn blank() -> Mark {
        no_mark()
    }

    fn mark(made: Mark) -> Mark {
        made
    }

    fn opened(_id: SessionId) -> Mark {
        no_mark()
    }

    fn shut(_id: SessionId) -> Mark {
        no_mark()
    }

    fn heard(_id: SessionId, _number: Number, _at: Moment, _line: u8) -> Mark {
        no_mark()
    }

    fn claim(_id: SessionId, _number: Number) -> Mark {
        no_mark()
    }

    #[tactic(auto, using(crate::proofs::Lengths::mark_is_short))]
    fn fits(body: &Mark) {
        body.fits();
    }

    fn source(body: &Mark) -> Source {
        Source::Run(body.node, body.boot.value())
    }

    fn next_claim(&self) -> Option<Number> {
        None
    }

    fn playback(&self, _target: &u8) -> Result<Vec<Number>, AllocError> {
        single(self.alloc, self.last)
    }

    fn class(_effect: &u8) -> Class<&Line> {
        Class::Nowhere
    }
}

impl Marking for Notes {
    ghost use Rattle.std.specs.Prelude.{Some};
    ghost use Rattle.node_cases.specs.Latest.{tells_itself};

    ghost marked = { Some };

    fn marked(body: &Mark) -> Option<Mark> {
        Some(*body)
    }

    ghost tells = { tells_itself };
}
