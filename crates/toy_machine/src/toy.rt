//! A machine whose bodies bring their own numbers about.
use irc_line::Line;
use machine_laws::{ApplyFault, Class, Hosted, Machine, Source, single};
use std::alloc::{AllocError, Global};
use wire_bytes::{Mark, Moment, Number, Origin, SessionId};

/// A body brings its own number about, and the last one is played.
///
/// Bodies 7 and 8 come from the client 1 of nodes 1 and 2, and their effects go to it; all others
/// are the leader's, and their effects go nowhere.
#[derive(Drop)]
pub struct Toy {
    alloc: Global,
    last: u8,
    spoilt: bool,
}

impl Machine for Toy {
    ghost use Rattle.std.specs.Prelude.{◌≡◌, [], ◌∷◌, false, get_or};

    type Setup = u8;

    type Command = u8;

    type Effect = u8;

    ghost stands = { λ m _ h. (m.last ≡ (get_or h 0 (0, 0)).1) × (m.spoilt ≡ false) };

    ghost effects = { λ _ _ _ c. c ∷ [] };

    ghost spoilt = { λ m. m.spoilt };

    fn start(alloc: Global, _setup: &u8) -> Result<Toy, AllocError> {
        Ok(Toy {
            alloc,
            last: 0,
            spoilt: false,
        })
    }

    fn apply(&mut self, _place: u64, command: &u8) -> Result<Vec<u8>, ApplyFault> {
        if self.spoilt {
            return Err(ApplyFault::Spoilt);
        }
        match single(self.alloc, *command) {
            Ok(effects) => {
                self.last = *command;
                Ok(effects)
            }
            Err(_) => {
                self.spoilt = true;
                Err(ApplyFault::Memory)
            }
        }
    }

    ghost stands_whole = { λ m s h st. st.1 };
}

impl Hosted for Toy {
    ghost use Rattle.std.specs.Prelude.{◌==◌, if◌then◌else◌, [], ◌∷◌, None, get_or};
    ghost use Rattle.machine_laws.specs.declared.class.Class.TheVariants.{Nowhere, To};
    ghost use Rattle.machine_laws.specs.declared.class.Source.TheVariants.{Client, Leader};

    type Action = u8;

    type Line = u8;

    type Target = u8;

    type Played = u8;

    ghost asked = { λ _ _ _ _. 7 };

    ghost node_gone = { λ _ _. 0 };

    ghost blank = { 0 };

    ghost mark = { λ _. 0 };

    ghost opened = { λ _. 1 };

    ghost shut = { λ _. 2 };

    ghost heard = { λ _ _ _ _. 3 };

    ghost claim = { λ _ _. 4 };

    ghost source = { λ b. if b == 7 then Client (1, 1, 1)
        else (if b == 8 then Client (2, 1, 1) else Leader) };

    ghost next_claim = { λ _ _. None };

    ghost playback = { λ _ h _. (get_or h 0 (0, 0)).1 ∷ [] };

    ghost class = { λ e. if e == 7 then To (1, 1, 1)
        else (if e == 8 then To (2, 1, 1) else Nowhere) };

    fn asked(_origin: Origin, _number: Number, _at: Moment, _action: u8) -> u8 {
        7
    }

    fn node_gone(_node: u8, _floor: Number) -> u8 {
        0
    }

    fn blank() -> u8 {
        0
    }

    fn mark(_made: Mark) -> u8 {
        0
    }

    fn opened(_id: SessionId) -> u8 {
        1
    }

    fn shut(_id: SessionId) -> u8 {
        2
    }

    fn heard(_id: SessionId, _number: Number, _at: Moment, _line: u8) -> u8 {
        3
    }

    fn claim(_id: SessionId, _number: Number) -> u8 {
        4
    }

    fn fits(body: &u8) {
        let _value = *body;
    }

    fn source(body: &u8) -> Source {
        if *body == 7 {
            Source::Client(Origin::new(1, 1, 1))
        } else if *body == 8 {
            Source::Client(Origin::new(2, 1, 1))
        } else {
            Source::Leader
        }
    }

    fn next_claim(&self) -> Option<Number> {
        None
    }

    fn playback(&self, _target: &u8) -> Result<Vec<u8>, AllocError> {
        single(self.alloc, self.last)
    }

    fn class(effect: &u8) -> Class<&Line> {
        if *effect == 7 {
            Class::To(Origin::new(1, 1, 1))
        } else if *effect == 8 {
            Class::To(Origin::new(2, 1, 1))
        } else {
            Class::Nowhere
        }
    }
}
