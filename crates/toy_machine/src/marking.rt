//! The toy recognizes no mark: all its marks have the same body.
use crate::toy::Toy;
use machine_laws::Marking;
use wire_bytes::Mark;

impl Marking for Toy {
    ghost use Rattle.std.specs.Prelude.{None};
    ghost use Rattle.toy_machine.specs.Telling.{constant_tells_none};

    ghost marked = { λ _. None };

    fn marked(body: &u8) -> Option<Mark> {
        let _value = *body;
        None
    }

    ghost tells = { constant_tells_none 0 };
}
