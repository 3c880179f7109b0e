//! Machines that say which of their bodies are marks.
ghost use Rattle.std.specs.Prelude.{◌≡◌, ◌↔◌, Option, Some};
ghost use Rattle.wire_bytes.specs.declared.mark.Mark.{Mark};
ghost use Rattle.machine_laws.specs.Marks.{IsBodyOf};

use crate::hosted::Hosted;
use wire_bytes::Mark;

/// A hosted machine that says which of its bodies are marks.
pub trait Marking: Hosted {
    /// The mark of a body, if it has one.
    ghost marked: { Self.Command → Option Mark };

    /// The mark of a body, if it has one. Allocates nothing.
    fn marked(body: &Self::Command) -> Option<Mark>
        ensures { result ≡ marked body.now };

    /// It is the mark from which the machine makes this body. A body that several marks make has
    /// none.
    ghost tells: { (body : Self.Command) (m : Mark)
        → (marked body ≡ Some m) ↔ IsBodyOf Self.mark body m };
}
