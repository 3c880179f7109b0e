ghost use Rattle.std.specs.Prelude.{◌≡◌, ℕ, ◌≤◌, ◌^◌, Ok};
ghost use Rattle.wire_bytes.specs.Values.{FitsMark};

use crate::copied::Copied;
use crate::fields::undo;
use crate::number::Number;
use crate::wire::Wire;
use crate::wire_fault::WireFault;
use std::alloc::{AllocError, Global};

/// A mark that a run of a node makes: the node, that run, and the mark's number within it.
///
/// Any byte is a node here, also 0 and those past 7.
#[derive(Clone, Copy, Debug, PartialEq, Eq)]
pub struct Mark {
    pub node: u8,
    pub boot: Number,
    pub number: Number,
}

impl Mark {
    /// Does nothing. A mark always has a spelling, since its types keep its limits.
    pub fn fits(&self)
        ensures { FitsMark self.now }
    {
        let _node = self.node;
        self.boot.value();
        self.number.value();
    }
}

impl Copied for Mark {
    fn copy(&self, _alloc: Global) -> Result<Self, AllocError>
        ensures { result ≡ Ok self.now }
    {
        Ok(*self)
    }
}

/// The node in one byte, its run and the number.
impl Wire for Mark {
    ghost use Rattle.wire_bytes.specs.Values.{spelled_mark, FitsMark, mark_taken};
    ghost use Rattle.wire_bytes.specs.Wants.{never};
    ghost use Rattle.wire_bytes.specs.ValueCodecs.{mark_is_codec};

    ghost spelled = { spelled_mark };

    ghost fits = { FitsMark };

    ghost taken = { mark_taken };

    ghost wants = { never };

    #[tactic(auto, unfolding(crate::specs::Values::spelled_mark))]
    fn put(&self, out: &mut Vec<u8>) -> Result<(), AllocError> {
        let len = out.len();
        out.push(self.node)?;
        let outcome = (self.boot, self.number).put(out);
        undo(out, len, outcome)
    }

    #[tactic(auto, unfolding(crate::specs::Values::mark_taken))]
    fn take(alloc: Global, input: &[u8]) -> Result<(Self, usize), WireFault> {
        let ((node, (boot, number)), len) = <(u8, (Number, Number))>::take(alloc, input)?;
        Ok((Mark { node, boot, number }, len))
    }

    ghost is_codec = { mark_is_codec };
}
