ghost use Rattle.std.specs.Prelude.{◌≡◌, ◌++◌};
ghost use Rattle.wire_bytes.specs.Fields.{both};
ghost use Rattle.wire_bytes.specs.Wants.{wants_both};
ghost use Rattle.wire_bytes.specs.Codecs.{both-codec};

use crate::copied::Copied;
use crate::fields::{take_behind, undo};
use crate::wire::Wire;
use crate::wire_fault::WireFault;
use std::alloc::{AllocError, Global};

impl<A: Copied, B: Copied> Copied for (A, B) {
    fn copy(&self, alloc: Global) -> Result<Self, AllocError> {
        let first = self.0.copy(alloc)?;
        let second = self.1.copy(alloc)?;
        Ok((first, second))
    }
}

/// One value after the other.
impl<A: Wire, B: Wire> Wire for (A, B) {
    ghost spelled = { λ p. A.spelled p.0 ++ B.spelled p.1 };

    ghost fits = { λ p. A.fits p.0 × B.fits p.1 };

    ghost taken = { both A.taken B.taken };

    ghost wants = { wants_both A.wants A.taken B.wants };

    fn put(&self, out: &mut Vec<u8>) -> Result<(), AllocError> {
        let len = out.len();
        self.0.put(out)?;
        let outcome = self.1.put(out);
        undo(out, len, outcome)
    }

    fn take(alloc: Global, input: &[u8]) -> Result<(Self, usize), WireFault> {
        let (first, place) = take_behind::<A>(alloc, input, 0)?;
        let (second, end) = take_behind::<B>(alloc, input, place)?;
        Ok(((first, second), end))
    }

    ghost is_codec = { both-codec A.spelled A.fits A.taken B.spelled B.fits B.taken
        A.is_codec B.is_codec };
}
