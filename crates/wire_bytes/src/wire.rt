ghost use Rattle.std.specs.Prelude.{◌≡◌, ◌≢◌, ℕ, ◌+◌, ◌<◌, ◌≤◌, List, length, vec_capacity, vec_len, OnErr, IfOk, IfErr, IsTrue, Ok, Err};
ghost use Rattle.wire_bytes.specs.Fields.{Reading, appended};
ghost use Rattle.wire_bytes.specs.Wants.{Wants};
ghost use Rattle.wire_bytes.specs.Codecs.{IsCodec};
ghost use Rattle.irc_line.specs.Lines.{LacksRoom};
ghost use Rattle.wire_bytes.specs.Reads.{Reads, Refuses, WantsWhere};

use crate::copied::Copied;
use crate::wire_fault::WireFault;
use std::alloc::{AllocError, Global};

/// Values with one spelling each, of which none begins another.
pub trait Wire: Copied {
    ghost use Rattle.wire_bytes.specs.declared.wire_fault.WireFault.{WireFault};

    /// The spelling.
    ghost spelled: { Self → List ℕ };

    /// The limits of the values that have a spelling.
    ghost fits: { Self → Type 0 };

    /// The value at the front of an input and the length of its spelling, or what is wrong.
    ghost taken: { Reading Self };

    /// The inputs whose reading may need memory.
    ghost wants: { Wants };

    /// Appends the spelling, or leaves the items as they were. It is refused only if room is missing and no memory is
    /// left.
    fn put(&self, out: &mut Vec<u8>) -> Result<(), AllocError>
        requires { fits self.now }
        ensures items { out.new.items ≡ appended result out.old.items (spelled self.now) }
        ensures full { OnErr result (LacksRoom out.old (length (spelled self.now))) }
        ensures capacity { vec_capacity out.old ≤ vec_capacity out.new };

    /// Reads the value at the front of an input, with the length of its spelling. Bytes may follow it.
    fn take(alloc: Global, input: &[u8]) -> Result<(Self, usize), WireFault>
        ensures ok { Reads result taken input.now }
        ensures err { Refuses result taken input.now }
        ensures memory { WantsWhere result (wants input.now) };

    /// What is spelled is read back, whatever follows it; what is read is spelled so, byte by byte; a field that is
    /// refused begins within the input; and what an input gives is never an out-of-memory error.
    ghost is_codec: { IsCodec spelled fits taken };
}
