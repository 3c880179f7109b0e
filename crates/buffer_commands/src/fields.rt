ghost use Rattle.std.specs.Prelude.{◌≡◌, ◌≤◌, ◌∷◌, ◌++◌, length, vec_capacity, OnErr};
ghost use Rattle.irc_line.specs.Lines.{LacksRoom};
ghost use Rattle.wire_bytes.specs.Fields.{appended};

use std::alloc::AllocError;
use wire_bytes::{Wire, undo};

/// Appends one value after another, or leaves the items as they were.
pub fn put_two<A: Wire, B: Wire>(out: &mut Vec<u8>, first: &A, second: &B) -> Result<(), AllocError>
    requires first { A.fits first.now }
    requires second { B.fits second.now }
    ensures items { out.new.items ≡
        appended result out.old.items (A.spelled first.now ++ B.spelled second.now) }
    ensures full { OnErr result (LacksRoom out.old
        (length (A.spelled first.now ++ B.spelled second.now))) }
    ensures capacity { vec_capacity out.old ≤ vec_capacity out.new }
{
    let len = out.len();
    first.put(out)?;
    let outcome = second.put(out);
    undo(out, len, outcome)
}

/// Appends a kind byte and the field of that kind, or leaves the items as they were.
pub fn put_kind<T: Wire>(out: &mut Vec<u8>, kind: u8, body: &T) -> Result<(), AllocError>
    requires { T.fits body.now }
    ensures items { out.new.items ≡ appended result out.old.items (kind ∷ T.spelled body.now) }
    ensures full { OnErr result (LacksRoom out.old (length (kind ∷ T.spelled body.now))) }
    ensures capacity { vec_capacity out.old ≤ vec_capacity out.new }
{
    let len = out.len();
    out.push(kind)?;
    let outcome = body.put(out);
    undo(out, len, outcome)
}
