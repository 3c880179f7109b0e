//! Bodies as bytes, and who may bring them, by examples.
ghost use Rattle.std.specs.Prelude.{◌<◌};

use crate::made::check_bytes;
use bouncer_tower::Tower;
use machine_laws::{Hosted, Source};
use std::alloc::{AllocError, Global};
use std::process::Abort;
use std::test::Fail;
use wire_bytes::{Copied, Mark, Moment, Number, Origin, SessionId, Wire};

/// The client 1.1.1 attaches by its first request.
pub const ATTACH: &[u8] =
    b"\x01\x01\0\0\0\0\0\0\0\x01\0\0\0\0\0\0\0\x01\0\0\0\0\0\0\0\x01\0\0\0\0\x65\x53\xf1\0\x01";

/// By its second one it says `hi` to the channel `#x`.
pub const SAY: &[u8] =
    b"\x01\x01\0\0\0\0\0\0\0\x01\0\0\0\0\0\0\0\x01\0\0\0\0\0\0\0\x02\0\0\0\0\x65\x53\xf1\0\x03\0\0\x02#x\0\x02hi";

/// The session 1.1 is opened, claims the first line, hears one and is shut.
pub const OPENED: &[u8] = b"\0\0\x01\0\0\0\0\0\0\0\x01\0\0\0\0\0\0\0\x01";

pub const CLAIM: &[u8] = b"\0\x01\0\0\0\0\0\0\0\x01\0\0\0\0\0\0\0\x01\0\0\0\0\0\0\0\x01";

pub const HEARD: &[u8] =
    b"\0\0\x03\0\0\0\0\0\0\0\x01\0\0\0\0\0\0\0\x01\0\0\0\0\0\0\0\x01\0\0\0\0\x65\x53\xf1\0\0\x14:a!b@c PRIVMSG #x :w";

pub const SHUT: &[u8] = b"\0\0\x02\0\0\0\0\0\0\0\x01\0\0\0\0\0\0\0\x01";

/// The action that says `hi` to the channel `#x`.
const HI: &[u8] = b"\x03\0\0\x02#x\0\x02hi";

/// The bytes of the mark 7 of the run 1 of node 1.
const MARK: &[u8] = b"\x03\x01\0\0\0\0\0\0\0\x01\0\0\0\0\0\0\0\x07";

/// The bytes of a blank body.
const BLANK: &[u8] = b"\x02";

/// The bytes of the body that says that node 2 is gone, up to its run 5.
const GONE: &[u8] = b"\0\0\0\x03\x02\0\0\0\0\0\0\0\x05";

/// A copy of the value that these bytes spell.
pub fn taken<W: Wire>(alloc: Global, bytes: &[u8]) -> Result<W, Fail> {
    let (value, _) = W::take(alloc, bytes)?;
    Ok(value.copy(alloc)?)
}

/// The bytes of a value.
pub fn spelled<W: Wire>(alloc: Global, value: W) -> Result<Vec<u8>, AllocError>
    requires { W.fits value }
{
    let mut out = Vec::new(alloc);
    value.put(&mut out)?;
    Ok(out)
}

/// The client says `hi` by the request of this number.
pub fn say<M: Hosted>(alloc: Global, number: u64) -> Result<M::Command, Fail>
    requires { number < 2000 }
{
    let action = taken::<M::Action>(alloc, HI)?;
    let at = Moment::new(1_700_000_000);
    Ok(M::asked(Origin::new(1, 1, 1), Number::new(number), at, action))
}

/// The mark 7 of the run 1 of a node.
fn mark_of(node: u8) -> Mark {
    Mark {
        node,
        boot: Number::new(1),
        number: Number::new(7),
    }
}

/// A body is spelled so.
fn check<M: Hosted>(
    rt: &impl Abort,
    alloc: Global,
    body: M::Command,
    wanted: &[u8],
) -> Result<(), AllocError> {
    M::fits(&body);
    check_bytes(rt, &spelled(alloc, body)?, wanted);
    Ok(())
}

/// A body that a machine makes by itself.
#[derive(Clone, Copy)]
enum Made {
    Opened,
    Shut,
    Claim,
    Blank,
    Mark,
    Gone,
}

fn body_of<M: Hosted>(made: Made) -> M::Command {
    match made {
        Made::Opened => M::opened(SessionId::new(1, 1)),
        Made::Shut => M::shut(SessionId::new(1, 1)),
        Made::Claim => M::claim(SessionId::new(1, 1), Number::new(1)),
        Made::Blank => M::blank(),
        Made::Mark => M::mark(mark_of(1)),
        Made::Gone => M::node_gone(2, Number::new(5)),
    }
}

/// The bodies, and the bytes of each for the tower.
const MADE: &[(Made, &[u8])] = &[
    (Made::Opened, OPENED),
    (Made::Shut, SHUT),
    (Made::Claim, CLAIM),
    (Made::Blank, BLANK),
    (Made::Mark, MARK),
    (Made::Gone, GONE),
];

/// The bodies that a machine makes are spelled as they are for the tower.
fn check_made<M: Hosted>(rt: &impl Abort, alloc: Global) -> Result<(), Fail> {
    for (made, wanted) in MADE {
        check::<M>(rt, alloc, body_of::<M>(*made), wanted)?;
    }
    Ok(check::<M>(rt, alloc, say::<M>(alloc, 2)?, SAY)?)
}

/// The source of the body that these bytes spell.
fn source_of<M: Hosted>(alloc: Global, bytes: &[u8]) -> Result<Source, Fail> {
    Ok(M::source(&taken::<M::Command>(alloc, bytes)?))
}

/// Who may bring the mark of a node.
fn source_of_mark<M: Hosted>(node: u8) -> Source {
    M::source(&M::mark(mark_of(node)))
}

/// The bodies have the sources that they have for the tower.
fn check_sources<M: Hosted>(rt: &impl Abort, alloc: Global) -> Result<(), Fail> {
    let sources = [
        (ATTACH, Source::Client(Origin::new(1, 1, 1))),
        (GONE, Source::Node),
        (SHUT, Source::Leader),
        (BLANK, Source::Leader),
        (MARK, Source::Run(1, 1)),
    ];
    for (bytes, want) in sources.iter() {
        assert!(rt; source_of::<M>(alloc, *bytes)? == *want);
    }
    assert!(rt; source_of_mark::<M>(9) == Source::Run(9, 1));
    Ok(())
}

#[test]
fn each_body_has_one_spelling_and_its_source(rt: HostRuntime) -> Result<(), Fail> {
    check_made::<Tower>(&rt, rt.alloc())?;
    check_sources::<Tower>(&rt, rt.alloc())
}
