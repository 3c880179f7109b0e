//! How values are spelled, by examples.
use crate::made::{fault_of, filled_to, is_shown, is_spelled, is_spelled_again, taken};
use irc_line::{Line, Name, Text};
use std::alloc::Global;
use std::process::Abort;
use std::test::Fail;
use wire_bytes::{Mark, Moment, Number, Origin, SessionId, Wire, WireFault, take_u16};

/// Whether this value stands at the front of an input, in so many bytes, and is as its copy.
fn is_read<W: Wire + PartialEq>(
    alloc: Global,
    value: &W,
    input: &[u8],
    len: usize,
) -> Result<bool, WireFault> {
    let (read, read_len) = W::take(alloc, input)?;
    Ok(read.copy(alloc)? == *value && read == *value && read_len == len)
}

/// The value is spelled so, and its spelling is read as the value.
fn check_value<W: Wire + PartialEq>(
    rt: &impl Abort,
    alloc: Global,
    value: &W,
    spelling: &[u8],
) -> Result<(), Fail>
    requires { W.fits value.now }
{
    assert!(rt; is_spelled(alloc, value, spelling)?);
    assert!(rt; is_read(alloc, value, spelling, spelling.len())?);
    Ok(())
}

const ORIGIN: &[u8] = &[1, 0, 0, 0, 0, 0, 0, 0, 1, 0, 0, 0, 0, 0, 0, 0, 1];

const MOMENT: &[u8] = &[0, 0, 0, 0, 0x65, 0x53, 0xf1, 0];

const SESSION: &[u8] = &[0, 0, 0, 0, 0, 0, 0, 3, 0, 0, 0, 0, 0, 0, 1, 0];

/// The greatest number, two to the sixtieth.
const MOST: &[u8] = &[0x10, 0, 0, 0, 0, 0, 0, 0];

/// Marks of run 5 and number 7, of several nodes.
const MARKS: &[[u8; 17]] = &[
    [0, 0, 0, 0, 0, 0, 0, 0, 5, 0, 0, 0, 0, 0, 0, 0, 7],
    [2, 0, 0, 0, 0, 0, 0, 0, 5, 0, 0, 0, 0, 0, 0, 0, 7],
    [9, 0, 0, 0, 0, 0, 0, 0, 5, 0, 0, 0, 0, 0, 0, 0, 7],
    [255, 0, 0, 0, 0, 0, 0, 0, 5, 0, 0, 0, 0, 0, 0, 0, 7],
];

/// A mark is of any byte as its node.
fn check_marks(rt: &impl Abort, alloc: Global) -> Result<(), Fail> {
    for bytes in MARKS {
        let mark = Mark {
            node: bytes[0],
            boot: Number::new(5),
            number: Number::new(7),
        };
        mark.fits();
        check_value(rt, alloc, &mark, bytes)?;
    }
    Ok(())
}

#[test]
fn values_are_spelled_at_fixed_places(rt: HostRuntime) -> Result<(), Fail> {
    let alloc = rt.alloc();
    check_value(&rt, alloc, &Origin::new(1, 1, 1), ORIGIN)?;
    check_value(&rt, alloc, &Moment::new(1_700_000_000), MOMENT)?;
    check_value(&rt, alloc, &SessionId::new(3, 256), SESSION)?;
    check_value(&rt, alloc, &Number::new(1 << 60), MOST)?;
    check_value(&rt, alloc, &((true, false), 200u8), &[1, 0, 200])?;
    assert!(rt; is_read(alloc, &(true, false), &[1, 0, 200], 2)?);
    assert!(rt; is_read(alloc, &200u8, &[200], 1)?);
    check_marks(&rt, alloc)
}

/// Whether an origin, a moment and a session's id say their numbers.
fn are_said(origin: Origin, moment: Moment, id: SessionId) -> bool {
    origin.node() == 1
        && origin.boot() == 1
        && origin.client() == 1
        && moment.seconds() == 1_700_000_000
        && id.term() == 3
        && id.attempt() == 256
        && id < SessionId::new(4, 0)
}

/// Inputs without a value at their front, and what is wrong with each.
type Faults = &'static [(&'static [u8], WireFault)];

/// Each of these inputs is refused so.
fn check_faults<W: Wire>(rt: &impl Abort, alloc: Global, cases: Faults) {
    for (input, want) in cases {
        assert!(rt; fault_of::<W>(alloc, input) == Some(*want));
    }
}

/// Origins of node 0, of node 8, with a client past the limit, and with a run past it, whole and cut.
const NO_ORIGINS: Faults = &[
    (&[0; 17], WireFault::Bad(0)),
    (
        &[8, 0, 0, 0, 0, 0, 0, 0, 0, 0, 0, 0, 0, 0, 0, 0, 0],
        WireFault::Bad(0),
    ),
    (
        &[7, 0, 0, 0, 0, 0, 0, 0, 0, 0x10, 0, 0, 0, 0, 0, 0, 1],
        WireFault::Bad(9),
    ),
    (
        &[7, 0x10, 0, 0, 0, 0, 0, 0, 1, 0x10, 0, 0, 0, 0, 0, 0, 1],
        WireFault::Bad(1),
    ),
    (&[7, 0x10, 0, 0, 0, 0, 0, 0, 1], WireFault::Bad(1)),
    (&[7, 0x10, 0, 0, 0, 0, 0, 0], WireFault::Short),
];

/// Marks with a run past the limit, cut and whole.
const NO_MARKS: Faults = &[
    (&[3, 0x10, 0, 0, 0, 0, 0, 0], WireFault::Short),
    (&[3, 0x10, 0, 0, 0, 0, 0, 0, 1], WireFault::Bad(1)),
];

/// 250,000,000,001 seconds.
const NO_MOMENTS: Faults = &[(&[0, 0, 0, 0x3a, 0x35, 0x29, 0x44, 1], WireFault::Bad(0))];

/// The number past the limit, whole and cut.
const NO_NUMBERS: Faults = &[
    (&[0x10, 0, 0, 0, 0, 0, 0, 1], WireFault::Bad(0)),
    (&[0x10, 0, 0, 0, 0, 0, 0], WireFault::Short),
];

const NO_NAMES: Faults = &[
    (&[0], WireFault::Short),
    (&[0, 0], WireFault::Bad(0)),
    (&[0, 2, b'#'], WireFault::Short),
    (&[0, 2, b'#', b' '], WireFault::Bad(0)),
];

/// A line in lower case, and one whose command is none.
const NO_LINES: Faults = &[
    (b"\x00\x0eprivmsg #x :hi", WireFault::Bad(0)),
    (&[0, 0], WireFault::Bad(0)),
];

#[test]
fn what_is_no_value_is_refused_at_its_place(rt: HostRuntime) {
    let alloc = rt.alloc();
    check_faults::<Origin>(&rt, alloc, NO_ORIGINS);
    check_faults::<Mark>(&rt, alloc, NO_MARKS);
    check_faults::<Moment>(&rt, alloc, NO_MOMENTS);
    check_faults::<Number>(&rt, alloc, NO_NUMBERS);
    check_faults::<Name>(&rt, alloc, NO_NAMES);
    check_faults::<Line>(&rt, alloc, NO_LINES);
    check_faults::<bool>(&rt, alloc, &[(&[2], WireFault::Bad(0))]);
    check_faults::<(bool, bool)>(&rt, alloc, &[(&[1, 2], WireFault::Bad(1))]);
    assert!(rt; take_u16(&[1, 2], 500) == Ok((258, 2)));
    assert!(rt; take_u16(&[1, 2], 257) == Err(WireFault::Bad(0)));
}

const NAME: &[u8] = &[0, 2, 0x23, 0x78];

const UPPER: &[u8] = b"\x00\x0ePRIVMSG #x :hi";

/// Whether the name at the front of an input is of these bytes.
fn is_name(alloc: Global, input: &[u8], bytes: &[u8]) -> Result<bool, WireFault> {
    let name = taken::<Name>(alloc, input)?;
    Ok(name.as_bytes() == bytes)
}

/// Whether the line at the front of an input has this command.
fn has_command(alloc: Global, input: &[u8], command: &[u8]) -> Result<bool, WireFault> {
    let line = taken::<Line>(alloc, input)?;
    Ok(line.command() == command)
}

/// Whether a text of 511 bytes is refused so in so many bytes.
fn is_511_refused(alloc: Global, len: usize, want: WireFault) -> Result<bool, WireFault> {
    let input = filled_to(alloc, &[1, 255], len, b"")?;
    Ok(input.len() == len && fault_of::<Text>(alloc, &input) == Some(want))
}

/// How many bytes the text at the front of an input has.
fn text_len(alloc: Global, input: &[u8]) -> Result<usize, WireFault> {
    let text = taken::<Text>(alloc, input)?;
    Ok(text.as_bytes().len())
}

/// Whether the text of 510 bytes at the front of 513 bytes is read, and spelled again.
fn is_510_read(alloc: Global) -> Result<bool, WireFault> {
    let input = filled_to(alloc, &[1, 254], 513, b"")?;
    let spelling = filled_to(alloc, &[1, 254], 512, b"")?;
    Ok(text_len(alloc, &input)? == 510 && is_spelled_again::<Text>(alloc, &input, &spelling)?)
}

#[test]
fn values_are_said_and_read(rt: HostRuntime) -> Result<(), Fail> {
    let alloc = rt.alloc();
    let (origin, moment) = (Origin::new(1, 1, 1), Moment::new(1_700_000_000));
    let id = SessionId::new(3, 256);
    assert!(rt; are_said(origin, moment, id));
    assert!(rt; is_shown(alloc, &origin, "1.1.1")?);
    assert!(rt; is_shown(alloc, &moment, "1700000000")?);
    assert!(rt; is_shown(alloc, &id, "3.256")?);
    assert!(rt; is_shown(alloc, &Number::new(1 << 60), "1152921504606846976")?);
    assert!(rt; is_name(alloc, NAME, b"#x")?);
    assert!(rt; is_spelled_again::<Name>(alloc, NAME, NAME)?);
    assert!(rt; has_command(alloc, UPPER, b"PRIVMSG")?);
    assert!(rt; is_spelled_again::<Line>(alloc, UPPER, UPPER)?);
    assert!(rt; is_510_read(alloc)?);
    assert!(rt; is_511_refused(alloc, 512, WireFault::Short)?);
    assert!(rt; is_511_refused(alloc, 513, WireFault::Bad(0))?);
    Ok(())
}
