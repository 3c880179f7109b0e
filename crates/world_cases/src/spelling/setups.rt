//! The bytes of setups, by example.
use buffer_commands::{Options, Setup};
use buffer_lines::Offset;
use irc_line::Name;
use setup_spelling::{WireSetup, put_setup};
use std::alloc::{AllocError, Global};
use std::test::Fail;
use wire_bytes::{Wire, WireFault};

/// The nick `me`, the channel `#x`, and all else as it is by default.
const PLAIN: &[u8] = &[
    0, 2, b'm', b'e', 1, 0, 2, b'#', b'x', 0, 50, 0, 50, 50, 1, 1, 1, 5, 159,
];

/// The nick `n`, no channel, 500 and 0 lines, 1 query, nothing on, and 1,439 minutes behind UTC.
const OTHER: &[u8] = &[0, 1, b'n', 0, 1, 244, 0, 0, 1, 0, 0, 0, 0, 0];

/// Whether a setup is spelled so.
fn is_spelled(alloc: Global, setup: &Setup, bytes: &[u8]) -> Result<bool, AllocError> {
    let mut out = Vec::new(alloc);
    put_setup(&mut out, setup)?;
    Ok(out.as_slice() == bytes)
}

/// Whether so many bytes are read as a setup that is spelled so.
fn is_read(alloc: Global, bytes: &[u8], wanted: usize) -> Result<bool, WireFault> {
    let (setup, len) = WireSetup::take(alloc, bytes)?;
    setup.fits();
    let mut out = Vec::new(alloc);
    setup.put(&mut out)?;
    Ok(len == wanted && out.as_slice() == bytes)
}

/// The setup of the other bytes.
fn other(alloc: Global) -> Result<Setup, Fail> {
    let options = Options {
        channel_size: 500,
        query_size: 0,
        most_queries: 1,
        clears_channels: false,
        clears_queries: false,
        many_clients: false,
        offset: Offset::new(0),
    };
    let nick = Name::from_bytes(Vec::from_slice(alloc, b"n")?).ok_or("no name")?;
    Ok(Setup::new(nick, Vec::new(alloc), options).map_err(|_| "setup")?)
}

#[test]
fn setups_have_their_bytes_and_are_read_from_them(rt: HostRuntime) -> Result<(), Fail> {
    let alloc = rt.alloc();
    assert!(rt; is_spelled(alloc, &Setup::plain(alloc)?, PLAIN)?);
    assert!(rt; is_spelled(alloc, &other(alloc)?, OTHER)?);
    assert!(rt; is_read(alloc, PLAIN, 19)?);
    assert!(rt; is_read(alloc, OTHER, 14)?);
    Ok(())
}

/// Fronts of setups, and why none is read: three channels out of order and two of one name, each field past
/// its limits, a name that is no channel's, an offset past a day, and a setup that is cut.
const FAULTS: &[(&[u8], WireFault)] = &[
    (
        &[
            0, 1, b'n', 3, 0, 2, b'#', b'a', 0, 2, b'#', b'c', 0, 2, b'#', b'B',
        ],
        WireFault::Bad(12),
    ),
    (
        &[0, 1, b'n', 2, 0, 2, b'#', b'a', 0, 2, b'#', b'A'],
        WireFault::Bad(8),
    ),
    (&[0, 1, b'n', 101], WireFault::Bad(3)),
    (&[0, 1, b'n', 0, 1, 245], WireFault::Bad(4)),
    (&[0, 1, b'n', 0, 0, 0, 1, 245], WireFault::Bad(6)),
    (&[0, 1, b'n', 0, 0, 0, 0, 0, 51], WireFault::Bad(8)),
    (&[0, 1, b'n', 1, 0, 1, b'x'], WireFault::Bad(4)),
    (
        &[0, 1, b'n', 0, 0, 0, 0, 0, 1, 0, 0, 0, 11, 63],
        WireFault::Bad(12),
    ),
    (
        &[0, 1, b'n', 0, 1, 244, 0, 0, 1, 0, 0, 0, 0],
        WireFault::Short,
    ),
];

/// Three channels in rising order.
const CHANNELS: &[u8] = &[
    0, 1, b'n', 3, 0, 2, b'#', b'a', 0, 2, b'#', b'B', 0, 2, b'#', b'c', 1, 244, 0, 0, 1, 0, 0, 0,
    0, 0,
];

/// Why nothing is read at the front of these bytes.
fn fault(alloc: Global, bytes: &[u8]) -> Option<WireFault> {
    WireSetup::take(alloc, bytes).err()
}

#[test]
fn a_field_past_its_limits_is_refused_at_its_place(rt: HostRuntime) {
    assert!(rt; fault(rt.alloc(), CHANNELS) == None);
    for (bytes, wanted) in FAULTS {
        assert!(rt; fault(rt.alloc(), bytes) == Some(*wanted));
    }
}
