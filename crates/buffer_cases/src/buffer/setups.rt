//! Setups and their limits, by examples.
use crate::made::{name, names};
use buffer_commands::{Options, Setup, SetupFault};
use buffer_lines::Offset;
use irc_line::Name;
use std::alloc::{AllocError, Global};
use std::test::Fail;
use wire_bytes::Copied;

/// What is wrong with a setup of the nick `me`.
fn fault_of(
    alloc: Global,
    channels: Vec<Name>,
    options: Options,
) -> Result<Option<SetupFault>, Fail> {
    Ok(Setup::new(name(alloc, b"me")?, channels, options).err())
}

/// Two channels of a setup, and what is wrong with them.
const CHANNELS: &[(&[&[u8]], Option<SetupFault>)] = &[
    (&[b"#a", b"#b"], None),
    (&[b"bob", b"#b"], Some(SetupFault::NotAChannel(0))),
    (&[b"#a", b"bob"], Some(SetupFault::NotAChannel(1))),
    (&[b"#b", b"#a"], Some(SetupFault::NotRising(1))),
    (&[b"#A", b"#a"], Some(SetupFault::NotRising(1))),
];

/// What is wrong with a setup of these channels.
fn fault_of_channels(alloc: Global, all: &[&[u8]]) -> Result<Option<SetupFault>, Fail> {
    fault_of(alloc, names(alloc, all)?, Options::default())
}

/// Whether channels of a setup are channels that rise.
fn are_judged(alloc: Global) -> Result<bool, Fail> {
    for (all, want) in CHANNELS {
        if fault_of_channels(alloc, all)? != *want {
            return Ok(false);
        }
    }
    Ok(true)
}

/// So many channels, in rising order.
fn channels_of(alloc: Global, count: u8) -> Result<Vec<Name>, Fail> {
    let mut channels = Vec::new(alloc);
    for i in 0..count {
        channels.push(name(alloc, &[b'#', b'0' + i / 10, b'0' + i % 10])?)?;
    }
    Ok(channels)
}

/// What is wrong with a setup of so many channels.
fn fault_of_count(alloc: Global, count: u8) -> Result<Option<SetupFault>, Fail> {
    fault_of(alloc, channels_of(alloc, count)?, Options::default())
}

/// The sizes of a channel and a query, the most queries, and what is wrong with them.
const SIZES: &[(u16, u16, u8, Option<SetupFault>)] = &[
    (500, 500, 50, None),
    (501, 501, 0, Some(SetupFault::ChannelSize)),
    (500, 501, 0, Some(SetupFault::QuerySize)),
    (500, 500, 0, Some(SetupFault::MostQueries)),
    (0, 0, 51, Some(SetupFault::MostQueries)),
];

/// What is wrong with a setup of these sizes and so many queries.
fn fault_of_sizes(
    alloc: Global,
    channel_size: u16,
    query_size: u16,
    most_queries: u8,
) -> Result<Option<SetupFault>, Fail> {
    let options = Options {
        channel_size,
        query_size,
        most_queries,
        ..Options::default()
    };
    fault_of(alloc, Vec::new(alloc), options)
}

#[test]
fn a_setup_has_limits(rt: HostRuntime) -> Result<(), Fail> {
    for (channel_size, query_size, most_queries, want) in SIZES {
        assert!(rt;
            fault_of_sizes(rt.alloc(), *channel_size, *query_size, *most_queries)? == *want
        );
    }
    assert!(rt; are_judged(rt.alloc())?);
    assert!(rt; fault_of_count(rt.alloc(), 0)? == None);
    assert!(rt; fault_of_count(rt.alloc(), 100)? == None);
    assert!(rt; fault_of_count(rt.alloc(), 101)? == Some(SetupFault::TooManyChannels));
    Ok(())
}

/// The nick of a setup and its channels, with a blank behind each.
fn told_names(alloc: Global, setup: &Setup) -> Result<Vec<u8>, AllocError> {
    let mut out = Vec::from_slice(alloc, setup.nick().as_bytes())?;
    out.push(b' ')?;
    for channel in setup.channels() {
        out.extend_from_slice(channel.as_bytes())?;
        out.push(b' ')?;
    }
    Ok(out)
}

/// Whether these are told of a setup.
pub fn is_told(alloc: Global, setup: &Setup, want: &[u8]) -> Result<bool, AllocError> {
    let told = told_names(alloc, setup)?;
    Ok(told.as_slice() == want)
}

pub fn has_options(setup: &Setup, options: &Options) -> bool {
    setup.channel_size() == options.channel_size as usize
        && setup.query_size() == options.query_size as usize
        && setup.most_queries() == options.most_queries as usize
        && setup.clears_channels() == options.clears_channels
        && setup.clears_queries() == options.clears_queries
        && setup.many_clients() == options.many_clients
        && setup.offset().above_least() == options.offset.above_least()
}

/// Whether these are the options of the plain setup.
fn is_plain(setup: &Setup) -> bool {
    let options = Options {
        channel_size: 50,
        query_size: 50,
        most_queries: 50,
        clears_channels: true,
        clears_queries: true,
        many_clients: true,
        offset: Offset::new(1439),
    };
    has_options(setup, &options)
}

/// Whether the plain setup, copied, is of the nick `me` and the channel `#x`.
fn is_plain_copied(alloc: Global) -> Result<bool, AllocError> {
    let setup = Setup::plain(alloc)?.copy(alloc)?;
    Ok(is_told(alloc, &setup, b"me #x ")? && is_plain(&setup))
}

/// Whether a setup that is made with these options, beside sizes, has them.
fn keeps_options(
    alloc: Global,
    clears_channels: bool,
    clears_queries: bool,
    many_clients: bool,
    offset: Offset,
) -> Result<bool, Fail> {
    let options = Options {
        channel_size: 500,
        query_size: 0,
        most_queries: 1,
        clears_channels,
        clears_queries,
        many_clients,
        offset,
    };
    let setup = Setup::new(name(alloc, b"me")?, Vec::new(alloc), options)?;
    Ok(has_options(&setup, &options))
}

/// Whether the nick and the channels of a setup of these are told so.
fn keeps_names(alloc: Global, nick: &[u8], channels: &[&[u8]], want: &[u8]) -> Result<bool, Fail> {
    let channels = names(alloc, channels)?;
    let setup = Setup::new(name(alloc, nick)?, channels, Options::default())?;
    Ok(is_told(alloc, &setup, want)?)
}

#[test]
fn a_setup_has_what_it_is_made_of(rt: HostRuntime) -> Result<(), Fail> {
    let alloc = rt.alloc();
    assert!(rt; is_plain_copied(alloc)?);
    assert!(rt; keeps_names(alloc, b"Bob", &[b"#A", b"#b", b"&A"], b"Bob #A #b &A ")?);
    assert!(rt; keeps_options(alloc, true, false, false, Offset::new(0))?);
    assert!(rt; keeps_options(alloc, false, true, false, Offset::new(1500))?);
    assert!(rt; keeps_options(alloc, false, false, true, Offset::new(2878))?);
    Ok(())
}
