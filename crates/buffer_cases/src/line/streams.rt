//! How streams are split, by examples.
use crate::made::filled_to;
use irc_line::{Item, LineFault, Splitter};
use std::alloc::{AllocError, Global};
use std::process::Abort;
use std::test::Fail;

/// Adds each item: a line's canonical spelling or its fault's letter, and a LF.
fn tell_items(out: &mut Vec<u8>, items: &[Item]) -> Result<(), AllocError> {
    for item in items {
        match item {
            Item::Got(line) => line.write_to(out)?,
            Item::Refused(LineFault::TooLong) => out.push(b'L')?,
            Item::Refused(LineFault::BadByte(_)) => out.push(b'B')?,
            Item::Refused(_) => out.push(b'N')?,
        }
        out.push(b'\n')?;
    }
    Ok(())
}

/// Adds what is told of the items of bytes that are fed.
fn feed(splitter: &mut Splitter, told: &mut Vec<u8>, bytes: &[u8]) -> Result<(), AllocError> {
    let items = splitter.feed(bytes)?;
    tell_items(told, &items)
}

/// Whether this is told of the items of bytes that are fed piece by piece.
fn is_told(alloc: Global, pieces: &[&[u8]], want: &[u8]) -> Result<bool, AllocError> {
    let mut splitter = Splitter::new(alloc);
    let mut told = Vec::new(alloc);
    for piece in pieces {
        feed(&mut splitter, &mut told, *piece)?;
    }
    Ok(told.as_slice() == want)
}

/// Whether this is told of the items of bytes that are fed byte by byte.
fn is_told_by_byte(alloc: Global, bytes: &[u8], want: &[u8]) -> Result<bool, AllocError> {
    let mut splitter = Splitter::new(alloc);
    let mut told = Vec::new(alloc);
    for byte in bytes {
        feed(&mut splitter, &mut told, &[*byte])?;
    }
    Ok(told.as_slice() == want)
}

/// The longest content, one that is too long, and a short one.
fn stream(alloc: Global) -> Result<Vec<u8>, AllocError> {
    let mut bytes = filled_to(alloc, b"PRIVMSG #x :", 510, b"\r\n")?;
    let too_long = filled_to(alloc, b"PRIVMSG #x :", 511, b"\r\nPING  b\n")?;
    bytes.extend_from_slice(&too_long)?;
    Ok(bytes)
}

/// What is told of it.
fn wanted(alloc: Global) -> Result<Vec<u8>, AllocError> {
    filled_to(alloc, b"PRIVMSG #x :", 510, b"\nL\nPING b\n")
}

/// This is told of bytes that are fed whole, in two pieces, and byte by byte.
fn check_cuts(rt: &impl Abort, alloc: Global, bytes: &[u8], want: &[u8]) -> Result<(), Fail> {
    assert!(rt; is_told(alloc, &[bytes], want)?);
    for cut in 0..bytes.len() {
        let (front, rest) = bytes.split_at(cut);
        assert!(rt; is_told(alloc, &[front, rest], want)?);
    }
    assert!(rt; is_told_by_byte(alloc, bytes, want)?);
    Ok(())
}

/// Streams, and what is told of the items of each.
const STREAMS: &[(&str, &str)] = &[
    ("\n\r\n\n", ""),
    ("PING a\rb\r\n", "B\n"),
    ("PING a\r\r\n", "B\n"),
    ("   \r\n12\nPING b\r\n", "N\nN\nPING b\n"),
    ("PING b", ""),
];

#[test]
fn a_stream_is_split_however_it_is_cut(rt: HostRuntime) -> Result<(), Fail> {
    let alloc = rt.alloc();
    for (bytes, want) in STREAMS {
        assert!(rt; is_told(alloc, &[bytes.as_bytes()], want.as_bytes())?);
    }
    check_cuts(&rt, alloc, &stream(alloc)?, &wanted(alloc)?)
}
