//! Names, texts and bytes of examples, and how they are compared.
use buffer_lines::Shown;
use irc_line::{Line, LineFault, Name, Text};
use std::alloc::{AllocError, Global};
use std::fmt::Display;
use std::process::Abort;
use std::test::Fail;
use wire_bytes::{Wire, WireFault};

pub fn name(alloc: Global, bytes: &[u8]) -> Result<Name, Fail> {
    Ok(Name::from_bytes(Vec::from_slice(alloc, bytes)?).ok_or("no name")?)
}

pub fn names(alloc: Global, all: &[&[u8]]) -> Result<Vec<Name>, Fail> {
    let mut names = Vec::new(alloc);
    for bytes in all {
        names.push(name(alloc, bytes)?)?;
    }
    Ok(names)
}

pub fn text(alloc: Global, bytes: &[u8]) -> Result<Text, Fail> {
    Ok(Text::from_bytes(Vec::from_slice(alloc, bytes)?).ok_or("no text")?)
}

/// These bytes and letters behind them, so many in all, and an end.
pub fn filled_to(
    alloc: Global,
    front: &[u8],
    len: usize,
    end: &[u8],
) -> Result<Vec<u8>, AllocError> {
    let mut bytes = Vec::from_slice(alloc, front)?;
    for _ in front.len()..len {
        bytes.push(b'a')?;
    }
    bytes.extend_from_slice(end)?;
    Ok(bytes)
}

/// A line as it is shown.
pub fn shown(alloc: Global, line: &[u8]) -> Result<Shown, LineFault> {
    let line = Line::parse(alloc, line)?;
    Ok(Shown::of_line(&line)?)
}

/// Appends a line and a line feed.
pub fn push_line(out: &mut Vec<u8>, line: &[u8]) -> Result<(), AllocError> {
    out.extend_from_slice(line)?;
    Ok(out.push(b'\n')?)
}

pub fn check_bytes(rt: &impl Abort, told: &[u8], wanted: &[u8]) {
    assert_eq!(rt; told, wanted);
}

/// The value at the front of bytes.
pub fn taken<W: Wire>(alloc: Global, bytes: &[u8]) -> Result<W, WireFault> {
    let (value, _) = W::take(alloc, bytes)?;
    Ok(value)
}

/// Why these bytes are no value of a type.
pub fn fault_of<W: Wire>(alloc: Global, bytes: &[u8]) -> Option<WireFault> {
    W::take(alloc, bytes).err()
}

/// Whether a value is spelled so.
pub fn is_spelled<W: Wire>(alloc: Global, value: &W, bytes: &[u8]) -> Result<bool, AllocError>
    requires { W.fits value.now }
{
    let mut out = Vec::new(alloc);
    value.put(&mut out)?;
    Ok(out.as_slice() == bytes)
}

/// Whether a value is spelled so, and its copy too.
pub fn is_copied_so<W: Wire>(alloc: Global, value: &W, bytes: &[u8]) -> Result<bool, AllocError>
    requires { W.fits value.now }
{
    let copy = value.copy(alloc)?;
    Ok(is_spelled(alloc, &copy, bytes)? && is_spelled(alloc, value, bytes)?)
}

/// Whether the value at the front of an input is spelled so again, and its copy too, and the input is read so far.
pub fn is_spelled_again<W: Wire>(
    alloc: Global,
    input: &[u8],
    spelling: &[u8],
) -> Result<bool, WireFault> {
    let (value, len) = W::take(alloc, input)?;
    Ok(len == spelling.len() && is_copied_so(alloc, &value, spelling)?)
}

/// Whether a value is printed so.
pub fn is_shown<V: Display>(alloc: Global, value: &V, want: &str) -> Result<bool, AllocError> {
    let shown = format!(in alloc; "{value}")?;
    Ok(shown.as_str() == want)
}
