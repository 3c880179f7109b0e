//! Words of a story's lines.
ghost use Rattle.std.specs.Prelude.{◌≤◌, IfOk};

use crate::stories::fault::Fault;
use raft_log::NodeId;
use recorder::{read_number, split};
use std::alloc::{AllocError, Global};

/// The greatest number of a story.
const MOST: u64 = 1_000_000_000;

/// What stands before the first blank, and what stands behind it.
pub fn cut(text: &[u8]) -> (&[u8], &[u8]) {
    match split(text, b' ') {
        Some(parts) => parts,
        None => (text, b"".as_slice()),
    }
}

/// The number of these digits.
pub fn number(digits: &[u8]) -> Result<u64, Fault>
    ensures { IfOk result (λ n. n ≤ 1000000000) }
{
    match read_number(digits) {
        Some(number) => if number <= MOST {
            Ok(number)
        } else {
            Err(Fault::NoStep)
        },
        None => Err(Fault::NoStep),
    }
}

/// The node of this digit.
pub fn node_of(digits: &[u8]) -> Result<NodeId, Fault> {
    let number = number(digits)?;
    if number >= 1 && number <= 7 {
        Ok(NodeId::new(number as u8))
    } else {
        Err(Fault::NoStep)
    }
}

/// The bytes of a text, in which `\r`, `\n` and `\\` stand for CR, LF and a backslash.
pub fn bytes_of(alloc: Global, text: &[u8]) -> Result<Vec<u8>, Fault> {
    let mut bytes = Vec::new(alloc);
    let mut is_marked = false;
    for byte in text {
        if is_marked {
            bytes.extend_from_slice(&[marked(*byte)?])?;
            is_marked = false;
        } else if *byte == b'\\' {
            is_marked = true;
        } else {
            bytes.extend_from_slice(&[*byte])?;
        }
    }
    Ok(bytes)
}

/// The byte for which this one stands behind a backslash.
fn marked(byte: u8) -> Result<u8, Fault> {
    match byte {
        b'r' => Ok(b'\r'),
        b'n' => Ok(b'\n'),
        b'\\' => Ok(b'\\'),
        _ => Err(Fault::NoStep),
    }
}

/// Appends the text of these bytes.
pub fn push_text(out: &mut Vec<u8>, bytes: &[u8]) -> Result<(), AllocError> {
    for byte in bytes {
        match byte {
            b'\r' => out.extend_from_slice(b"\\r")?,
            b'\n' => out.extend_from_slice(b"\\n")?,
            b'\\' => out.extend_from_slice(b"\\\\")?,
            _ => out.extend_from_slice(&[*byte])?,
        }
    }
    Ok(())
}
