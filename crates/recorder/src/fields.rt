//! Numbers and nodes at the front of a text.
ghost use Rattle.std.specs.Prelude.{◌≡◌, ◌≢◌, decimal, false, option_map, IsTrue};
ghost use Rattle.raft_log.specs.Lists.{IsNode};
ghost use Rattle.recorder.specs.Readings.{IsWord, NodeFits, NumberFits, ReadsAs, node_text, number_text};

use crate::splitting::split;
use itoa::Buffer;
use raft_log::NodeId;
use std::str::from_utf8;

/// The number of these decimal digits, without leading zeros.
pub fn read_number(bytes: &[u8]) -> Option<u64>
    ensures { ReadsAs decimal IsWord bytes.now result }
{
    let text = match from_utf8(bytes) {
        Ok(text) => text,
        Err(_) => return None,
    };
    let number = match u64::from_str_radix(text, 10) {
        Ok(number) => number,
        Err(_) => return None,
    };
    // A plus and leading zeros are parsed too, so the number is written again and compared.
    if is_text_of(number, bytes) {
        Some(number)
    } else {
        None
    }
}

/// Whether this is how a number is written.
fn is_text_of(number: u64, bytes: &[u8]) -> bool
    ensures same { IsTrue result → decimal number ≡ bytes.now }
    ensures other { result ≡ false → decimal number ≢ bytes.now }
{
    let mut buffer = Buffer::new();
    buffer.format(number).as_bytes() == bytes
}

/// The node of this digit.
pub fn read_node(bytes: &[u8]) -> Option<NodeId>
    ensures { ReadsAs decimal IsNode bytes.now result }
{
    match read_number(bytes) {
        Some(number) => if number >= 1 && number <= 7 {
            Some(NodeId::new(number as u8))
        } else {
            None
        },
        None => None,
    }
}

/// The node at the front, and what follows it after a space.
pub fn node_first(bytes: &[u8]) -> Option<(NodeId, &[u8])>
    ensures { ReadsAs node_text NodeFits bytes.now
        (option_map (λ p. (p.0, p.1.now)) result) }
{
    match split(bytes, b' ') {
        Some((front, tail)) => match read_node(front) {
            Some(node) => Some((node, tail)),
            None => None,
        },
        None => None,
    }
}

/// The number at the front, and what follows it after a space.
pub fn number_first(bytes: &[u8]) -> Option<(u64, &[u8])>
    ensures { ReadsAs number_text NumberFits bytes.now
        (option_map (λ p. (p.0, p.1.now)) result) }
{
    match split(bytes, b' ') {
        Some((front, tail)) => match read_number(front) {
            Some(number) => Some((number, tail)),
            None => None,
        },
        None => None,
    }
}
