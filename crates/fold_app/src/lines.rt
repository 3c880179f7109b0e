//! The lines of an input, and the bytes that they encode in hex.
ghost use Rattle.std.specs.Prelude.{◌≡◌, ◌<◌, ◌*◌, ◌%◌, length, if◌then◌else◌, Some, None, IfOk, OnOk, IsTrue, position, MatchOption};
ghost use Rattle.std.specs.List.{list_all};
ghost use Rattle.irc_line.specs.Splitting.{is_line_feed, HasNoLineFeed, IsCutAtLineFeed};
ghost use Rattle.fold_app.specs.Lines.{hex_bytes};
ghost use Rattle.fold_app.specs.Digits.{bytes_of, digit_value, is_digit};

use memchr::memchr;
use std::alloc::AllocError;

/// The part before the first LF, and what follows it.
pub fn at_line_feed(bytes: &[u8]) -> Option<(&[u8], &[u8])>
    ensures { MatchOption result (HasNoLineFeed bytes.now)
        (λ t. IsCutAtLineFeed bytes.now t.0.now t.1.now) }
{
    match line_feed_place(bytes) {
        None => None,
        Some(place) => Some((&bytes[..place], &bytes[place + 1..])),
    }
}

/// The place of the first LF.
#[tactic(auto, using(crate::proofs::Searching::first_end))]
fn line_feed_place(bytes: &[u8]) -> Option<usize>
    ensures { result ≡ position is_line_feed bytes.now }
{
    memchr(b'\n', bytes)
}

/// Replaces the bytes in a buffer by those that a line encodes in lower-case hex digits. Returns whether it encodes
/// any.
pub fn decode_line(bytes: &mut Vec<u8>, line: &[u8]) -> Result<bool, AllocError>
    ensures { IfOk result (λ is_hex.
        (if is_hex then Some bytes.new.items else None) ≡ hex_bytes line.now) }
{
    if line.len() % 2 == 1 || !are_digits(line) {
        return Ok(false);
    }
    decode(bytes, line)?;
    Ok(true)
}

/// Whether all are lower-case hex digits.
#[tactic(auto, using(std::proofs::lemmas::List::Folds::list_all_more))]
fn are_digits(line: &[u8]) -> bool
    ensures { result ≡ list_all is_digit line.now }
{
    // no early exit: the compiler turns a loop without one into steps of many bytes
    let mut all = true;
    for b in line {
        all &= is_a_digit(*b);
    }
    all
}

fn is_a_digit(b: u8) -> bool
    ensures { result ≡ is_digit b }
{
    (b >= b'0' && b <= b'9') || (b >= b'a' && b <= b'f')
}

/// Replaces the bytes in a buffer by those of digits, all of them checked before.
fn decode(bytes: &mut Vec<u8>, digits: &[u8]) -> Result<(), AllocError>
    requires digits { IsTrue (list_all is_digit digits.now) }
    requires even { length digits.now % 2 ≡ 0 }
    ensures { OnOk result (bytes.new.items ≡ bytes_of digits.now) }
{
    bytes.resize(digits.len() / 2, 0)?;
    decode_into(bytes, digits);
    Ok(())
}

/// Writes the bytes of digits over these.
fn decode_into(bytes: &mut [u8], digits: &[u8])
    requires digits { IsTrue (list_all is_digit digits.now) }
    requires twice { length digits.now ≡ 2 * length bytes.old }
    ensures { bytes.new ≡ bytes_of digits.now }
{
    // in pairs, so that the compiler turns the loop into steps of many bytes
    let (pairs, _) = digits.as_chunks::<2>();
    for i in 0..bytes.len() {
        let pair = pairs[i];
        bytes[i] = digit_value(pair[0]) * 16 + digit_value(pair[1]);
    }
}

/// The value of a lower-case hex digit.
fn digit_value(digit: u8) -> u8
    requires { IsTrue (is_digit digit) }
    ensures value { result ≡ digit_value digit }
    ensures limit { result < 16 }
{
    digit % 16 + 9 * (digit / 64)
}
