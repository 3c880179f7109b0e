//! Bytes as they are printed: what a terminal would obey becomes a dot.
ghost use Rattle.std.specs.Prelude.{◌≡◌, ◌++◌, OnOk};
ghost use Rattle.chat_log.specs.Controls.{begins_control, first_printed, has_tail, is_control, is_tail_byte, may_follow, printed, tail_length, tail_wanted};

use std::alloc::AllocError;

/// Appends bytes as they are printed. After an error a part of them may have been appended.
#[tactic(auto, unfolding(crate::specs::Controls::printed))]
pub fn push_printed(out: &mut Vec<u8>, bytes: &[u8]) -> Result<(), AllocError>
    ensures { OnOk result (out.new.items ≡ out.old.items ++ printed bytes.now) }
{
    // how many bytes of the current character are still to come
    let mut to_come = 0;
    let mut rest = bytes;
    while let [byte, behind @ ..] = rest {
        if to_come > 0 {
            out.push(*byte)?;
            to_come -= 1;
        } else {
            push_first(out, *byte, behind)?;
            to_come = tail_length(*byte, behind);
        }
        rest = behind;
    }
    Ok(())
}

/// Appends what is printed for a byte that does not continue a character. The dot of a control character of two bytes
/// is appended for the second.
fn push_first(out: &mut Vec<u8>, first: u8, behind: &[u8]) -> Result<(), AllocError>
    ensures { OnOk result (out.new.items ≡ out.old.items ++ first_printed first behind.now) }
{
    if begins_control(first, behind) {
        return Ok(());
    }
    out.push(if is_control(first) { b'.' } else { first })?;
    Ok(())
}

/// Whether a byte is the first of a control character of two bytes.
fn begins_control(first: u8, behind: &[u8]) -> bool
    ensures { result ≡ begins_control first behind.now }
{
    match behind {
        [second, ..] => first == 0xC2 && matches!(*second, 0x80..=0x9F),
        [] => false,
    }
}

/// Whether a byte that belongs to no longer character is a control character.
fn is_control(byte: u8) -> bool
    ensures { result ≡ is_control byte }
{
    matches!(byte, 0..=0x1F | 0x7F..=0x9F)
}

/// How many bytes follow the first in a character that is no control character; none if there is no such character.
fn tail_length(first: u8, behind: &[u8]) -> usize
    ensures { result ≡ tail_length first behind.now }
{
    let wanted = tail_wanted(first);
    match behind {
        [second, ..] if has_tail(wanted, behind) && may_follow(first, *second) => wanted,
        _ => 0,
    }
}

/// How many bytes follow the first byte of a character.
fn tail_wanted(first: u8) -> usize
    ensures { result ≡ tail_wanted first }
{
    match first {
        0xC2..=0xDF => 1,
        0xE0..=0xEF => 2,
        0xF0..=0xF4 => 3,
        _ => 0,
    }
}

/// Whether bytes begin with this many that may follow the first byte of a character.
fn has_tail(count: usize, bytes: &[u8]) -> bool
    ensures { result ≡ has_tail count bytes.now }
{
    match bytes {
        _ if count == 0 => true,
        [byte, behind @ ..] => is_tail_byte(*byte) && has_tail(count - 1, behind),
        [] => false,
    }
}

fn is_tail_byte(byte: u8) -> bool
    ensures { result ≡ is_tail_byte byte }
{
    matches!(byte, 0x80..=0xBF)
}

/// Whether this second byte may follow this first one, in a character that is no control character.
fn may_follow(first: u8, second: u8) -> bool
    ensures { result ≡ may_follow first second }
{
    match first {
        0xC2 | 0xE0 => 0xA0 <= second,
        0xED => second < 0xA0,
        0xF0 => 0x90 <= second,
        0xF4 => second < 0x90,
        _ => true,
    }
}
