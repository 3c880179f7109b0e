//! The time of day that is put before a played text.
ghost use Rattle.std.specs.Prelude.{◌≡◌, ◌+◌, ◌/◌, ◌%◌, ◌<◌, ◌++◌, OnOk, drop};
ghost use Rattle.jiff_core.specs.Time.{time_seconds};
ghost use Rattle.buffer_lines.specs.Stamps.{stamp, second_of_day, stamped};

use crate::offset::Offset;
use irc_line::{ACTION_MARK, is_action};
use jiff::civil::Time;
use jiff::{Timestamp, tz};
use std::alloc::AllocError;
use wire_bytes::Moment;

/// How many bytes `push_stamped` adds to a text.
pub(crate) const STAMP_LEN: usize = 11;

/// Appends a text with the time before it, which in an ACTION follows its mark. After an error a
/// part of it may have been appended.
#[tactic(auto, using(crate::proofs::Stamped::stamped_action, crate::proofs::Stamped::stamped_plain))]
pub(crate) fn push_stamped(
    out: &mut Vec<u8>,
    offset: Offset,
    at: Moment,
    text: &[u8],
) -> Result<(), AllocError>
    ensures { OnOk result (out.new.items ≡ out.old.items ++ stamped offset at text.now) }
{
    let stamp = stamp_at(offset, at);
    if is_action(text) {
        out.extend_from_slice(ACTION_MARK)?;
        out.extend_from_slice(&stamp)?;
        out.extend_from_slice(rest_from(text, ACTION_MARK.len()))?;
    } else {
        out.extend_from_slice(&stamp)?;
        out.extend_from_slice(text)?;
    }
    Ok(())
}

/// The time of day at a moment as it is written before a text.
fn stamp_at(offset: Offset, at: Moment) -> [u8; STAMP_LEN]
    ensures { result ≡ stamp (second_of_day offset at) }
{
    stamp_of(clock(offset, at))
}

/// What the clock shows at a moment.
fn clock(offset: Offset, at: Moment) -> Time
    ensures { time_seconds result ≡ second_of_day offset at }
{
    let minutes = offset.above_least() as i32 - 1439;
    let timestamp = Timestamp::from_second(at.seconds() as i64).unwrap();
    let zone = tz::Offset::from_seconds(minutes * 60).unwrap();
    zone.to_datetime(timestamp).time()
}

/// A time of day as it is written before a text.
fn stamp_of(time: Time) -> [u8; STAMP_LEN]
    ensures { result ≡ stamp (time_seconds time) }
{
    let hour = time.hour() as u8;
    let minute = time.minute() as u8;
    let second = time.second() as u8;
    [
        b'[',
        tens(hour),
        ones(hour),
        b':',
        tens(minute),
        ones(minute),
        b':',
        tens(second),
        ones(second),
        b']',
        b' ',
    ]
}

/// The first of a number's two digits.
fn tens(n: u8) -> u8
    requires { n < 100 }
    ensures { result ≡ 48 + n / 10 }
{
    b'0' + n / 10
}

/// The second of a number's two digits.
fn ones(n: u8) -> u8
    ensures { result ≡ 48 + n % 10 }
{
    b'0' + n % 10
}

/// The bytes from a place on.
fn rest_from(text: &[u8], place: usize) -> &[u8]
    ensures { result.now ≡ drop place text.now }
{
    if text.len() < place {
        &[]
    } else {
        &text[place..]
    }
}
