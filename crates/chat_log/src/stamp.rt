//! The date and the time of day of a moment, in UTC.
ghost use Rattle.std.specs.Prelude.{◌≡◌, ◌+◌, ◌/◌, ◌%◌, ◌<◌, ◌++◌, OnOk, pos, ℕ};
ghost use Rattle.jiff_core.specs.Date.{epoch_day};
ghost use Rattle.jiff_core.specs.Time.{time_seconds};
ghost use Rattle.chat_log.specs.Moments.{date_text, day_after, stamp, time_text};

use jiff::civil::{Date, DateTime, Time};
use jiff::{Timestamp, tz};
use std::alloc::AllocError;
use wire_bytes::Moment;

/// Appends the date and the time of day of a moment, with a space after each.
pub fn push_stamp(out: &mut Vec<u8>, at: Moment) -> Result<(), AllocError>
    ensures { OnOk result (out.new.items ≡ out.old.items ++ stamp at) }
{
    let shown = clock(at);
    out.extend_from_slice(&date_bytes(shown.date()))?;
    out.push(b' ')?;
    out.extend_from_slice(&time_bytes(shown.time()))?;
    out.push(b' ')?;
    Ok(())
}

/// What a clock shows in UTC at a moment.
fn clock(at: Moment) -> DateTime
    ensures date { epoch_day result.date ≡ pos (at / 86400) }
    ensures time { time_seconds result.time ≡ at % 86400 }
{
    let timestamp = Timestamp::from_second(at.seconds() as i64).unwrap();
    tz::Offset::UTC.to_datetime(timestamp)
}

/// A date from 1970 on, as it is printed.
fn date_bytes(date: Date) -> [u8; 10]
    requires { (n : ℕ) × (epoch_day date ≡ pos n) }
    ensures { (n : ℕ) → epoch_day date ≡ pos n
        → let t = day_after n in result ≡ date_text t.year t.month t.day }
{
    let year = date.year() as u16;
    let month = date.month() as u8;
    let day = date.day() as u8;
    let (century, year) = ((year / 100) as u8, (year % 100) as u8);
    [
        tens(century),
        ones(century),
        tens(year),
        ones(year),
        b'-',
        tens(month),
        ones(month),
        b'-',
        tens(day),
        ones(day),
    ]
}

/// A time of day, as it is printed.
fn time_bytes(time: Time) -> [u8; 8]
    ensures { result ≡ time_text (time_seconds time) }
{
    let hour = time.hour() as u8;
    let minute = time.minute() as u8;
    let second = time.second() as u8;
    [
        tens(hour),
        ones(hour),
        b':',
        tens(minute),
        ones(minute),
        b':',
        tens(second),
        ones(second),
    ]
}

/// The first of a number's two digits.
fn tens(n: u8) -> u8
    requires { n < 100 }
    ensures { result ≡ 48 + n / 10 }
{
    b'0' + n / 10
}

/// The second of a number's two digits.
fn ones(n: u8) -> u8
    requires { n < 100 }
    ensures { result ≡ 48 + n % 10 }
{
    b'0' + n % 10
}
