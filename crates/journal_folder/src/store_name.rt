//! The name of a store.
ghost use Rattle.std.specs.Prelude.{◌≡◌, ℕ, Some};

use std::rt::Clock;
use std::time::{Duration, SystemTime, UNIX_EPOCH};
use store_setup::StoreSetup;
use wire_bytes::{LAST_NUMBER, Number};

/// A name for a store that has none yet: the present moment, in microseconds since 1970. No user makes two stores in
/// the same microsecond.
pub fn new_name(rt: &impl Clock) -> Number {
    let Ok(time) = SystemTime::now(rt) else {
        return Number::new(0);
    };
    match time.duration_since(UNIX_EPOCH) {
        Ok(since) => name_at(since),
        Err(_) => Number::new(0),
    }
}

/// The name that a store has once its log is renewed: its own, if it has one.
pub fn name_behind(rt: &impl Clock, store: &StoreSetup) -> Number
    ensures { (name : ℕ) → store.now.name ≡ Some name → result ≡ name }
{
    match store.name {
        Some(name) => name,
        None => new_name(rt),
    }
}

/// The name of a store that is made this long after 1970.
fn name_at(since: Duration) -> Number {
    let micros = since
        .as_secs()
        .saturating_mul(1_000_000)
        .saturating_add(since.subsec_micros() as u64);
    Number::new(micros.min(LAST_NUMBER))
}
