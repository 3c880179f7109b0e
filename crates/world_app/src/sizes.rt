//! Sizes of groups as they are asked for.
ghost use Rattle.std.specs.Prelude.{decimal};
ghost use Rattle.recorder.specs.Readings.{ReadsAs};
ghost use Rattle.world_app.specs.Worlds.{IsAskable};

use recorder::read_number;

/// The least number with ten digits.
const PAST_DIGITS: u64 = 1_000_000_000;

/// The value of a word of at most nine decimal digits, without a leading zero.
pub fn size_of(word: &str) -> Option<u32>
    ensures { ReadsAs decimal IsAskable word.now result }
{
    let number = read_number(word.as_bytes())?;
    if number < PAST_DIGITS {
        Some(number as u32)
    } else {
        None
    }
}
