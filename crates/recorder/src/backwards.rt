//! Texts that are written backwards from their end: each call writes before an end, and returns where its text begins.
ghost use Rattle.std.specs.Prelude.{◌≡◌, ◌≤◌, ◌+◌, ◌++◌, ◌∷◌, decimal, drop, length};
ghost use Rattle.wire_bytes.specs.Texts.{origin_text};
ghost use Rattle.recorder.specs.EffectWords.{to_origin};

use itoa::write_digits;
use wire_bytes::Origin;

/// The most digits of a number.
pub const MOST_DIGITS: usize = 20;

/// The most bytes of an origin: three numbers, and a dot between each two.
const MOST_OF_ORIGIN: usize = 62;

/// The most letters of a word.
pub const MOST_LETTERS: usize = 6;

/// The most bytes of a word and an origin, with the space between them.
pub const MOST_TO_ORIGIN: usize = 69;

/// Writes a byte.
pub fn write_byte(byte: u8, text: &mut [u8], end: usize) -> usize
    requires { (1 ≤ end) × (end ≤ length text.old) }
    ensures start { result + 1 ≡ end }
    ensures written { drop result text.new ≡ byte ∷ drop end text.old }
{
    text[end - 1] = byte;
    end - 1
}

/// Writes a number in decimal digits.
pub fn write_number(number: u64, text: &mut [u8], end: usize) -> usize
    requires { (MOST_DIGITS ≤ end) × (end ≤ length text.old) }
    ensures start { (result ≤ end) × (end ≤ result + MOST_DIGITS) }
    ensures written { drop result text.new ≡ decimal number ++ drop end text.old }
{
    write_digits(number, text, end)
}

/// Writes an origin.
fn write_origin(origin: Origin, text: &mut [u8], end: usize) -> usize
    requires { (MOST_OF_ORIGIN ≤ end) × (end ≤ length text.old) }
    ensures start { (result ≤ end) × (end ≤ result + MOST_OF_ORIGIN) }
    ensures written { drop result text.new ≡ origin_text origin ++ drop end text.old }
{
    let client = write_number(origin.client(), text, end);
    let dot = write_byte(b'.', text, client);
    let boot = write_number(origin.boot(), text, dot);
    let dot = write_byte(b'.', text, boot);
    write_number(origin.node() as u64, text, dot)
}

/// Writes a word.
fn write_word(word: &[u8], text: &mut [u8], end: usize) -> usize
    requires { (length word.now ≤ end) × (end ≤ length text.old) }
    ensures start { result + length word.now ≡ end }
    ensures written { drop result text.new ≡ word.now ++ drop end text.old }
{
    let start = end - word.len();
    text[start..end].copy_from_slice(word);
    start
}

/// Writes a word and an origin, a space between them.
pub fn write_to_origin(word: &[u8], origin: Origin, text: &mut [u8], end: usize) -> usize
    requires word { length word.now ≤ MOST_LETTERS }
    requires room { (MOST_TO_ORIGIN ≤ end) × (end ≤ length text.old) }
    ensures start { result ≤ end }
    ensures written { drop result text.new ≡ to_origin word.now origin ++ drop end text.old }
{
    let start = write_origin(origin, text, end);
    let space = write_byte(b' ', text, start);
    write_word(word, text, space)
}
