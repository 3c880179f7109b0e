//! Bodies, lines and names as words.
ghost use Rattle.std.specs.Prelude.{◌≡◌, ◌≢◌, false, IfOk, IsTrue};
ghost use Rattle.irc_line.specs.Lines.{spelling};
ghost use Rattle.hex.specs.Hex.{encode_lower};
ghost use Rattle.wire_bytes.specs.Contents.{FitsLine};
ghost use Rattle.recorder.specs.Readings.{FitsDigits, IsNameText, ReadsAs, digits_of, own_text};

use buffer_commands::WireLine;
use hex::FromHexError;
use irc_line::{Line, Name};
use std::alloc::{AllocError, Global};
use wire_bytes::{Wire, WireFault};

/// The body of these lower-case hex digits, with nothing before or after it.
pub fn read_body<B: Wire>(alloc: Global, digits: &[u8]) -> Result<Option<B>, AllocError>
    ensures { IfOk result
        (ReadsAs (digits_of B.spelled) (FitsDigits B.fits B.spelled) digits.now) }
{
    let bytes = match hex::decode(alloc, digits) {
        Ok(bytes) => bytes,
        Err(FromHexError::OutOfMemory) => return Err(AllocError),
        Err(FromHexError::OddLength) => return Ok(None),
        Err(FromHexError::InvalidStringLength) => return Ok(None),
        Err(FromHexError::InvalidHexCharacter { .. }) => return Ok(None),
    };
    // Capitals are decoded too, so the bytes are written again and compared.
    if !is_written(alloc, &bytes, digits)? {
        return Ok(None);
    }
    read_whole(alloc, &bytes)
}

/// Whether this is how bytes are written in digits.
fn is_written(alloc: Global, bytes: &[u8], digits: &[u8]) -> Result<bool, AllocError>
    ensures same { IfOk result (λ b. IsTrue b → encode_lower bytes.now ≡ digits.now) }
    ensures other { IfOk result (λ b. b ≡ false → encode_lower bytes.now ≢ digits.now) }
{
    let written = hex::encode(alloc, bytes)?;
    Ok(written.as_bytes() == digits)
}

/// The value that bytes spell, with nothing after it.
fn read_whole<B: Wire>(alloc: Global, bytes: &[u8]) -> Result<Option<B>, AllocError>
    ensures { IfOk result (ReadsAs B.spelled B.fits bytes.now) }
{
    match B::take(alloc, bytes) {
        Ok((body, len)) => if len == bytes.len() {
            Ok(Some(body))
        } else {
            Ok(None)
        },
        Err(WireFault::Memory) => Err(AllocError),
        Err(WireFault::Short) => Ok(None),
        Err(WireFault::Bad(_)) => Ok(None),
    }
}

/// The line, of at most 511 bytes, of which this is the canonical spelling.
pub fn read_line(alloc: Global, bytes: &[u8]) -> Result<Option<WireLine>, AllocError>
    ensures { IfOk result (ReadsAs spelling FitsLine bytes.now) }
{
    match Line::from_spelling(alloc, bytes)? {
        Some(line) => Ok(WireLine::from_line(line)),
        None => Ok(None),
    }
}

/// The name of these bytes.
pub fn read_name(alloc: Global, bytes: &[u8]) -> Result<Option<Name>, AllocError>
    ensures { IfOk result (ReadsAs own_text IsNameText bytes.now) }
{
    Ok(Name::from_bytes(Vec::from_slice(alloc, bytes)?))
}
