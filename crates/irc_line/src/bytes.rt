//! Tests of bytes that names, texts and lines share.
ghost use Rattle.std.specs.Prelude.{◌≡◌, ◌==◌};
ghost use Rattle.std.specs.List.{list_any};
ghost use Rattle.irc_line.specs.Names.{first_is, is_content_byte, same_bytes};

/// Whether two byte strings are the same, without folding.
pub fn is_same(a: &[u8], b: &[u8]) -> bool
    ensures { result ≡ same_bytes a.now b.now }
{
    a == b
}

pub fn begins_with(bytes: &[u8], first: u8) -> bool
    ensures { result ≡ first_is first bytes.now }
{
    match bytes {
        [] => false,
        [byte, ..] => *byte == first,
    }
}

pub fn has_space(bytes: &[u8]) -> bool
    ensures { result ≡ list_any (λ b. b == 32) bytes.now }
{
    bytes.contains(&b' ')
}

/// Whether a content may hold this byte: all but NUL, CR and LF (RFC 2812, 2.3.1).
pub fn is_allowed(byte: u8) -> bool
    ensures { result ≡ is_content_byte byte }
{
    byte != 0 && byte != b'\r' && byte != b'\n'
}
