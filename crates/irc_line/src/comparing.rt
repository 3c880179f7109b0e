//! How bytes are compared with a spelling in place.
ghost use Rattle.std.specs.Prelude.{◌≡◌, map, option_map};
ghost use Rattle.irc_line.specs.Names.{same_bytes};
ghost use Rattle.irc_line.specs.Lines.{lent_prefix, spelled_prefix};
ghost use Rattle.irc_line.specs.Grammar.{upper};
ghost use Rattle.irc_line.specs.Comparing.{behind};

use crate::word::upper_byte;

/// What follows a front, if the bytes begin with it.
pub fn behind<'a>(front: &[u8], bytes: &'a [u8]) -> Option<&'a [u8]>
    ensures { option_map (λ x. x.now) result ≡ behind front.now bytes.now }
{
    bytes.strip_prefix(front)
}

/// What follows the canonical spelling of a prefix, if the bytes begin with it.
pub fn behind_prefix<'a>(prefix: Option<&[u8]>, bytes: &'a [u8]) -> Option<&'a [u8]>
    ensures { lent_prefix result ≡ behind (spelled_prefix (lent_prefix prefix.entry)) bytes.now }
{
    match prefix {
        None => Some(bytes),
        Some(prefix) => behind(b" ", behind(prefix, behind(b":", bytes)?)?),
    }
}

/// What follows a word in upper case, if the bytes begin with it.
pub fn behind_upper<'a>(word: &[u8], bytes: &'a [u8]) -> Option<&'a [u8]>
    ensures { option_map (λ x. x.now) result ≡ behind (map upper word.now) bytes.now }
{
    match word {
        [] => Some(bytes),
        [letter, word @ ..] => match bytes {
            [] => None,
            [byte, bytes @ ..] => if upper_byte(*letter) == *byte {
                behind_upper(word, bytes)
            } else {
                None
            },
        },
    }
}

/// Whether a word is these bytes once it is in upper case.
pub fn is_in_upper(word: &[u8], bytes: &[u8]) -> bool
    ensures { result ≡ same_bytes (map upper word.now) bytes.now }
{
    match word {
        [] => bytes.is_empty(),
        [letter, word @ ..] => match bytes {
            [] => false,
            [byte, bytes @ ..] => upper_byte(*letter) == *byte && is_in_upper(word, bytes),
        },
    }
}
