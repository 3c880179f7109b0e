//! The limits of lines and names.
ghost use Rattle.std.specs.Prelude.{◌≡◌, ◌+◌};
ghost use Rattle.irc_line.specs.Limits.{content_limit, held_limit, line_limit, name_limit};
ghost use Rattle.irc_line.specs.Limits.{parameter_limit};

/// The most bytes of a content: a line as it comes or leaves, without its CR LF (RFC 2812, 2.3).
// with CR LF it has 512
pub const CONTENT_LIMIT: usize = 510;

/// The most bytes of a line's canonical spelling.
// one more than a content, since the last parameter may get a colon
pub const LINE_LIMIT: usize = 511;

/// The most parameters of a line (RFC 2812, 2.3).
pub const PARAMETER_LIMIT: usize = 15;

/// The most bytes of a name: of a nick, a channel, or what a client calls itself.
// servers allow far shorter ones
pub const NAME_LIMIT: usize = 64;

/// The most bytes held of a content that has not ended.
// a content, a CR, and the byte that shows that it is too long
pub const HELD_LIMIT: usize = 512;

/// The limits by number, as the contract of a function that does nothing. With its CR LF a content has 512 bytes.
pub fn limits_of_lines()
    ensures content { content_limit + 2 ≡ 512 }
    ensures spelling { line_limit ≡ content_limit + 1 }
    ensures held { held_limit ≡ content_limit + 2 }
    ensures parameters { parameter_limit ≡ 15 }
    ensures name { name_limit ≡ 64 }
{}
