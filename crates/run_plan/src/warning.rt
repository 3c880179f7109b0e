//! Parts of a configuration that are allowed but of no use.
ghost use Rattle.std.specs.Prelude.{◌≡◌, [], ◌∷◌};
ghost use Rattle.std.specs.List.{list_all};
ghost use Rattle.run_plan.specs.Warnings.{are_too_seldom, begins_nicks, is_of_nicks, is_taken_somewhere, is_warned};
ghost use Rattle.run_plan.specs.declared.warning.Warning.TheVariants.{BeatsTooSeldom, NickIsTakenNowhere, PasswordIsKnown};

use bouncer_config::Config;
use irc_line::is_same;
use std::fmt;

/// How many times a leader must be heard before the others consider it gone: one that is heard once
/// may be late.
const LEAST_BEATS: u32 = 3;

/// The password of the example.
const KNOWN_PASSWORD: [u8; 13] = *b"correct-horse";

/// A part of a configuration that is allowed but of no use.
#[derive(Clone, Copy, Debug, PartialEq, Eq)]
pub enum Warning {
    /// Leaders are heard too rarely to last.
    BeatsTooSeldom,
    /// No server accepts the nick: RFC 2812, section 2.3.1, says which bytes a nick may have.
    NickIsTakenNowhere,
    /// The clients' password is that of the example.
    PasswordIsKnown,
}

impl fmt::Display for Warning {
    fn fmt<W: fmt::Write>(&self, f: &mut fmt::Formatter<W>) -> fmt::Result {
        f.write_str(match self {
            Warning::BeatsTooSeldom => {
                "timeout_ms is less than three times beat_ms: no leader may last"
            }
            Warning::NickIsTakenNowhere => {
                "nick: servers refuse it: it has to begin with a letter or one of []\\`_^{|}, and the rest may also be digits and -"
            }
            Warning::PasswordIsKnown => {
                "password: it is that of the example, which everybody knows: choose one of your own"
            }
        })
    }
}

impl Warning {
    /// All warnings about a configuration.
    pub const fn all() -> [Warning; 3]
        ensures { result ≡ BeatsTooSeldom ∷ NickIsTakenNowhere ∷ PasswordIsKnown ∷ [] }
    {
        [
            Warning::BeatsTooSeldom,
            Warning::NickIsTakenNowhere,
            Warning::PasswordIsKnown,
        ]
    }

    /// Whether this warning applies to a configuration.
    pub fn is_of(self, config: &Config) -> bool
        ensures { result ≡ is_warned self config.now }
    {
        match self {
            Warning::BeatsTooSeldom => are_too_seldom(config.beat_ms, config.timeout_ms),
            Warning::NickIsTakenNowhere => !is_taken_somewhere(config.setup.nick().as_bytes()),
            Warning::PasswordIsKnown => is_same(config.password.as_bytes(), &KNOWN_PASSWORD),
        }
    }
}

/// Whether a leader with this interval of beats, in milliseconds, is considered gone too soon.
fn are_too_seldom(beat_ms: u16, timeout_ms: u16) -> bool
    ensures { result ≡ are_too_seldom beat_ms timeout_ms }
{
    (timeout_ms as u32) < LEAST_BEATS * beat_ms as u32
}

/// Whether some server accepts a nick.
fn is_taken_somewhere(nick: &[u8]) -> bool
    ensures { result ≡ is_taken_somewhere nick.now }
{
    match nick {
        [] => false,
        [first, rest @ ..] => begins_nicks(*first) && are_of_nicks(rest),
    }
}

/// Whether a nick may have all these bytes after its first.
fn are_of_nicks(bytes: &[u8]) -> bool
    ensures { result ≡ list_all is_of_nicks bytes.now }
{
    bytes.iter().all(|byte| is_of_nicks(*byte))
}

/// Whether a nick may begin with a byte.
fn begins_nicks(byte: u8) -> bool
    ensures { result ≡ begins_nicks byte }
{
    // RFC 2812 has only the first range; servers that allow more allow bytes past 127
    (b'A' <= byte && byte <= b'}') || 128 <= byte
}

/// Whether a nick may have a byte after its first.
fn is_of_nicks(byte: u8) -> bool
    ensures { result ≡ is_of_nicks byte }
{
    begins_nicks(byte) || (b'0' <= byte && byte <= b'9') || byte == b'-'
}
