ghost use Rattle.std.specs.Prelude.{◌≡◌};
ghost use Rattle.bouncer_config.specs.Texts.{level_of};

use irc_line::is_same;

/// How much a bouncer logs on standard error.
#[derive(Clone, Copy, Debug, PartialEq, Eq)]
pub enum LogLevel {
    Quiet,
    Info,
    Debug,
}

impl LogLevel {
    /// The level of this word: `quiet`, `info` or `debug`.
    pub fn from_text(text: &[u8]) -> Option<LogLevel>
        ensures { result ≡ level_of text.now }
    {
        if is_same(text, b"quiet") {
            Some(LogLevel::Quiet)
        } else if is_same(text, b"info") {
            Some(LogLevel::Info)
        } else if is_same(text, b"debug") {
            Some(LogLevel::Debug)
        } else {
            None
        }
    }
}
