ghost use Rattle.std.specs.Prelude.{◌≡◌};
ghost use Rattle.bouncer_config.specs.Texts.{input_end_of};

use irc_line::is_same;

/// What the end of standard input does.
#[derive(Clone, Copy, Debug, PartialEq, Eq)]
pub enum InputEnd {
    /// It stops the bouncer.
    Stops,
    /// Nothing: standard input is not read.
    Ignored,
}

impl InputEnd {
    /// What the end of standard input does, from this word: `stop` or `ignore`.
    pub fn from_text(text: &[u8]) -> Option<InputEnd>
        ensures { result ≡ input_end_of text.now }
    {
        if is_same(text, b"stop") {
            Some(InputEnd::Stops)
        } else if is_same(text, b"ignore") {
            Some(InputEnd::Ignored)
        } else {
            None
        }
    }
}
