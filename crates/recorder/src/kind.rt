ghost use Rattle.std.specs.Prelude.{◌≡◌};
ghost use Rattle.recorder.specs.Kinds.{kind_of_word, word};

use irc_line::is_same;

/// The kinds of events by the word with which their lines begin.
#[derive(Clone, Copy, Debug, PartialEq, Eq)]
pub enum Kind {
    Timeout,
    Beat,
    Deliver,
    Ask,
    Opened,
    Closed,
    Heard,
    Claim,
    Apply,
    Look,
}

impl Kind {
    /// The word with which lines of this kind begin.
    pub fn word(self) -> &'static [u8]
        ensures { result.now ≡ word self }
    {
        match self {
            Kind::Timeout => b"timeout",
            Kind::Beat => b"beat",
            Kind::Deliver => b"deliver",
            Kind::Ask => b"ask",
            Kind::Opened => b"opened",
            Kind::Closed => b"closed",
            Kind::Heard => b"heard",
            Kind::Claim => b"claim",
            Kind::Apply => b"apply",
            Kind::Look => b"look",
        }
    }

    /// The kind of this word, if any.
    pub fn of_word(bytes: &[u8]) -> Option<Kind>
        ensures { result ≡ kind_of_word bytes.now }
    {
        if is_same(bytes, b"timeout") {
            Some(Kind::Timeout)
        } else if is_same(bytes, b"beat") {
            Some(Kind::Beat)
        } else if is_same(bytes, b"deliver") {
            Some(Kind::Deliver)
        } else if is_same(bytes, b"ask") {
            Some(Kind::Ask)
        } else if is_same(bytes, b"opened") {
            Some(Kind::Opened)
        } else if is_same(bytes, b"closed") {
            Some(Kind::Closed)
        } else if is_same(bytes, b"heard") {
            Some(Kind::Heard)
        } else if is_same(bytes, b"claim") {
            Some(Kind::Claim)
        } else if is_same(bytes, b"apply") {
            Some(Kind::Apply)
        } else if is_same(bytes, b"look") {
            Some(Kind::Look)
        } else {
            None
        }
    }
}
