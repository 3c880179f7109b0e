//! Words to the bouncer that make no request to the buffers.
ghost use Rattle.std.specs.Prelude.{◌≡◌, map};
ghost use Rattle.client_gate.specs.StatusWords.{said_by, said_by_one, said_by_two};

use crate::status::is_spelled;

/// What a client says to the bouncer in words that make no request to the buffers. The gate answers that it knows no
/// such command; whoever runs the gate may say more.
#[derive(Clone, Copy, Debug, PartialEq, Eq)]
pub enum StatusWord {
    /// It asks which words there are.
    Help,
    /// It asks for the state of the bouncer.
    Status,
    /// It asks for the clients.
    Clients,
    /// It asks to drop all lines that wait to go to the server.
    DropWaiting,
    /// The words are not known.
    Unknown,
}

impl StatusWord {
    /// The meaning of such words.
    pub(crate) fn of_words(words: &[&[u8]]) -> StatusWord
        ensures { result ≡ said_by (map (λ x. x.now) words.now) }
    {
        match words {
            [word] => StatusWord::of_one(*word),
            [word, argument] => StatusWord::of_two(*word, *argument),
            _ => StatusWord::Unknown,
        }
    }

    /// The meaning of one word.
    fn of_one(word: &[u8]) -> StatusWord
        ensures { result ≡ said_by_one word.now }
    {
        if is_spelled(word, b"HELP") {
            StatusWord::Help
        } else if is_spelled(word, b"STATUS") {
            StatusWord::Status
        } else if is_spelled(word, b"CLIENTS") {
            StatusWord::Clients
        } else {
            StatusWord::Unknown
        }
    }

    /// The meaning of a word with an argument.
    fn of_two(word: &[u8], argument: &[u8]) -> StatusWord
        ensures { result ≡ said_by_two word.now argument.now }
    {
        if is_spelled(word, b"DROP") && is_spelled(argument, b"WAITING") {
            StatusWord::DropWaiting
        } else {
            StatusWord::Unknown
        }
    }
}
