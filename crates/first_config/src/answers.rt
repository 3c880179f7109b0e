//! What differs from one person to the next.

use std::alloc::{AllocError, Global};

/// The nick of a person who gives none.
pub const NICK: &str = "me";

/// The server of a person who names none: on this machine, or the end of a tunnel.
pub const SERVER: &str = "127.0.0.1:6667";

/// The channel of a person who names none.
pub const CHANNEL: &str = "#hukbarg";

/// The answers of a person for a first configuration.
#[derive(Drop)]
pub struct Answers {
    pub nick: String,
    /// As `127.0.0.1:6667`.
    pub server: String,
    pub channels: Vec<String>,
}

impl Answers {
    /// The answers in these words: a nick, a server, and any number of channels. Those that are missing are the
    /// defaults.
    pub fn of(alloc: Global, words: Vec<String>) -> Result<Answers, AllocError> {
        let mut words = words.into_iter();
        let nick = or_else(alloc, words.next(), NICK)?;
        let server = or_else(alloc, words.next(), SERVER)?;
        let mut channels = Vec::new(alloc);
        for channel in words {
            channels.push(channel)?;
        }
        if channels.is_empty() {
            channels.push(String::from_str(alloc, CHANNEL)?)?;
        }
        Ok(Answers {
            nick,
            server,
            channels,
        })
    }
}

/// A word, or another one where it is missing or empty.
fn or_else(alloc: Global, word: Option<String>, other: &str) -> Result<String, AllocError> {
    match word {
        Some(word) if !word.as_str().is_empty() => Ok(word),
        _ => String::from_str(alloc, other),
    }
}
