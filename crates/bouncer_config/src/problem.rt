use crate::key::{Key, Kind};
use buffer_commands::SetupFault;
use std::alloc::AllocError;
use std::fmt;

/// What is wrong with a configuration, or that memory ran out while it was read.
#[derive(Debug, Drop)]
pub enum Problem {
    /// Memory ran out, which means nothing for the text.
    Memory,
    /// The text is no TOML, or no UTF-8.
    NotToml,
    /// No key has this name.
    Unknown(String),
    /// This key is needed, and it is missing.
    Missing(Key),
    /// The value of this key is not the text, number, truth value or list that it must be.
    Kind(Key),
    /// The value of this key is not allowed.
    Refused(Key),
    /// The addresses to listen at are not three, five or seven.
    ListenCount,
    /// Two addresses to listen at are the same, or one of them is the upstream server's.
    ListenTwice,
    /// There is more than one folder, and not as many as addresses to listen at.
    StoreCount,
    /// Two folders are the same.
    StoreTwice,
    /// There are more than 100 channels.
    ChannelCount,
    /// No setup has these channels: one occurs twice among them.
    Setup(SetupFault),
}

impl From<AllocError> for Problem {
    ghost use Rattle.std.specs.Prelude.{◌≡◌};
    ghost use Rattle.bouncer_config.specs.declared.problem.Problem.TheVariants.{Memory};

    ghost from_gives = { λ _ p. p ≡ Memory };

    fn from(_: AllocError) -> Problem {
        Problem::Memory
    }
}

impl Problem {
    /// The word of the key that has the fault, or the name that no key has.
    pub(crate) fn key_text(&self) -> Option<&str> {
        match self {
            Problem::Memory | Problem::NotToml => None,
            Problem::Unknown(name) => Some(name.as_str()),
            Problem::Missing(key) | Problem::Kind(key) | Problem::Refused(key) => Some(key.text()),
            Problem::ListenCount | Problem::ListenTwice => Some("listen"),
            Problem::StoreCount | Problem::StoreTwice => Some("store"),
            Problem::ChannelCount | Problem::Setup(_) => Some("channels"),
        }
    }
}
