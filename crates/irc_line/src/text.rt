ghost use Rattle.std.specs.Prelude.{◌≡◌, false, IfOk, IsTrue, MatchOption};
ghost use Rattle.std.specs.List.{list_all};
ghost use Rattle.irc_line.specs.Names.{IsPassed, action_mark, begins_with, is_content_byte, is_text};

use crate::bytes::{is_allowed, is_same};
use crate::limits::CONTENT_LIMIT;
use std::alloc::{AllocError, Global};
use std::marker::Model;

/// A text that a line may carry: at most 510 bytes, none of them NUL, CR or LF.
#[derive(Drop)]
pub struct Text {
    bytes: Vec<u8>,
}

impl Model for Text {
    ghost use Rattle.std.specs.Prelude.{ℕ, List, IsTrue};
    ghost use Rattle.irc_line.specs.Names.{is_text};

    ghost Value = { List ℕ };

    ghost view = { λ t. t.bytes.items };

    ghost invariant = { λ t. IsTrue (is_text t.bytes.items) };
}

impl Text {
    /// The text of these bytes, if they are one.
    pub fn from_bytes(bytes: Vec<u8>) -> Option<Text>
        ensures { MatchOption result (is_text bytes.items ≡ false) (IsPassed is_text bytes.items) }
    {
        if is_a_text(bytes.as_slice()) {
            Some(Text { bytes })
        } else {
            None
        }
    }

    pub fn as_bytes(&self) -> &[u8]
        ensures value { result.now ≡ self.now }
        ensures text { IsTrue (is_text self.now) }
    {
        self.bytes.as_slice()
    }

    pub fn copy(&self, alloc: Global) -> Result<Text, AllocError>
        ensures { IfOk result (λ t. t ≡ self.now) }
    {
        Ok(Text {
            bytes: Vec::from_slice(alloc, self.as_bytes())?,
        })
    }
}

fn all_allowed(bytes: &[u8]) -> bool
    ensures { result ≡ list_all is_content_byte bytes.now }
{
    bytes.iter().all(|byte| is_allowed(*byte))
}

/// Whether these bytes are a text.
#[tactic(auto, unfolding(crate::specs::Names::is_text))]
pub fn is_a_text(bytes: &[u8]) -> bool
    ensures { result ≡ is_text bytes.now }
{
    bytes.len() <= CONTENT_LIMIT && all_allowed(bytes)
}

/// What an ACTION begins with.
pub const ACTION_MARK: &[u8] = b"\x01ACTION ";

/// Whether a text is an ACTION.
pub fn is_action(text: &[u8]) -> bool
    ensures { result ≡ begins_with text.now action_mark }
{
    text.len() >= ACTION_MARK.len() && is_same(&text[..ACTION_MARK.len()], ACTION_MARK)
}
