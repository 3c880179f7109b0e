//! Which lines are printed.
ghost use Rattle.std.specs.Prelude.{◌≡◌, IfOk};
ghost use Rattle.chat_log.specs.Chats.{is_chat, is_shown};

use buffer_machine::{has_command, is_message};
use irc_line::{Line, Name};
use std::alloc::{AllocError, Global};
use wire_bytes::Copied;

/// Which commands' lines are printed.
#[derive(Clone, Copy, Debug, Drop, PartialEq, Eq)]
pub enum Extent {
    /// What people say and do: messages, notices, joins, parts, quits, kicks, nicks, topics and modes.
    Chat,
    /// That, and all other lines of the server.
    All,
}

impl Extent {
    /// Whether a line is within it.
    pub fn has(self, line: &Line) -> bool
        ensures { result ≡ is_shown self line.now }
    {
        match self {
            Extent::Chat => is_chat(line),
            Extent::All => true,
        }
    }
}

/// Which lines are printed: those of an extent that concern a target; without a target all of that extent.
#[derive(Drop)]
pub struct Choice {
    pub extent: Extent,
    pub target: Option<Name>,
}

impl Copied for Choice {
    fn copy(&self, alloc: Global) -> Result<Self, AllocError> {
        let target = match &self.target {
            None => None,
            Some(name) => Some(name.copy(alloc)?),
        };
        Ok(Choice {
            extent: self.extent,
            target,
        })
    }
}

/// Whether a line is what people say and do.
fn is_chat(line: &Line) -> bool
    ensures { result ≡ is_chat line.now }
{
    is_message(line)
        || has_command(line, b"JOIN")
        || has_command(line, b"PART")
        || has_command(line, b"QUIT")
        || has_command(line, b"KICK")
        || has_command(line, b"NICK")
        || has_command(line, b"TOPIC")
        || has_command(line, b"MODE")
}
