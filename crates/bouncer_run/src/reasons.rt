//! Why a server refuses a session, as it says.
use crate::edge_news::EdgeNews;
use std::alloc::{AllocError, Global};
use std::str::from_utf8;

/// The most bytes of a line (RFC 2812, 2.3). A longer line is logged only up to here.
const LONGEST: usize = 512;

/// How much is logged of one connection: otherwise a server that goes on would fill the log.
const MOST_TOLD: u8 = 8;

/// The replies by which a server refuses a nick, a password or a client, before its welcome: a bad
/// nick, one in use, one that can't be had now, a wrong password, a ban.
const REFUSALS: [&[u8]; 5] = [b"432", b"433", b"437", b"464", b"465"];

/// What a server says before it closes a connection.
const ERROR: &[u8] = b"ERROR";

/// The reply by which a server takes a session.
const WELCOME: &[u8] = b"001";

/// Listens to what a server says, for the reason why it refuses.
#[derive(Drop)]
pub struct Reasons {
    alloc: Global,
    /// The line that comes, as far as it came.
    line: Vec<u8>,
    is_welcomed: bool,
    told: u8,
}

impl Reasons {
    /// Of a new connection.
    pub fn new(alloc: Global) -> Reasons {
        Reasons {
            alloc,
            line: Vec::new(alloc),
            is_welcomed: false,
            told: 0,
        }
    }

    /// Bytes came, in pieces of any size. Adds what is to be logged of the lines that they end.
    pub fn hear(&mut self, bytes: &[u8], news: &mut Vec<EdgeNews>) -> Result<(), AllocError> {
        for (index, part) in bytes.split(|byte| *byte == b'\n').enumerate() {
            if index > 0 {
                self.end(news)?;
            }
            self.add(part)?;
        }
        Ok(())
    }

    /// A line goes on.
    fn add(&mut self, part: &[u8]) -> Result<(), AllocError> {
        let room = LONGEST.saturating_sub(self.line.len());
        let (part, _) = part.split_at(room.min(part.len()));
        self.line.extend_from_slice(part)
    }

    /// A line ends, or the connection does. It is to be logged if it says why a session is refused.
    pub fn end(&mut self, news: &mut Vec<EdgeNews>) -> Result<(), AllocError> {
        if self.is_refusal() && self.told < MOST_TOLD {
            self.told += 1;
            let text = shown(self.alloc, self.line.as_slice())?;
            news.push(EdgeNews::Refused(text))?;
        }
        self.line.clear();
        Ok(())
    }

    /// Whether the line says why a session is refused, or ends it.
    fn is_refusal(&mut self) -> bool {
        let command = command_of(self.line.as_slice());
        self.is_welcomed = self.is_welcomed || command == WELCOME;
        command.eq_ignore_ascii_case(ERROR) || (!self.is_welcomed && REFUSALS.contains(&command))
    }
}

/// The first word of a line, after its prefix. More than one space may be between two words.
fn command_of(line: &[u8]) -> &[u8] {
    let mut words = line
        .split(|byte| *byte == b' ' || *byte == b'\r')
        .filter(|word| !word.is_empty());
    let first = words.next().unwrap_or(b"");
    if first.first() != Some(&b':') {
        return first;
    }
    words.next().unwrap_or(b"")
}

/// A line as a text without its control characters.
pub fn shown(alloc: Global, line: &[u8]) -> Result<String, AllocError> {
    let mut text = String::new(alloc);
    for letter in from_utf8(line).unwrap_or("a line that is no text").chars() {
        if !letter.is_control() {
            text.push(letter)?;
        }
    }
    Ok(text)
}
