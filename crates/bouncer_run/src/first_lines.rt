//! The lines that each session sends first, as the driver takes them.

use irc_line::{Item, Line, Splitter, Text};
use std::alloc::{AllocError, Global};

/// The line that a text is, if it is one.
fn line_of(alloc: Global, text: &Text) -> Result<Option<Line>, AllocError> {
    let mut bytes = Vec::from_slice(alloc, text.as_bytes())?;
    bytes.push(b'\n')?;
    let items = Splitter::new(alloc).feed(&bytes)?;
    match items.into_iter().next() {
        Some(Item::Got(line)) => Ok(Some(line)),
        _ => Ok(None),
    }
}

/// The lines of texts, in their order. A text that is no line is left out: reading a configuration
/// refuses it.
pub fn first_lines(alloc: Global, texts: &[Text]) -> Result<Vec<Line>, AllocError> {
    let mut lines = Vec::new(alloc);
    for text in texts {
        if let Some(line) = line_of(alloc, text)? {
            lines.push(line)?;
        }
    }
    Ok(lines)
}

/// Whether one of these texts is no line.
pub fn has_unspoken(alloc: Global, texts: &[Text]) -> Result<bool, AllocError> {
    for text in texts {
        if line_of(alloc, text)?.is_none() {
            return Ok(true);
        }
    }
    Ok(false)
}
