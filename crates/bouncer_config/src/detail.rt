//! More about a problem: which element it is, and what to do.
use crate::key::Key;
use crate::lines::refused_element;
use crate::nearest::nearest_key;
use crate::problem::Problem;
use irc_line::{NAME_LIMIT, is_a_name};
use std::alloc::Global;
use std::fmt;
use std::ops::Range;
use toml::Table;
use toml::de::Error;

/// More about a problem.
#[derive(Debug, Drop)]
pub enum Detail {
    /// For a text that is no TOML: what was expected there.
    Expected(String),
    /// For a text that is no TOML: that there is a text without quotes.
    Unquoted,
    /// For a list: the element that is not allowed in it.
    Element(String),
    /// For a name that no key has: the key to which it is near.
    Near(Key),
}

/// More about a problem of a table, if there is memory for it.
pub(crate) fn detail_of(alloc: Global, table: &Table, problem: &Problem) -> Option<Detail> {
    match problem {
        Problem::Unknown(name) => Some(Detail::Near(nearest_key(alloc, name.as_str())?)),
        // a line that a session sends first may contain a password
        Problem::Refused(Key::OnConnect) => None,
        Problem::Refused(_) => {
            let element = refused_element(table, problem)?;
            Some(Detail::Element(String::from_str(alloc, element).ok()?))
        }
        _ => None,
    }
}

/// More about a text that is no TOML, if there is memory for it.
pub(crate) fn detail_of_error(
    alloc: Global,
    text: &[u8],
    error: &Error,
    span: &Range<usize>,
) -> Option<Detail> {
    if error.message().starts_with("invalid value") && is_unquoted(text, span) {
        return Some(Detail::Unquoted);
    }
    Some(Detail::Expected(String::from_str(alloc, error.message()).ok()?))
}

/// Whether there is a text without quotes at a place: neither nothing nor a number.
fn is_unquoted(text: &[u8], span: &Range<usize>) -> bool {
    let start = span.start.min(text.len());
    let end = span.end.max(start.saturating_add(1)).min(text.len());
    if start > end {
        return false;
    }
    text[start..end].iter().any(|byte| is_of_a_text(*byte))
}

/// Whether a byte outside quotes neither belongs to a number nor ends a value.
fn is_of_a_text(byte: u8) -> bool {
    !byte.is_ascii_digit() && !byte.is_ascii_whitespace() && !b"+-_.,#=[]{}".contains(&byte)
}

/// What is wrong with the element of a list, and what to do.
pub(crate) fn write_element<W: fmt::Write>(
    f: &mut fmt::Formatter<W>,
    problem: &Problem,
    element: &str,
) -> fmt::Result {
    match problem {
        Problem::Refused(Key::Listen) => write!(
            f,
            "{element:?} is no address: write 127.0.0.1:PORT, with a PORT from 1 to 65535"
        ),
        _ if lacks_a_mark(element.as_bytes()) => {
            write!(f, "{element:?} is no channel's name: begin it with #")
        }
        _ => write!(
            f,
            "{element:?} is no channel's name: write # and up to 63 bytes without space or comma"
        ),
    }
}

/// Whether these bytes, which are no channel's name, become one with a `#` before them.
fn lacks_a_mark(bytes: &[u8]) -> bool {
    is_a_name(bytes) && bytes.len() < NAME_LIMIT
}
