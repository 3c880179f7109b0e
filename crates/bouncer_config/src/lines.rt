//! In which line of a text something is.
use crate::address::Address;
use crate::first_lines::is_a_first_line;
use crate::key::Key;
use crate::problem::Problem;
use irc_line::is_channel_name;
use toml::{Table, Value};

/// The line, from 1, with the byte at this place.
pub(crate) fn line_at(text: &[u8], place: usize) -> usize {
    let before = &text[..place.min(text.len())];
    let ends = before.iter().filter(|byte| **byte == b'\n').count();
    ends.saturating_add(1)
}

/// The line with the key of a problem, or with the element of its list, if it is about one.
pub(crate) fn line_of(text: &[u8], table: &Table, problem: &Problem) -> Option<usize> {
    if let Problem::Missing(_) = problem {
        return None;
    }
    let line = line_of_key(text, problem.key_text()?.as_bytes())?;
    match refused_element(table, problem) {
        Some(element) => Some(line_of_element(text, line, element.as_bytes())),
        None => Some(line),
    }
}

/// The first line, from 1, that begins with a key.
fn line_of_key(text: &[u8], key: &[u8]) -> Option<usize> {
    let place = text
        .split(|byte| *byte == b'\n')
        .position(|line| begins_with_key(line, key))?;
    Some(place.saturating_add(1))
}

/// Whether a line begins with a key: with its name, and then a space, a tab, a dot or `=`.
fn begins_with_key(line: &[u8], key: &[u8]) -> bool {
    let line = line.trim_ascii_start();
    let line = line.strip_prefix(b"[").unwrap_or(line);
    match line.strip_prefix(key) {
        Some([next, ..]) => matches!(*next, b' ' | b'\t' | b'=' | b'.' | b']'),
        _ => false,
    }
}

/// The first text of a list that is not allowed in it, if a problem is about one.
pub(crate) fn refused_element<'a>(table: &'a Table, problem: &Problem) -> Option<&'a str> {
    let key = match problem {
        Problem::Refused(Key::Listen) => Key::Listen,
        Problem::Refused(Key::Channels) => Key::Channels,
        Problem::Refused(Key::OnConnect) => Key::OnConnect,
        _ => return None,
    };
    let values = table.get(key.text())?.as_array()?;
    let value = values.iter().find(|value| is_refused(key, value))?;
    value.as_str()
}

/// Whether a value is not allowed in the list of this key.
fn is_refused(key: Key, value: &Value) -> bool {
    let Some(text) = value.as_str() else {
        return true;
    };
    match key {
        Key::Listen => Address::from_text(text.as_bytes()).is_none(),
        Key::OnConnect => !is_a_first_line(text.as_bytes()),
        _ => !is_channel_name(text.as_bytes()),
    }
}

/// The first line, from that of its list's key on, that has an element as it is; if none has it,
/// since it is written in another way, the key's line.
fn line_of_element(text: &[u8], line: usize, element: &[u8]) -> usize {
    let place = text
        .split(|byte| *byte == b'\n')
        .skip(line.saturating_sub(1))
        .position(|line| holds(line, element));
    match place {
        Some(place) => line.saturating_add(place),
        None => line,
    }
}

/// Whether a line has these bytes between quotes.
fn holds(line: &[u8], bytes: &[u8]) -> bool {
    line.split(|byte| *byte == b'"' || *byte == b'\'')
        .any(|piece| piece == bytes)
}
