//! The lines that each session sends first.
ghost use Rattle.std.specs.Prelude.{◌≡◌, ◌&&◌, ◌||◌, [], Some, None, IfErr, IfOk, if◌then◌else◌, nat_le, option_and_then, option_map};
ghost use Rattle.toml.specs.Data.{as_str};
ghost use Rattle.toml.specs.View.{items_view, table_view, view};
ghost use Rattle.bouncer_config.specs.Found.{line_of, lines_after, lines_in, value_at};
ghost use Rattle.bouncer_config.specs.Texts.{begins_with_letter, is_first_line};
ghost use Rattle.bouncer_config.specs.Wrong.{IsProblem};

use crate::key::Key;
use crate::problem::Problem;
use crate::reading::find;
use irc_line::{Text, is_a_text};
use std::alloc::{AllocError, Global};
use toml::{Table, Value};

/// Whether the first byte is a letter.
fn begins_with_letter(bytes: &[u8]) -> bool
    ensures { result ≡ begins_with_letter bytes.now }
{
    match bytes {
        [] => false,
        [first, ..] => is_letter(*first),
    }
}

/// Whether a byte is a letter of ASCII.
fn is_letter(byte: u8) -> bool
    ensures { result ≡ ((nat_le 65 byte && nat_le byte 90) || (nat_le 97 byte && nat_le byte 122)) }
{
    (65 <= byte && byte <= 90) || (97 <= byte && byte <= 122)
}

/// Whether a session may send these bytes as a line: a command of letters first, at most 510 bytes, and none of them
/// NUL, CR or LF.
pub(crate) fn is_a_first_line(bytes: &[u8]) -> bool
    ensures { result ≡ is_first_line bytes.now }
{
    begins_with_letter(bytes) && is_a_text(bytes)
}

/// The line of a value, if it is one.
fn line_at(alloc: Global, value: &Value) -> Result<Option<Text>, AllocError>
    ensures { IfOk result (λ line. line ≡ option_and_then line_of (as_str (view value.now))) }
{
    match value.as_str() {
        Some(text) => line_of(alloc, text.as_bytes()),
        None => Ok(None),
    }
}

/// The line of these bytes, if they are one.
#[tactic(auto, using(crate::proofs::Places::passed_line))]
fn line_of(alloc: Global, bytes: &[u8]) -> Result<Option<Text>, AllocError>
    ensures { IfOk result (λ line. line ≡ line_of bytes.now) }
{
    if !is_a_first_line(bytes) {
        return Ok(None);
    }
    Ok(Text::from_bytes(Vec::from_slice(alloc, bytes)?))
}

/// Reads the lines of values after those that were read, and returns whether each value is one.
fn read_lines(alloc: Global, values: &[Value], lines: &mut Vec<Text>) -> Result<bool, AllocError>
    ensures { IfOk result (λ all. lines_after lines.old.items (items_view values.now)
        ≡ (if all then Some lines.new.items else None)) }
{
    match values {
        [] => Ok(true),
        [value, values @ ..] => match line_at(alloc, value)? {
            Some(line) => {
                lines.push(line)?;
                read_lines(alloc, values, lines)
            }
            None => Ok(false),
        },
    }
}

/// The lines of values, if each is one.
pub(crate) fn lines_of(alloc: Global, values: &[Value]) -> Result<Option<Vec<Text>>, AllocError>
    ensures { IfOk result (λ lines.
        option_map (λ all. all.items) lines ≡ lines_after [] (items_view values.now)) }
{
    let mut lines = Vec::new(alloc);
    if read_lines(alloc, values, &mut lines)? {
        Ok(Some(lines))
    } else {
        Ok(None)
    }
}

/// The lines that each session sends first, none by default.
pub(crate) fn on_connect(alloc: Global, table: &Table) -> Result<Vec<Text>, Problem>
    ensures ok { IfOk result (λ lines.
        lines_in (value_at Key.OnConnect (table_view table.now)) ≡ Some lines.items) }
    ensures err { IfErr result (IsProblem (table_view table.now)) }
{
    let Some(value) = find(table, Key::OnConnect) else {
        return Ok(Vec::new(alloc));
    };
    let Some(values) = value.as_array() else {
        return Err(Problem::Kind(Key::OnConnect));
    };
    match lines_of(alloc, values.as_slice())? {
        Some(lines) => Ok(lines),
        None => Err(Problem::Refused(Key::OnConnect)),
    }
}
