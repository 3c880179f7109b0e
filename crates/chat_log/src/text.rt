//! How one line is printed.
ghost use Rattle.std.specs.Prelude.{◌≡◌, ◌++◌, ◌∷◌, [], drop, IfOk, OnOk};
ghost use Rattle.chat_log.specs.Texts.{acted, content, is_speech, line_text, noticed};
ghost use Rattle.chat_log.specs.Texts.{said, speech, without_mark};

use crate::printing::push_printed;
use crate::stamp::push_stamp;
use buffer_machine::{has_command, is_message, source_of};
use irc_line::{ACTION_MARK, Line, is_action};
use std::alloc::{AllocError, Global};
use wire_bytes::Moment;

/// Appends a line at a moment, as a line of text. After an error a part of it may have been appended.
#[tactic(auto, unfolding(crate::specs::Texts::line_text))]
pub fn push_line(
    alloc: Global,
    out: &mut Vec<u8>,
    at: Moment,
    line: &Line,
) -> Result<(), AllocError>
    ensures { OnOk result (out.new.items ≡ out.old.items ++ line_text at line.now) }
{
    let content = content_of(alloc, line)?;
    push_stamp(out, at)?;
    push_printed(out, &content)?;
    out.push(b'\n')?;
    Ok(())
}

/// What is printed of a line: for a message its target and who says what, for any other its canonical spelling.
fn content_of(alloc: Global, line: &Line) -> Result<Vec<u8>, AllocError>
    ensures { IfOk result (λ v. v.items ≡ content line.now) }
{
    let mut out = Vec::new(alloc);
    if is_speech(line) {
        out.extend_from_slice(line.parameter(0))?;
        out.push(b' ')?;
        push_speech(&mut out, line)?;
    } else {
        line.write_to(&mut out)?;
    }
    Ok(out)
}

/// Whether a line is a message with a source, a target and a text.
fn is_speech(line: &Line) -> bool
    ensures { result ≡ is_speech line.now }
{
    line.prefix().is_some() && is_message(line) && line.parameter_count() == 2
}

/// Appends who says what.
fn push_speech(out: &mut Vec<u8>, line: &Line) -> Result<(), AllocError>
    ensures { OnOk result (out.new.items ≡ out.old.items ++ speech line.now) }
{
    if has_command(line, b"NOTICE") {
        push_noticed(out, line)
    } else if is_action(line.parameter(1)) {
        push_acted(out, line)
    } else {
        push_said(out, line)
    }
}

fn push_noticed(out: &mut Vec<u8>, line: &Line) -> Result<(), AllocError>
    ensures { OnOk result (out.new.items ≡ out.old.items ++ noticed line.now) }
{
    out.push(b'-')?;
    out.extend_from_slice(source_of(line))?;
    out.extend_from_slice(b"- ")?;
    out.extend_from_slice(line.parameter(1))
}

fn push_said(out: &mut Vec<u8>, line: &Line) -> Result<(), AllocError>
    ensures { OnOk result (out.new.items ≡ out.old.items ++ said line.now) }
{
    out.push(b'<')?;
    out.extend_from_slice(source_of(line))?;
    out.extend_from_slice(b"> ")?;
    out.extend_from_slice(line.parameter(1))
}

fn push_acted(out: &mut Vec<u8>, line: &Line) -> Result<(), AllocError>
    ensures { OnOk result (out.new.items ≡ out.old.items ++ acted line.now) }
{
    out.extend_from_slice(b"* ")?;
    out.extend_from_slice(source_of(line))?;
    out.push(b' ')?;
    let deed = behind_mark(line.parameter(1));
    out.extend_from_slice(without_mark(deed))
}

/// What follows the mark of an ACTION.
fn behind_mark(text: &[u8]) -> &[u8]
    ensures { result.now ≡ drop 8 text.now }
{
    if text.len() < ACTION_MARK.len() {
        &[]
    } else {
        &text[ACTION_MARK.len()..]
    }
}

/// The bytes without one byte 1 at their end.
fn without_mark(text: &[u8]) -> &[u8]
    ensures { result.now ≡ without_mark text.now }
{
    match text {
        [] => text,
        [front @ .., last] => if *last == 1 { front } else { text },
    }
}
