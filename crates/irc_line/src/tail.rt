//! The parameters of what follows a command, one by one.
ghost use Rattle.std.specs.Prelude.{◌≡◌, ◌≤◌, ◌∷◌, [], IfOk, option_map, MatchOption, length, map, min, slice_get, unwrap_or};
ghost use Rattle.irc_line.specs.Names.{same_bytes};
ghost use Rattle.irc_line.specs.Lines.{has_colon, is_spoken, spelled_last};
ghost use Rattle.irc_line.specs.Comparing.{behind, spelled_behind, spelled_tail};
ghost use Rattle.irc_line.specs.Grammar.{upper};
ghost use Rattle.irc_line.specs.Reading.{IsFirstParameter, parameters_of};

use crate::bytes::is_same;
use crate::comparing::{behind, is_in_upper};
use crate::spelling::is_a_trailing;
use crate::word::{split_word, without_spaces};
use std::alloc::{AllocError, Global};

/// The first parameter, and what follows it; none if there are only spaces.
pub fn next_parameter(text: &[u8]) -> Option<(&[u8], &[u8])>
    ensures { MatchOption result (parameters_of text.now ≡ [])
        (λ t. IsFirstParameter text.now t.0.now t.1.now) }
{
    match without_spaces(text) {
        [] => None,
        [b':', last @ ..] => Some((last, &[])),
        word => Some(split_word(word)),
    }
}

/// The size of what follows a command.
#[derive(Clone, Copy)]
pub struct TailSize {
    pub parameters: usize,
    /// The bytes of their canonical spelling, at most `usize::MAX`.
    pub spelled: usize,
}

pub fn lent_parameters<'a>(alloc: Global, text: &'a [u8]) -> Result<Vec<&'a [u8]>, AllocError>
    ensures { IfOk result (λ v. map (λ x. x.now) v.items ≡ parameters_of text.now) }
{
    let mut all = Vec::new(alloc);
    let mut left = text;
    while let Some((parameter, behind)) = next_parameter(left) {
        all.push(parameter)?;
        left = behind;
    }
    Ok(all)
}

/// How many parameters a text has.
pub fn parameters_in(text: &[u8]) -> usize
    ensures value { result ≡ length (parameters_of text.now) }
    ensures within { result ≤ length text.now }
{
    match next_parameter(text) {
        None => 0,
        Some((_, behind)) => parameters_in(behind) + 1,
    }
}

/// A parameter of a text, from 0; no bytes if there is none.
pub fn nth_parameter(text: &[u8], i: usize) -> &[u8]
    ensures { result.now ≡ unwrap_or (slice_get (parameters_of text.now) i) [] }
{
    match next_parameter(text) {
        None => &[],
        Some((first, behind)) => if i == 0 {
            first
        } else {
            nth_parameter(behind, i - 1)
        },
    }
}

/// How many parameters a text has, and how long their canonical spelling after this command is.
pub fn tail_size(command: &[u8], text: &[u8]) -> TailSize
    ensures parameters { result.parameters ≡ length (parameters_of text.now) }
    ensures within { result.parameters ≤ length text.now }
    ensures spelled { result.spelled ≡ min (length (spelled_tail command.now text.now)) usize.MAX }
{
    match next_parameter(text) {
        None => TailSize {
            parameters: 0,
            spelled: 0,
        },
        Some((parameter, rest)) => {
            let size = tail_size(command, rest);
            let spelled = if size.parameters == 0 {
                last_len(command, parameter)
            } else {
                (parameter.len() + 1).saturating_add(size.spelled)
            };
            TailSize {
                parameters: size.parameters + 1,
                spelled,
            }
        }
    }
}

fn last_len(command: &[u8], last: &[u8]) -> usize
    ensures { result ≡ length (spelled_last (map upper command.now) last.now) }
{
    if needs_colon(command, last) {
        last.len() + 2
    } else {
        last.len() + 1
    }
}

/// Whether these bytes are the canonical spelling of a text's parameters after this command.
pub fn are_spelled(command: &[u8], text: &[u8], bytes: &[u8]) -> bool
    ensures { result ≡ same_bytes (spelled_tail command.now text.now) bytes.now }
{
    match next_parameter(text) {
        None => bytes.is_empty(),
        Some((parameter, rest)) => are_spelled_from(command, parameter, rest, bytes),
    }
}

/// Whether these bytes are the canonical spelling of a parameter and of those in the text after it.
fn are_spelled_from(command: &[u8], parameter: &[u8], text: &[u8], bytes: &[u8]) -> bool
    ensures { result ≡
        same_bytes (spelled_behind command.now (parameter.now ∷ parameters_of text.now)) bytes.now }
{
    match next_parameter(text) {
        None => is_last_spelled(command, parameter, bytes),
        Some((next, rest)) => match behind_parameter(parameter, bytes) {
            None => false,
            Some(bytes) => are_spelled_from(command, next, rest, bytes),
        },
    }
}

fn behind_parameter<'a>(parameter: &[u8], bytes: &'a [u8]) -> Option<&'a [u8]>
    ensures { option_map (λ x. x.now) result ≡ behind (32 ∷ parameter.now) bytes.now }
{
    match bytes {
        [b' ', bytes @ ..] => behind(parameter, bytes),
        _ => None,
    }
}

fn is_last_spelled(command: &[u8], last: &[u8], bytes: &[u8]) -> bool
    ensures { result ≡ same_bytes (spelled_last (map upper command.now) last.now) bytes.now }
{
    let colon = needs_colon(command, last);
    match bytes {
        [b' ', b':', text @ ..] if colon => is_same(last, text),
        [b' ', text @ ..] => !colon && is_same(last, text),
        _ => false,
    }
}

fn needs_colon(command: &[u8], last: &[u8]) -> bool
    ensures { result ≡ has_colon (map upper command.now) last.now }
{
    is_a_trailing(last) || is_spoken_word(command)
}

/// Whether the last parameter after this command, in any letters, always has a colon before it.
fn is_spoken_word(command: &[u8]) -> bool
    ensures { result ≡ is_spoken (map upper command.now) }
{
    is_in_upper(command, b"PRIVMSG")
        || is_in_upper(command, b"NOTICE")
        || is_in_upper(command, b"TOPIC")
}
