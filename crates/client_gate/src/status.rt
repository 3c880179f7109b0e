//! What a client says to the bouncer itself: words that request something.
ghost use Rattle.std.specs.Prelude.{◌≡◌, ◌≤◌, map, IfOk, OnOk};
ghost use Rattle.std.specs.List.{list_all};
ghost use Rattle.irc_line.specs.Lines.{is_digit};
ghost use Rattle.irc_line.specs.Grammar.{upper};
ghost use Rattle.client_gate.specs.StatusWords.{asked_by, asked_by_one, asked_by_three, asked_by_two, is_spelled, number_from, number_of, status_deeds, with_digit};
ghost use Rattle.client_gate.specs.Turns.{all_done};

use crate::messages::{channel_of, name_of};
use crate::splitting::words;
use crate::status_word::StatusWord;
use crate::turn::Turn;
use buffer_commands::{Action, BufferSize};
use irc_line::Name;
use std::alloc::{AllocError, Global};

const UNKNOWN: &[u8] = b"Unknown command.";

/// Does what a text to the bouncer requests. Words without a request are noted.
pub fn tell_status(
    alloc: Global,
    turn: &mut Turn,
    nick: &Name,
    text: &[u8],
) -> Result<(), AllocError>
    ensures { OnOk result (turn.new ≡
        all_done nick.now turn.old (status_deeds nick.now text.now)) }
{
    let words = words(alloc, text)?;
    match asked_by(alloc, words.as_slice())? {
        Some(action) => turn.ask(nick, action),
        None => {
            turn.tell(nick, UNKNOWN)?;
            turn.note(StatusWord::of_words(words.as_slice()))
        }
    }
}

/// The request of these words.
fn asked_by(alloc: Global, words: &[&[u8]]) -> Result<Option<Action>, AllocError>
    ensures { IfOk result (λ o. o ≡ asked_by (map (λ x. x.now) words.now)) }
{
    match words {
        [word] => Ok(asked_by_one(*word)),
        [word, target] => asked_by_two(alloc, *word, *target),
        [word, target, number] => asked_by_three(alloc, *word, *target, *number),
        _ => Ok(None),
    }
}

fn asked_by_one(word: &[u8]) -> Option<Action>
    ensures { result ≡ asked_by_one word.now }
{
    if is_spelled(word, b"CLEARALLCHANNELBUFFERS") {
        Some(Action::ClearChannels)
    } else if is_spelled(word, b"CLEARALLQUERYBUFFERS") {
        Some(Action::ClearQueries)
    } else if is_spelled(word, b"CLEARALLBUFFERS") {
        Some(Action::ClearAll)
    } else {
        None
    }
}

fn asked_by_two(alloc: Global, word: &[u8], target: &[u8]) -> Result<Option<Action>, AllocError>
    ensures { IfOk result (λ o. o ≡ asked_by_two word.now target.now) }
{
    if is_spelled(word, b"ATTACH") {
        Ok(channel_of(alloc, target)?.map(Action::Reattach))
    } else if is_spelled(word, b"DETACH") {
        Ok(channel_of(alloc, target)?.map(Action::Detach))
    } else if is_spelled(word, b"PLAYBUFFER") {
        Ok(name_of(alloc, target)?.map(Action::Play))
    } else if is_spelled(word, b"CLEARBUFFER") {
        Ok(name_of(alloc, target)?.map(Action::Clear))
    } else {
        Ok(None)
    }
}

fn asked_by_three(
    alloc: Global,
    word: &[u8],
    target: &[u8],
    number: &[u8],
) -> Result<Option<Action>, AllocError>
    ensures { IfOk result (λ o. o ≡ asked_by_three word.now target.now number.now) }
{
    if !is_spelled(word, b"SETBUFFER") {
        return Ok(None);
    }
    let Some(lines) = number_of(number) else {
        return Ok(None);
    };
    match name_of(alloc, target)? {
        Some(name) => Ok(Some(Action::SetBuffer(name, BufferSize::new(lines)))),
        None => Ok(None),
    }
}

/// Whether a word in either case is this one, which is in upper case.
pub(crate) fn is_spelled(word: &[u8], spelled: &[u8]) -> bool
    ensures { result ≡ is_spelled word.now spelled.now }
{
    match word {
        [] => spelled.is_empty(),
        [letter, word @ ..] => match spelled {
            [] => false,
            [byte, spelled @ ..] => upper_byte(*letter) == *byte && is_spelled(word, spelled),
        },
    }
}

/// A letter in upper case, any other byte as it is.
fn upper_byte(b: u8) -> u8
    ensures { result ≡ upper b }
{
    if b >= b'a' && b <= b'z' { b - 32 } else { b }
}

/// A number in decimal; above 65,535 it is 65,535.
fn number_of(digits: &[u8]) -> Option<u16>
    ensures { result ≡ number_of digits.now }
{
    if digits.is_empty() || !are_digits(digits) {
        return None;
    }
    Some(number_from(0, digits))
}

fn are_digits(bytes: &[u8]) -> bool
    ensures { result ≡ list_all is_digit bytes.now }
{
    bytes.iter().all(|b| *b >= b'0' && *b <= b'9')
}

/// The number that the digits make after a number.
fn number_from(number: u16, digits: &[u8]) -> u16
    ensures { result ≡ number_from number digits.now }
{
    match digits {
        [] => number,
        [digit, digits @ ..] => {
            let value = 10 * number as u32 + digit.saturating_sub(b'0') as u32;
            number_from(value.min(65535) as u16, digits)
        }
    }
}
