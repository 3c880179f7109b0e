//! Effects, as words and lines of text.
ghost use Rattle.std.specs.Prelude.{◌≡◌, ◌≤◌, ◌++◌, ◌∷◌, [], decimal, length, OnOk};
ghost use Rattle.irc_line.specs.Lines.{spelling};
ghost use Rattle.recorder.specs.EffectWords.{answer_lines};
ghost use Rattle.recorder.specs.EffectWords.{printed_line, rejoin_words, to_origin};

use crate::backwards::{MOST_DIGITS, MOST_LETTERS, MOST_TO_ORIGIN, write_number, write_to_origin};
use crate::writing::push_number;
use buffer_commands::Effect;
use buffer_lines::Shown;
use irc_line::{CONTENT_LIMIT, Line};
use request_once::Answer;
use session_fence::FenceEffect;
use std::alloc::AllocError;
use upstream_claim::ClaimsEffect;
use wire_bytes::Origin;

/// A value that is printed in words.
pub trait Words {
    ghost use Rattle.std.specs.Prelude.{ℕ, List};

    /// Its words.
    ghost words: { Self → List ℕ };

    /// Appends its words. After an error a part of them may have been appended.
    fn push_words(&self, out: &mut Vec<u8>) -> Result<(), AllocError>
        ensures { OnOk result (out.new.items ≡ out.old.items ++ words self.now) };
}

/// Appends a line for each answer to the body at a place. After an error a part may have been
/// appended.
pub fn push_answers<E: Words>(
    out: &mut Vec<u8>,
    place: u64,
    answers: &[Answer<E>],
) -> Result<(), AllocError>
    ensures { OnOk result
        (out.new.items ≡ out.old.items ++ answer_lines E.words place answers.now) }
{
    // all answers have one place, so its digits are made once
    let mut text = [b' '; MOST_DIGITS + 1];
    let start = write_number(place, &mut text, MOST_DIGITS);
    for answer in answers {
        out.extend_from_slice(&text[start..])?;
        answer.push_words(out)?;
        out.push(b'\n')?;
    }
    Ok(())
}

impl<E: Words> Words for Answer<E> {
    ghost use Rattle.recorder.specs.EffectWords.{answer_words};

    ghost words = { answer_words E.words };

    fn push_words(&self, out: &mut Vec<u8>) -> Result<(), AllocError> {
        match self {
            Answer::Effect(effect) => effect.push_words(out),
            Answer::Done(origin, number) => push_numbered(out, b"done", *origin, *number),
            Answer::Repeat(origin, number) => push_numbered(out, b"repeat", *origin, *number),
            Answer::Gap(origin, number) => push_numbered(out, b"gap", *origin, *number),
            Answer::Marked(mark) => {
                out.extend_from_slice(b"marked ")?;
                push_number(out, mark.number.value())
            }
        }
    }
}

impl<E: Words> Words for ClaimsEffect<E> {
    ghost use Rattle.recorder.specs.EffectWords.{claims_words};

    ghost words = { claims_words E.words };

    fn push_words(&self, out: &mut Vec<u8>) -> Result<(), AllocError> {
        match self {
            ClaimsEffect::Inner(effect) => effect.push_words(out),
            ClaimsEffect::Busy(origin) => push_to_origin(out, b"busy", *origin),
            ClaimsEffect::Hand(_, number, line) => {
                out.extend_from_slice(b"hand ")?;
                push_number(out, *number)?;
                out.push(b' ')?;
                push_sent(out, line)
            }
        }
    }
}

impl<E: Words> Words for FenceEffect<E> {
    ghost use Rattle.recorder.specs.EffectWords.{fence_words};

    ghost words = { fence_words E.words };

    fn push_words(&self, out: &mut Vec<u8>) -> Result<(), AllocError> {
        match self {
            FenceEffect::Inner(effect) => effect.push_words(out),
            FenceEffect::Rejoin(_, line) => push_rejoin(out, line),
        }
    }
}

impl Words for Effect {
    ghost use Rattle.recorder.specs.EffectWords.{effect_words};

    ghost words = { effect_words };

    fn push_words(&self, out: &mut Vec<u8>) -> Result<(), AllocError> {
        match self {
            Effect::Close(origin) => push_to_origin(out, b"close", *origin),
            Effect::Show(origin, shown) => {
                push_before(out, b"show", *origin)?;
                push_shown(out, shown)
            }
            Effect::Send(origin, line) => {
                push_before(out, b"send", *origin)?;
                push_sent(out, line)
            }
            Effect::Rejoin(line) => push_rejoin(out, line),
        }
    }
}

/// Appends the words of a channel that is joined again.
fn push_rejoin(out: &mut Vec<u8>, line: &Line) -> Result<(), AllocError>
    ensures { OnOk result (out.new.items ≡ out.old.items ++ rejoin_words line.now) }
{
    out.extend_from_slice(b"rejoin ")?;
    push_sent(out, line)
}

/// Appends a word, an origin and a number.
fn push_numbered(
    out: &mut Vec<u8>,
    word: &[u8],
    origin: Origin,
    number: u64,
) -> Result<(), AllocError>
    requires { length word.now ≤ MOST_LETTERS }
    ensures { OnOk result (out.new.items ≡ out.old.items ++
        (to_origin word.now origin ++ 32 ∷ decimal number)) }
{
    push_before(out, word, origin)?;
    push_number(out, number)
}

/// Appends a word and an origin.
fn push_to_origin(out: &mut Vec<u8>, word: &[u8], origin: Origin) -> Result<(), AllocError>
    requires { length word.now ≤ MOST_LETTERS }
    ensures { OnOk result (out.new.items ≡ out.old.items ++ to_origin word.now origin) }
{
    let mut text = [0; MOST_TO_ORIGIN];
    let start = write_to_origin(word, origin, &mut text, MOST_TO_ORIGIN);
    out.extend_from_slice(&text[start..])
}

/// Appends a word, an origin and a space.
fn push_before(out: &mut Vec<u8>, word: &[u8], origin: Origin) -> Result<(), AllocError>
    requires { length word.now ≤ MOST_LETTERS }
    ensures { OnOk result (out.new.items ≡ out.old.items ++ to_origin word.now origin ++ 32 ∷ []) }
{
    // the space is there already
    let mut text = [b' '; MOST_TO_ORIGIN + 1];
    let start = write_to_origin(word, origin, &mut text, MOST_TO_ORIGIN);
    out.extend_from_slice(&text[start..])
}

/// Appends what is printed of a shown line.
fn push_shown(out: &mut Vec<u8>, shown: &Shown) -> Result<(), AllocError>
    ensures { OnOk result (out.new.items ≡ out.old.items ++ printed_line shown.now) }
{
    out.extend_from_slice(printed(shown.spelling()))
}

/// Appends what is printed of a sent line.
fn push_sent(out: &mut Vec<u8>, line: &Line) -> Result<(), AllocError>
    ensures { OnOk result (out.new.items ≡ out.old.items ++ printed_line (spelling line.now)) }
{
    let start = out.len();
    line.write_to(out)?;
    out.truncate(start + CONTENT_LIMIT);
    Ok(())
}

/// The bytes of a line's spelling that are printed: 510 at most.
pub fn printed(spelling: &[u8]) -> &[u8]
    ensures { result.now ≡ printed_line spelling.now }
{
    if spelling.len() < CONTENT_LIMIT {
        spelling
    } else {
        &spelling[..CONTENT_LIMIT]
    }
}
