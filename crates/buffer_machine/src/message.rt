//! The lines that the buffers write and send.
ghost use Rattle.std.specs.Prelude.{◌≡◌, ◌∷◌, [], codes, IfOk, IsTrue};
ghost use Rattle.irc_line.specs.Lines.{is_upper_command, is_word, spelling, line_of};
ghost use Rattle.buffer_machine.specs.Messages.{bare, own_line, own_prefix, own_said, verb_word, word_bytes};

use buffer_commands::Verb;
use buffer_lines::Shown;
use irc_line::{Line, Name, Text};
use std::alloc::{AllocError, Global};

/// A command about a channel (RFC 2812, 3.2).
#[derive(Clone, Copy, Debug, PartialEq, Eq)]
pub enum ChannelWord {
    Join,
    Part,
    Names,
}

/// The answer to what was done.
pub const DONE: &[u8] = b"Done.";

/// The answer to a size past the limit.
pub const SIZE_IS_PAST: &[u8] = b"Size is past 500.";

/// The answer where a target is unknown.
pub const NO_SUCH_TARGET: &[u8] = b"No such target.";

/// What follows the nick in the prefix of what clients say.
const OWN_HOST: &[u8] = b"!bouncer@local";

/// What a client of this nick says, as the others see it.
pub fn own_message(
    alloc: Global,
    nick: &Name,
    verb: Verb,
    target: &Name,
    text: &Text,
) -> Result<Line, AllocError>
    ensures { IfOk result (λ l. l ≡ own_said nick.now verb target.now text.now) }
{
    let prefix = prefix_of(alloc, nick)?;
    Line::message(alloc, Some(prefix.as_slice()), word_of(verb), target, text)
}

/// What a client says, as it goes upstream.
pub fn bare_message(
    alloc: Global,
    verb: Verb,
    target: &Name,
    text: &Text,
) -> Result<Line, AllocError>
    ensures { IfOk result (λ l. l ≡ bare (verb_word verb) (target.now ∷ text.now ∷ [])) }
{
    Line::message(alloc, None, word_of(verb), target, text)
}

/// A command about a channel, as it goes upstream.
#[tactic(auto, using(crate::proofs::NameLemmas::bare_channel_line))]
pub fn bare_channel(alloc: Global, word: ChannelWord, channel: &Name) -> Result<Line, AllocError>
    ensures { IfOk result (λ l. l ≡ bare (word_bytes word) (channel.now ∷ [])) }
{
    Line::new(alloc, None, bytes_of(word), &[channel.as_bytes()])
}

/// A command of this nick about a channel, as clients are shown it.
pub fn own_channel(
    alloc: Global,
    nick: &Name,
    word: ChannelWord,
    channel: &Name,
) -> Result<Shown, AllocError>
    ensures { IfOk result (λ x. x ≡ spelling (own_line nick.now (word_bytes word) channel.now)) }
{
    let prefix = prefix_of(alloc, nick)?;
    Shown::of_parts(
        alloc,
        Some(prefix.as_slice()),
        bytes_of(word),
        &[channel.as_bytes()],
    )
}

/// The bouncer's own answer to a client of this nick.
pub fn status_line(alloc: Global, nick: &Name, text: &[u8]) -> Result<Shown, AllocError>
    ensures { IfOk result (λ x. x ≡ spelling
        (line_of (codes "*status!bouncer@local") (codes "PRIVMSG") (nick.now ∷ text.now ∷ []))) }
{
    Shown::of_parts(
        alloc,
        Some(b"*status!bouncer@local"),
        b"PRIVMSG",
        &[nick.as_bytes(), text],
    )
}

/// The prefix of what a client of this nick says.
#[tactic(auto, using(crate::proofs::NameLemmas::own_prefix_word))]
fn prefix_of(alloc: Global, nick: &Name) -> Result<Vec<u8>, AllocError>
    ensures value { IfOk result (λ v. v.items ≡ own_prefix nick.now) }
    ensures word { IfOk result (λ v. IsTrue (is_word v.items)) }
{
    let nick = nick.as_bytes();
    let mut prefix = Vec::with_capacity(alloc, nick.len() + OWN_HOST.len())?;
    prefix.extend_from_slice(nick)?;
    prefix.extend_from_slice(OWN_HOST)?;
    Ok(prefix)
}

fn word_of(verb: Verb) -> &'static [u8]
    ensures value { result.now ≡ verb_word verb }
    ensures command { IsTrue (is_upper_command result.now) }
{
    match verb {
        Verb::Privmsg => b"PRIVMSG",
        Verb::Notice => b"NOTICE",
    }
}

fn bytes_of(word: ChannelWord) -> &'static [u8]
    ensures { result.now ≡ word_bytes word }
{
    match word {
        ChannelWord::Join => b"JOIN",
        ChannelWord::Part => b"PART",
        ChannelWord::Names => b"NAMES",
    }
}
