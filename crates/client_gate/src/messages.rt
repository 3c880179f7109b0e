//! What a registered client says to others: requests about channels, and messages. After an error
//! a part may have been done.
ghost use Rattle.std.specs.Prelude.{◌≡◌, IfOk, IsTrue, OnOk};
ghost use Rattle.irc_line.specs.Names.{is_channel, is_name, is_text};
ghost use Rattle.client_gate.specs.Replies.{no_channel, told_word};
ghost use Rattle.client_gate.specs.Serving.{about_word, about_words, channel_action, said_to, said_to_all};
ghost use Rattle.client_gate.specs.Turns.{all_done, written};
ghost use Rattle.client_gate.specs.Words.{passed_by};

use crate::splitting::pieces;
use crate::status::tell_status;
use crate::turn::Turn;
use crate::writing::at_most;
use buffer_commands::{Action, ChannelName, Verb};
use irc_line::{Line, NAME_LIMIT, Name, Text, is_a_name, is_a_text, is_channel_name, is_same_name};
use std::alloc::{AllocError, Global};

/// The nick of the bouncer itself.
const STATUS: &[u8] = b"*status";

const NO_SUCH_CHANNEL: &[u8] = b"No such channel";

/// A request about a channel.
#[derive(Clone, Copy, Debug, PartialEq, Eq)]
pub enum ChannelVerb {
    Join,
    Part,
}

impl ChannelVerb {
    fn action(self, channel: ChannelName) -> Action
        ensures { result ≡ channel_action self channel }
    {
        match self {
            ChannelVerb::Join => Action::Join(channel),
            ChannelVerb::Part => Action::Part(channel),
        }
    }
}

/// Makes a request for each channel of a list with commas.
#[tactic(auto, using(crate::proofs::Deeds::all_done_append))]
pub fn ask_all(
    alloc: Global,
    turn: &mut Turn,
    nick: &Name,
    verb: ChannelVerb,
    list: &[u8],
) -> Result<(), AllocError>
    ensures { OnOk result (turn.new ≡
        all_done nick.now turn.old (about_words nick.now verb list.now)) }
{
    for word in pieces(alloc, list, b',')? {
        ask_about(alloc, turn, nick, verb, word)?;
    }
    Ok(())
}

/// Makes a request about a channel, or answers that a word is none.
fn ask_about(
    alloc: Global,
    turn: &mut Turn,
    nick: &Name,
    verb: ChannelVerb,
    word: &[u8],
) -> Result<(), AllocError>
    ensures { OnOk result (turn.new ≡
        all_done nick.now turn.old (about_word nick.now verb word.now)) }
{
    match channel_of(alloc, word)? {
        Some(channel) => turn.ask(nick, verb.action(channel)),
        None => refuse_channel(turn, nick, word),
    }
}

/// The channel of this name, if it is a channel's.
pub fn channel_of(alloc: Global, word: &[u8]) -> Result<Option<ChannelName>, AllocError>
    ensures { IfOk result (λ o. o ≡ passed_by is_channel word.now) }
{
    if !is_channel_name(word) {
        return Ok(None);
    }
    match name_of(alloc, word)? {
        Some(name) => Ok(ChannelName::from_name(name)),
        None => Ok(None),
    }
}

/// The name of these bytes, if they are one.
pub fn name_of(alloc: Global, word: &[u8]) -> Result<Option<Name>, AllocError>
    ensures { IfOk result (λ o. o ≡ passed_by is_name word.now) }
{
    if is_a_name(word) {
        Ok(Name::from_bytes(Vec::from_slice(alloc, word)?))
    } else {
        Ok(None)
    }
}

/// Answers that a word is no channel's name.
fn refuse_channel(turn: &mut Turn, nick: &Name, word: &[u8]) -> Result<(), AllocError>
    ensures { OnOk result (turn.new ≡ written (no_channel nick.now word.now) turn.old) }
{
    turn.reply(b"403", &[nick.as_bytes(), told_word(word), NO_SUCH_CHANNEL])
}

fn told_word(word: &[u8]) -> &[u8]
    ensures { result.now ≡ told_word word.now }
{
    if word.is_empty() {
        b"*"
    } else {
        at_most(word, NAME_LIMIT)
    }
}

/// Sends a message to each target of a list with commas.
#[tactic(auto, using(crate::proofs::Deeds::all_done_append))]
pub fn say_all(
    alloc: Global,
    turn: &mut Turn,
    nick: &Name,
    verb: Verb,
    line: &Line,
) -> Result<(), AllocError>
    ensures { OnOk result (turn.new ≡
        all_done nick.now turn.old (said_to_all nick.now verb line.now)) }
{
    let text = line.parameter(1);
    if !is_a_text(text) {
        return Ok(());
    }
    for target in pieces(alloc, line.parameter(0), b',')? {
        say(alloc, turn, nick, verb, text, target)?;
    }
    Ok(())
}

/// Sends a message to one target; skipped if that is no name.
fn say(
    alloc: Global,
    turn: &mut Turn,
    nick: &Name,
    verb: Verb,
    text: &[u8],
    target: &[u8],
) -> Result<(), AllocError>
    requires { IsTrue (is_text text.now) }
    ensures { OnOk result (turn.new ≡
        all_done nick.now turn.old (said_to nick.now verb text.now target.now)) }
{
    if is_same_name(target, STATUS) {
        return match verb {
            Verb::Privmsg => tell_status(alloc, turn, nick, text),
            Verb::Notice => Ok(()),
        };
    }
    let Some(name) = name_of(alloc, target)? else {
        return Ok(());
    };
    match Text::from_bytes(Vec::from_slice(alloc, text)?) {
        Some(text) => turn.ask(nick, Action::Say(verb, name, text)),
        None => Ok(()),
    }
}
