//! Bringing about a kept line again.
use crate::draft::Draft;
use crate::fault::ProposalFault;
use buffer_commands::{Action, Verb, WireLine};
use buffer_lines::KeptLine;
use irc_line::{Line, Name, Text};
use std::alloc::Global;
use std::collections::VecDeque;

/// The end of the prefix of what a client says.
const HOST: &[u8] = b"!bouncer@local";

/// Adds a kept line of a channel at its moment: from upstream or, if it is too long for that, said by the client.
pub fn keep_line(draft: &mut Draft, kept: &KeptLine) -> Result<(), ProposalFault> {
    match WireLine::from_line(kept.line().share()?) {
        Some(line) => draft.hear(kept.at(), line),
        None => say_again(draft, kept),
    }
}

/// Adds a kept line of a channel from upstream.
pub fn hear_line(draft: &mut Draft, kept: &KeptLine) -> Result<(), ProposalFault> {
    match WireLine::from_line(kept.line().share()?) {
        Some(line) => draft.hear(kept.at(), line),
        None => Err(ProposalFault::LongLine),
    }
}

/// Adds a kept line of a query, sent to the own nick of its time.
pub fn keep_told(draft: &mut Draft, kept: &KeptLine) -> Result<(), ProposalFault> {
    draft.answer_to(kept.line().parameter(0))?;
    keep_line(draft, kept)
}

/// Lets the client say a line again, and claims what is sent.
fn say_again(draft: &mut Draft, kept: &KeptLine) -> Result<(), ProposalFault> {
    let line = kept.line();
    let nick = line.prefix().and_then(|prefix| prefix.strip_suffix(HOST));
    draft.be(nick.ok_or(ProposalFault::NotTheSame)?)?;
    let said = said_action(draft.allocator(), line)?;
    let visits = !draft.is_attached();
    if visits {
        draft.attach()?;
    }
    draft.ask_at(kept.at(), said)?;
    draft.claim()?;
    if visits {
        draft.leave()?;
    }
    Ok(())
}

/// Lets the attached client send again the lines that waited: they wait, and no session claims them.
pub fn send_again(draft: &mut Draft, waiting: &VecDeque<Line>) -> Result<(), ProposalFault> {
    for place in 0..waiting.len() {
        if let Some(line) = waiting.get(place) {
            let line = WireLine::from_line(line.share()?).ok_or(ProposalFault::NotTheSame)?;
            draft.ask(Action::Pass(line))?;
        }
    }
    Ok(())
}

/// The request of a client that says a line.
fn said_action(alloc: Global, line: &Line) -> Result<Action, ProposalFault> {
    let verb = match line.command() {
        b"PRIVMSG" => Verb::Privmsg,
        b"NOTICE" => Verb::Notice,
        _ => return Err(ProposalFault::NotTheSame),
    };
    let target = Name::from_bytes(Vec::from_slice(alloc, line.parameter(0))?);
    let text = Text::from_bytes(Vec::from_slice(alloc, line.parameter(1))?);
    Ok(Action::Say(
        verb,
        target.ok_or(ProposalFault::NotTheSame)?,
        text.ok_or(ProposalFault::NotTheSame)?,
    ))
}
