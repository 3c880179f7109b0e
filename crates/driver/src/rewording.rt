//! What a client gets when the server ends the bouncer's session: not the server's own line, at which its program would
//! hang up, but a NOTICE.
ghost use Rattle.std.specs.Prelude.{◌≡◌, ◌++◌, IfOk, OnOk, option_map, unwrap_or};
ghost use Rattle.irc_line.specs.Reading.{canonical, judged};
ghost use Rattle.driver.specs.Rewording.{behind_colon, ending_in, ending_of, is_kill, may_end};
ghost use Rattle.driver.specs.Parameters.{last_parameter, nick_or_server};
ghost use Rattle.driver.specs.Rewording.{noticed, reworded, unprefixed};

use crate::client::behind_space;
use bouncer_tower::TowerEffect;
use buffer_commands::Effect;
use buffer_lines::Shown;
use buffer_machine::{has_command, source_of};
use irc_line::{Line, is_same_name};
use request_once::Answer;
use session_fence::FenceEffect;
use std::alloc::{AllocError, Global};
use upstream_claim::ClaimsEffect;

/// An effect as a client of this nick gets it; none if it is unchanged.
pub fn reworded(
    alloc: Global,
    nick: &[u8],
    effect: &TowerEffect,
) -> Result<Option<TowerEffect>, AllocError>
    ensures { IfOk result (λ told. unwrap_or told effect.now ≡ reworded nick.now effect.now) }
{
    let Answer::Effect(ClaimsEffect::Inner(FenceEffect::Inner(Effect::Show(origin, shown)))) =
        effect
    else {
        return Ok(None);
    };
    let Some(text) = ending_in(alloc, nick, shown.spelling())? else {
        return Ok(None);
    };
    let told = noticed(alloc, nick, text.as_slice())?;
    let told = FenceEffect::Inner(Effect::Show(*origin, told));
    Ok(Some(Answer::Effect(ClaimsEffect::Inner(told))))
}

/// A NOTICE of `*status` to this nick with a text.
fn noticed(alloc: Global, nick: &[u8], text: &[u8]) -> Result<Shown, AllocError>
    ensures { IfOk result (λ shown. shown ≡ noticed nick.now text.now) }
{
    Shown::of_parts(
        alloc,
        Some(b"*status!bouncer@local"),
        b"NOTICE",
        &[nick, text],
    )
}

/// What a client gets for a shown line, if the server ends the session by it.
fn ending_in(alloc: Global, nick: &[u8], shown: &[u8]) -> Result<Option<Vec<u8>>, AllocError>
    ensures { IfOk result (λ text. option_map (λ text. text.items) text
        ≡ ending_in nick.now (canonical shown.now (judged shown.now))) }
{
    if !may_end(shown) {
        return Ok(None);
    }
    let Some(line) = Line::from_spelling(alloc, shown)? else {
        return Ok(None);
    };
    ending_of(alloc, nick, &line)
}

/// Whether the start of a line's command allows it to be such a line, which is rare.
fn may_end(shown: &[u8]) -> bool
    ensures { result ≡ may_end shown.now }
{
    let command = unprefixed(shown);
    command.starts_with(b"ERROR") || command.starts_with(b"KILL")
}

/// The part of a line after its prefix.
fn unprefixed(shown: &[u8]) -> &[u8]
    ensures { result.now ≡ unprefixed shown.now }
{
    match shown {
        [b':', line @ ..] => behind_space(line),
        _ => shown,
    }
}

/// What a client gets when the server ends the session by this line.
fn ending_of(alloc: Global, nick: &[u8], line: &Line) -> Result<Option<Vec<u8>>, AllocError>
    ensures { IfOk result (λ text. option_map (λ text. text.items) text
        ≡ ending_of nick.now line.now) }
{
    if has_command(line, b"ERROR") {
        let mut text = Vec::from_slice(alloc, b"The server ends the session")?;
        push_behind_colon(&mut text, last_parameter(line))?;
        return Ok(Some(text));
    }
    if !is_kill(line, nick) {
        return Ok(None);
    }
    let mut text = Vec::from_slice(alloc, b"The server ends the session: killed by ")?;
    text.extend_from_slice(nick_or_server(source_of(line)))?;
    push_behind_colon(&mut text, line.parameter(1))?;
    Ok(Some(text))
}

/// Whether a line is the KILL of the user with this nick.
fn is_kill(line: &Line, nick: &[u8]) -> bool
    ensures { result ≡ is_kill nick.now line.now }
{
    has_command(line, b"KILL") && is_same_name(nick, line.parameter(0))
}

/// The last parameter of a line; empty if there is none.
pub fn last_parameter(line: &Line) -> &[u8]
    ensures { result.now ≡ last_parameter line.now }
{
    line.parameter(line.parameter_count().saturating_sub(1))
}

/// This nick, or the server if it is empty.
pub fn nick_or_server(nick: &[u8]) -> &[u8]
    ensures { result.now ≡ nick_or_server nick.now }
{
    if nick.is_empty() { b"the server" } else { nick }
}

/// Appends a text after a colon, if it is not empty.
fn push_behind_colon(out: &mut Vec<u8>, text: &[u8]) -> Result<(), AllocError>
    ensures { OnOk result (out.new.items ≡ out.old.items ++ behind_colon text.now) }
{
    if text.is_empty() {
        return Ok(());
    }
    out.extend_from_slice(b": ")?;
    out.extend_from_slice(text)
}
