//! The text of a first configuration.
ghost use Rattle.std.specs.Prelude.{IfOk};
ghost use Rattle.bouncer_config.specs.Reads.{Says};

use crate::answers::Answers;
use crate::fault::InitFault;
use crate::sample::{BEFORE_CHANNELS, BEFORE_NICK, BEFORE_PASSWORD, BEFORE_SERVER, BEHIND};
use bouncer_config::{Config, Problem, parse_config};
use std::alloc::{AllocError, Global};

/// A text, and the configuration that it describes.
#[derive(Drop)]
pub struct FirstConfig {
    pub text: Vec<u8>,
    pub config: Config,
}

/// The first configuration with these answers and this password for the clients. `Refused` if they make none, with the
/// line that is wrong.
pub fn first_config(
    alloc: Global,
    answers: &Answers,
    password: &str,
) -> Result<FirstConfig, InitFault>
    ensures { IfOk result (λ first. Says first.text.items first.config) }
{
    let text = text_of(alloc, answers, password)?;
    match parse_config(alloc, &text) {
        Ok(config) => Ok(FirstConfig { text, config }),
        Err(fault) => match fault.problem {
            Problem::Memory => Err(InitFault::Memory),
            _ => Err(InitFault::Refused(fault)),
        },
    }
}

/// The text with these answers.
fn text_of(alloc: Global, answers: &Answers, password: &str) -> Result<Vec<u8>, AllocError> {
    let mut text = Vec::new(alloc);
    text.extend_from_slice(BEFORE_NICK.as_bytes())?;
    push_quoted(&mut text, answers.nick.as_bytes())?;
    text.extend_from_slice(BEFORE_PASSWORD.as_bytes())?;
    push_quoted(&mut text, password.as_bytes())?;
    text.extend_from_slice(BEFORE_SERVER.as_bytes())?;
    push_quoted(&mut text, answers.server.as_bytes())?;
    text.extend_from_slice(BEFORE_CHANNELS.as_bytes())?;
    push_list(&mut text, &answers.channels)?;
    text.extend_from_slice(BEHIND.as_bytes())?;
    Ok(text)
}

/// Texts as an array of TOML.
fn push_list(out: &mut Vec<u8>, texts: &[String]) -> Result<(), AllocError> {
    out.push(b'[')?;
    let mut is_first = true;
    for text in texts {
        if !is_first {
            out.extend_from_slice(b", ")?;
        }
        is_first = false;
        push_quoted(out, text.as_bytes())?;
    }
    out.push(b']')?;
    Ok(())
}

/// A text as a basic string of TOML; refused if it has a control character.
fn push_quoted(out: &mut Vec<u8>, text: &[u8]) -> Result<(), AllocError> {
    out.push(b'"')?;
    for byte in text {
        if *byte == b'"' || *byte == b'\\' {
            out.push(b'\\')?;
        }
        out.push(*byte)?;
    }
    out.push(b'"')?;
    Ok(())
}
