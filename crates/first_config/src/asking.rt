//! Asking a person at a terminal.

use crate::answers::{Answers, CHANNEL, NICK, SERVER};
use crate::fault::InitFault;
use std::alloc::Global;
use std::io::Read;
use std::rt::Runtime;

/// The most bytes of an answer, as of a line of IRC.
const MOST: usize = 510;

/// Asks each question on standard error and reads the answer from an input: the nick, the server, and the channels,
/// separated by spaces. An empty line, or the end of the input, means the default that is shown in brackets.
pub fn ask<R: Runtime + AllocGlobal, I: Read>(rt: &R, input: &mut I) -> Result<Answers, InitFault> {
    let alloc = rt.alloc();
    let mut words = Vec::new(alloc);
    let _ = eprint!(rt; "nick [{NICK}]: ");
    words
        .push(line(alloc, input)?)
        .map_err(|_| InitFault::Memory)?;
    let _ = eprint!(rt; "IRC server, on this machine or the end of a tunnel [{SERVER}]: ");
    words
        .push(line(alloc, input)?)
        .map_err(|_| InitFault::Memory)?;
    let _ = eprint!(rt; "channels [{CHANNEL}]: ");
    let channels = line(alloc, input)?;
    for channel in channels.as_str().split_whitespace() {
        words
            .push(String::from_str(alloc, channel)?)
            .map_err(|_| InitFault::Memory)?;
    }
    Ok(Answers::of(alloc, words)?)
}

/// The next line of an input, without its end, and cut to the longest answer.
fn line<I: Read>(alloc: Global, input: &mut I) -> Result<String, InitFault> {
    let mut bytes = Vec::new(alloc);
    let mut byte = [0u8; 1];
    for _ in 0..MOST {
        match input.read(&mut byte) {
            Ok(1) if byte[0] == b'\n' => break,
            Ok(1) => bytes.push(byte[0]).map_err(|_| InitFault::Memory)?,
            Ok(_) => break,
            Err(_) => return Err(InitFault::Unread),
        }
    }
    if bytes.last() == Some(&b'\r') {
        bytes.pop();
    }
    match String::from_utf8(bytes) {
        Ok(text) => Ok(text),
        Err(_) => Err(InitFault::NoText),
    }
}
