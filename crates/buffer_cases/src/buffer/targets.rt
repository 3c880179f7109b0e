//! Lines that channels and queries keep, as text.
use buffer_lines::{KeptLine, Offset};
use buffer_targets::Target;
use irc_line::Line;
use std::alloc::{AllocError, Global};
use std::test::Fail;
use wire_bytes::Moment;

/// A message whose text is one byte.
pub fn line(alloc: Global, text: &str) -> Result<KeptLine, Fail> {
    let content = format!(in alloc; ":a!b@c PRIVMSG #x :{text}")?;
    let line = Line::parse(alloc, content.as_bytes())?;
    Ok(KeptLine::new(Moment::new(0), line))
}

/// Appends the spelling of a target and the texts that it keeps.
pub fn push_target(out: &mut Vec<u8>, target: &Target) -> Result<(), AllocError> {
    out.extend_from_slice(target.name().as_bytes())?;
    out.push(b'=')?;
    for shown in &target.lines().play(Offset::default(), b"#x")? {
        match shown.spelling() {
            [.., text] if *text != b'.' => out.push(*text)?,
            _ => {}
        }
    }
    Ok(out.push(b' ')?)
}
