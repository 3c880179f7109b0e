ghost use Rattle.std.specs.Prelude.{◌≡◌, None, length, map, IfOk, IsTrue};
ghost use Rattle.irc_line.specs.Lines.{is_line, is_prefix, is_upper_command, lent_prefix, message, parameter, parts, spelling};
ghost use Rattle.irc_line.specs.Places.{IsHeld, cut_parts};

use crate::shared::SharedBytes;
use crate::spelling::{push_parameters, push_prefix, spelling_len};
use crate::tail::{nth_parameter, parameters_in};
use crate::{Name, Text};
use std::alloc::{AllocError, Global};
use std::marker::Model;

/// A line, by what it says (RFC 2812, 2.3.1): an optional prefix, a command and at most
/// 15 parameters.
///
/// It is held as its canonical spelling, which all its copies share. A line that was read has at
/// most 511 bytes; one that was built may have more.
#[derive(Drop)]
pub struct Line {
    text: SharedBytes,
    /// Where the command begins; 0 if there is no prefix.
    command: usize,
    /// Where the command ends, and the parameters begin.
    tail: usize,
}

impl Model for Line {
    ghost use Rattle.irc_line.specs.Lines.{Parts, parts_code};
    ghost use Rattle.irc_line.specs.Places.{IsHeld, cut_parts};

    ghost Value = { Parts };

    ghost coded = { parts_code };

    ghost view = { λ l. cut_parts l.text l.command l.tail };

    ghost invariant = { λ l. IsHeld l.text l.command l.tail };
}

impl Line {
    /// The line of these parts.
    pub fn new(
        alloc: Global,
        prefix: Option<&[u8]>,
        command: &[u8],
        parameters: &[&[u8]],
    ) -> Result<Line, AllocError>
        requires { IsTrue (is_line
            (parts (lent_prefix prefix) command.now (map (λ x. x.now) parameters.now))) }
        ensures { IfOk result (λ l. l ≡
            parts (lent_prefix prefix.entry) command.now (map (λ x. x.now) parameters.now)) }
    {
        let mut text = Vec::with_capacity(alloc, spelling_len(prefix, command, parameters))?;
        push_prefix(&mut text, prefix)?;
        let start = text.len();
        text.extend_from_slice(command)?;
        let end = text.len();
        push_parameters(&mut text, command, parameters)?;
        Line::cut(text, start, end)
    }

    /// The line of this canonical spelling, whose command lies between these places.
    pub(crate) fn cut(text: Vec<u8>, command: usize, tail: usize) -> Result<Line, AllocError>
        requires { IsHeld text.items command tail }
        ensures { IfOk result (λ l. l ≡ cut_parts text.items command tail) }
    {
        Ok(Line {
            text: SharedBytes::from_vec(text)?,
            command,
            tail,
        })
    }

    /// A command with a target and a text, such as `PRIVMSG` and `NOTICE` (RFC 2812, 3.3).
    pub fn message(
        alloc: Global,
        prefix: Option<&[u8]>,
        command: &[u8],
        target: &Name,
        text: &Text,
    ) -> Result<Line, AllocError>
        requires prefix { IsTrue (is_prefix (lent_prefix prefix)) }
        requires command { IsTrue (is_upper_command command.now) }
        ensures { IfOk result (λ l. l ≡
            message (lent_prefix prefix.entry) command.now target.now text.now) }
    {
        Line::new(
            alloc,
            prefix,
            command,
            &[target.as_bytes(), text.as_bytes()],
        )
    }

    /// The line without its prefix. A line that has none is shared, and nothing is allocated.
    pub fn without_prefix(&self, alloc: Global) -> Result<Line, AllocError>
        ensures { IfOk result (λ l. l ≡ parts None self.now.command self.now.parameters) }
    {
        if self.command == 0 {
            return self.share();
        }
        let text = Vec::from_slice(alloc, &self.spelling()[self.command..])?;
        Line::cut(text, 0, self.tail - self.command)
    }

    /// The prefix, without its colon, if there is one.
    pub fn prefix(&self) -> Option<&[u8]>
        ensures value { lent_prefix result ≡ self.now.prefix }
        ensures line { IsTrue (is_line self.now) }
    {
        if self.command == 0 {
            None
        } else {
            Some(&self.spelling()[1..self.command - 1])
        }
    }

    /// The command, in upper case.
    pub fn command(&self) -> &[u8]
        ensures value { result.now ≡ self.now.command }
        ensures line { IsTrue (is_line self.now) }
    {
        &self.spelling()[self.command..self.tail]
    }

    pub fn parameter_count(&self) -> usize
        ensures value { result ≡ length self.now.parameters }
        ensures line { IsTrue (is_line self.now) }
    {
        parameters_in(&self.spelling()[self.tail..])
    }

    /// A parameter, from 0; no bytes if there is none. The parameters are searched from the first
    /// one on.
    pub fn parameter(&self, i: usize) -> &[u8]
        ensures value { result.now ≡ parameter i self.now }
        ensures line { IsTrue (is_line self.now) }
    {
        nth_parameter(&self.spelling()[self.tail..], i)
    }

    /// The canonical spelling, without CR LF.
    pub fn spelling(&self) -> &[u8]
        ensures value { result.now ≡ spelling self.now }
        ensures line { IsTrue (is_line self.now) }
    {
        self.text.as_slice()
    }

    /// The canonical spelling as the line holds it.
    pub fn text(&self) -> &SharedBytes
        ensures { result.now ≡ spelling self.now }
    {
        &self.text
    }

    /// The line once more, with the same text. Nothing is allocated; it is refused only where the
    /// text is shared more often than can be counted.
    pub fn share(&self) -> Result<Line, AllocError>
        ensures { IfOk result (λ l. l ≡ self.now) }
    {
        Ok(Line {
            text: self.text.share()?,
            command: self.command,
            tail: self.tail,
        })
    }
}
