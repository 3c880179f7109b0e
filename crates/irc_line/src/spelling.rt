//! The canonical spelling of a line (RFC 2812, 2.3.1).
ghost use Rattle.std.specs.Prelude.{◌≡◌, ◌+◌, ◌++◌, ◌∷◌, [], length, map, min, take, vec_capacity, ◌≤◌, OnErr, OnOk};
ghost use Rattle.irc_line.specs.Lines.{cut_spelling, LacksRoom, has_colon, is_spoken, is_trailing, lent_prefix, spelled_last, spelled_parameters, spelled_parts, spelled_prefix, spelling};

use crate::Line;
use crate::bytes::{begins_with, has_space, is_same};
use crate::limits::CONTENT_LIMIT;
use std::alloc::AllocError;

impl Line {
    /// Appends the canonical spelling, without CR LF. It is refused only if room is missing and no memory is left.
    pub fn write_to(&self, out: &mut Vec<u8>) -> Result<(), AllocError>
        ensures ok { OnOk result (out.new.items ≡ out.old.items ++ spelling self.now) }
        ensures err { OnErr result (out.new.items ≡ out.old.items) }
        ensures full { OnErr result (LacksRoom out.old (length (spelling self.now))) }
        ensures capacity { vec_capacity out.old ≤ vec_capacity out.new }
    {
        out.extend_from_slice(self.spelling())
    }

    /// Appends the first 510 bytes of the canonical spelling with CR LF, as a line is sent (RFC 2812, 2.3: 512 bytes
    /// with CR LF). The whole spelling needs room before it is cut.
    pub fn write_cut(&self, out: &mut Vec<u8>) -> Result<(), AllocError>
        ensures ok { OnOk result (out.new.items ≡ out.old.items ++ cut_spelling self.now) }
        ensures err { OnErr result (out.new.items ≡ out.old.items) }
        ensures full { OnErr result (LacksRoom out.old (length (spelling self.now) + 2)) }
        ensures capacity { vec_capacity out.old ≤ vec_capacity out.new }
    {
        let before = out.len();
        self.write_to(out)?;
        out.truncate(before + CONTENT_LIMIT);
        let ended = out.extend_from_slice(b"\r\n");
        if ended.is_err() {
            out.truncate(before);
        }
        ended
    }

    /// How many bytes `write_to` appends; `usize::MAX` where they are more than that.
    pub fn spelled_len(&self) -> usize
        ensures { result ≡ min (length (spelling self.now)) usize.MAX }
    {
        self.spelling().len()
    }
}

/// Appends the canonical spelling of these parts, which need not be a line's.
pub fn write_parts(
    out: &mut Vec<u8>,
    prefix: Option<&[u8]>,
    command: &[u8],
    parameters: &[&[u8]],
) -> Result<(), AllocError>
    ensures ok { OnOk result (out.new.items ≡ out.old.items ++
        spelled_parts prefix.entry command.now (map (λ x. x.now) parameters.now)) }
    ensures err { OnErr result (out.new.items ≡ out.old.items) }
    ensures full { OnErr result (LacksRoom out.old
        (length (spelled_parts prefix.entry command.now (map (λ x. x.now) parameters.now)))) }
    ensures capacity { vec_capacity out.old ≤ vec_capacity out.new }
{
    let before = out.len();
    let written = push_spelling(out, prefix, command, parameters);
    if written.is_err() {
        out.truncate(before);
    }
    written
}

/// Appends the canonical spelling. After an error a part of it may have been appended.
#[tactic(auto, unfolding(crate::specs::Lines::spelling))]
fn push_spelling(
    out: &mut Vec<u8>,
    prefix: Option<&[u8]>,
    command: &[u8],
    parameters: &[&[u8]],
) -> Result<(), AllocError>
    ensures ok { OnOk result (out.new.items ≡ out.old.items ++
        spelled_parts prefix.entry command.now (map (λ x. x.now) parameters.now)) }
    ensures err { OnErr result (take (length out.old.items) out.new.items ≡ out.old.items) }
    ensures full { OnErr result (LacksRoom out.old
        (length (spelled_parts prefix.entry command.now (map (λ x. x.now) parameters.now)))) }
    ensures capacity { vec_capacity out.old ≤ vec_capacity out.new }
{
    push_prefix(out, prefix)?;
    out.extend_from_slice(command)?;
    push_parameters(out, command, parameters)
}

/// Appends the canonical spelling of a prefix. After an error a part of it may have been appended.
pub fn push_prefix(out: &mut Vec<u8>, prefix: Option<&[u8]>) -> Result<(), AllocError>
    ensures ok { OnOk result (out.new.items ≡ out.old.items ++
        spelled_prefix (lent_prefix prefix.entry)) }
    ensures err { OnErr result (take (length out.old.items) out.new.items ≡ out.old.items) }
    ensures full { OnErr result (LacksRoom out.old (length (spelled_prefix
        (lent_prefix prefix.entry)))) }
    ensures capacity { vec_capacity out.old ≤ vec_capacity out.new }
{
    if let Some(prefix) = prefix {
        out.push(b':')?;
        out.extend_from_slice(prefix)?;
        out.push(b' ')?;
    }
    Ok(())
}

/// Appends the canonical spelling of parameters. After an error a part of it may have been appended.
pub fn push_parameters(
    out: &mut Vec<u8>,
    command: &[u8],
    parameters: &[&[u8]],
) -> Result<(), AllocError>
    ensures ok { OnOk result (out.new.items ≡ out.old.items ++
        spelled_parameters command.now (map (λ x. x.now) parameters.now)) }
    ensures err { OnErr result (take (length out.old.items) out.new.items ≡ out.old.items) }
    ensures full { OnErr result (LacksRoom out.old
        (length (spelled_parameters command.now (map (λ x. x.now) parameters.now)))) }
    ensures capacity { vec_capacity out.old ≤ vec_capacity out.new }
{
    match parameters {
        [] => Ok(()),
        [last] => push_last(out, command, last),
        [first, rest @ ..] => {
            out.push(b' ')?;
            out.extend_from_slice(first)?;
            push_parameters(out, command, rest)
        }
    }
}

fn push_last(out: &mut Vec<u8>, command: &[u8], last: &[u8]) -> Result<(), AllocError>
    ensures ok { OnOk result (out.new.items ≡ out.old.items ++ spelled_last command.now last.now) }
    ensures err { OnErr result (take (length out.old.items) out.new.items ≡ out.old.items) }
    ensures full { OnErr result (LacksRoom out.old (length (spelled_last command.now last.now))) }
    ensures capacity { vec_capacity out.old ≤ vec_capacity out.new }
{
    out.push(b' ')?;
    if needs_colon(command, last) {
        out.push(b':')?;
    }
    out.extend_from_slice(last)
}

/// The length of the canonical spelling, at most `usize::MAX`.
#[tactic(auto, unfolding(crate::specs::Lines::spelling))]
pub fn spelling_len(prefix: Option<&[u8]>, command: &[u8], parameters: &[&[u8]]) -> usize
    ensures { let all = spelled_parts prefix.entry command.now (map (λ x. x.now) parameters.now) in
        result ≡ min (length all) usize.MAX }
{
    let front = prefix_len(prefix).saturating_add(command.len());
    front.saturating_add(parameters_len(command, parameters))
}

pub fn prefix_len(prefix: Option<&[u8]>) -> usize
    ensures { result ≡ length (spelled_prefix (lent_prefix prefix.entry)) }
{
    match prefix {
        None => 0,
        Some(prefix) => prefix.len() + 2,
    }
}

fn parameters_len(command: &[u8], parameters: &[&[u8]]) -> usize
    ensures { result ≡
        min (length (spelled_parameters command.now (map (λ x. x.now) parameters.now))) usize.MAX }
{
    match parameters {
        [] => 0,
        [last] => last_len(command, last),
        [first, rest @ ..] => (first.len() + 1).saturating_add(parameters_len(command, rest)),
    }
}

fn last_len(command: &[u8], last: &[u8]) -> usize
    ensures { result ≡ length (spelled_last command.now last.now) }
{
    if needs_colon(command, last) {
        last.len() + 2
    } else {
        last.len() + 1
    }
}

fn needs_colon(command: &[u8], last: &[u8]) -> bool
    ensures { result ≡ has_colon command.now last.now }
{
    is_a_trailing(last) || is_spoken_word(command)
}

/// Whether this parameter can only be a trailing one.
pub fn is_a_trailing(last: &[u8]) -> bool
    ensures { result ≡ is_trailing last.now }
{
    last.is_empty() || begins_with(last, b':') || has_space(last)
}

/// Whether the command's last parameter always has a colon before it.
fn is_spoken_word(command: &[u8]) -> bool
    ensures { result ≡ is_spoken command.now }
{
    is_same(command, b"PRIVMSG") || is_same(command, b"NOTICE") || is_same(command, b"TOPIC")
}
