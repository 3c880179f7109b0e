//! How a content is read (RFC 2812, 2.3.1).
ghost use Rattle.std.specs.Prelude.{◌≡◌, ◌≢◌, IfOk, IfErr, IsOk, IsSome, OnErr, Ok, Err, not, position};
ghost use Rattle.irc_line.specs.Lines.{lent_prefix};
ghost use Rattle.irc_line.specs.Names.{is_content_byte};
ghost use Rattle.irc_line.specs.Reading.{canonical, judged, read_command, read_prefix};

use crate::bytes::is_allowed;
use crate::draft::Draft;
use crate::limits::LINE_LIMIT;
use crate::word::{is_a_command, split_word, without_spaces};
use crate::{Line, LineFault};
use std::alloc::{AllocError, Global};

impl Line {
    /// The line of a content, given without its CR LF; else its first fault, in this order:
    /// `TooLong` (more than 511 bytes), `BadByte`, `NoCommand` (an empty prefix too),
    /// `TooManyParameters`, and `TooLong` for a canonical spelling of more than 511 bytes.
    ///
    /// `Memory` comes only where the content is a line and no memory is left to build it.
    pub fn parse(alloc: Global, content: &[u8]) -> Result<Line, LineFault>
        ensures ok { IfOk result (λ l. judged content.now ≡ Ok l) }
        ensures err { IfErr result (λ e. e ≢ LineFault.Memory → judged content.now ≡ Err e) }
        ensures memory { IfErr result (λ e. e ≡ LineFault.Memory → IsOk (judged content.now)) }
    {
        // All faults are found before the first allocation, so that running out of memory hides
        // none of them.
        let draft = judge(content)?;
        if draft.is_spelled(content) {
            Ok(draft.copied(alloc, content)?)
        } else {
            Ok(draft.build(alloc)?)
        }
    }

    /// The line of which these bytes are the canonical spelling; none where they are another
    /// spelling or no line.
    ///
    /// It is refused only where they are that spelling and no memory is left to build the line.
    pub fn from_spelling(alloc: Global, bytes: &[u8]) -> Result<Option<Line>, AllocError>
        ensures ok { IfOk result (λ l. l ≡ canonical bytes.now (judged bytes.now)) }
        ensures memory { OnErr result (IsSome (canonical bytes.now (judged bytes.now))) }
    {
        match judge(bytes) {
            Err(_) => Ok(None),
            Ok(draft) => if draft.is_spelled(bytes) {
                Ok(Some(draft.copied(alloc, bytes)?))
            } else {
                Ok(None)
            },
        }
    }
}

/// What a content says, where it is a line; else its first fault.
#[tactic(auto, unfolding(crate::specs::Reading::judged, crate::specs::Reading::read))]
fn judge(content: &[u8]) -> Result<Draft<'_>, LineFault>
    ensures { result ≡ judged content.now }
{
    if content.len() > LINE_LIMIT {
        return Err(LineFault::TooLong);
    }
    if let Some(place) = bad_place(content) {
        return Err(LineFault::BadByte(place));
    }
    match draft_of(without_spaces(content)) {
        None => Err(LineFault::NoCommand),
        Some(draft) => {
            draft.check_limits()?;
            Ok(draft)
        }
    }
}

/// The place of the first byte that no content may hold.
fn bad_place(content: &[u8]) -> Option<usize>
    ensures { result ≡ position (λ b. not (is_content_byte b)) content.now }
{
    content.iter().position(|b| !is_allowed(*b))
}

/// The draft of a content that does not begin with a space.
fn draft_of(text: &[u8]) -> Option<Draft<'_>>
    ensures { result ≡ read_prefix text.now }
{
    match text {
        [] => None,
        [b':', rest @ ..] => {
            let (word, behind) = split_word(rest);
            if word.is_empty() {
                return None;
            }
            draft_behind(Some(word), without_spaces(behind))
        }
        _ => draft_behind(None, text),
    }
}

/// The draft of what follows a prefix.
fn draft_behind<'a>(prefix: Option<&'a [u8]>, text: &'a [u8]) -> Option<Draft<'a>>
    ensures { result ≡ read_command (lent_prefix prefix.entry) text.now }
{
    let (command, tail) = split_word(text);
    if is_a_command(command) {
        Some(Draft {
            prefix,
            command,
            tail,
        })
    } else {
        None
    }
}
