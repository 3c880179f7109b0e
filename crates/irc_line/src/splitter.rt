//! How a stream of bytes is split into lines (RFC 2812, 2.3).
ghost use Rattle.std.specs.Prelude.{◌≡◌, ◌<◌, ◌≤◌, ◌++◌, [], length, take, position, IfOk, OnOk, OnErr, MatchOption};
ghost use Rattle.irc_line.specs.Splitting.{BringsItems, HasNoLineFeed, HoldsMore, IsCutAtLineFeed, Stands, StandsBehind};
ghost use Rattle.irc_line.specs.Splitting.{is_line_feed, content_item, ended_items, items_at, items_from, unended_from, without_return};
ghost use Rattle.irc_line.specs.Limits.{held_limit};

use crate::limits::{CONTENT_LIMIT, HELD_LIMIT};
use crate::{Item, Line, LineFault};
use std::alloc::{AllocError, Global};
use std::marker::Model;

/// Splits bytes that come in pieces, however they are cut, into items.
///
/// An LF ends a content, one CR before it is dropped, and an empty content gives nothing. A content
/// of more than 510 bytes is refused once, at its LF. What follows the last LF gives nothing yet.
#[derive(Drop)]
pub struct Splitter {
    alloc: Global,
    /// The bytes since the last LF, up to the 512th, which shows that they are too many even with a
    /// CR.
    held: Vec<u8>,
}

impl Model for Splitter {
    ghost use Rattle.std.specs.Prelude.{ℕ, List, length, ◌≤◌};
    ghost use Rattle.irc_line.specs.Limits.{held_limit};

    ghost Value = { List ℕ };

    ghost view = { λ s. s.held.items };

    ghost invariant = { λ s. length s.held.items ≤ held_limit };
}

impl Splitter {
    /// A splitter that was fed nothing; it allocates nothing.
    #[tactic(auto, unfolding(crate::specs::Splitting::Stands))]
    pub fn new(alloc: Global) -> Splitter
        ensures { Stands result [] }
    {
        Splitter {
            alloc,
            held: Vec::new(alloc),
        }
    }

    /// The items of the contents that these bytes end. If memory runs out the splitter is as
    /// before; no memory is requested for what follows the last LF past the 512th byte.
    pub fn feed(&mut self, bytes: &[u8]) -> Result<Vec<Item>, AllocError>
        ensures stands { OnOk result (StandsBehind self.old bytes.now self.new) }
        ensures items { IfOk result (λ got. BringsItems self.old bytes.now got.items) }
        ensures err { OnErr result (self.new ≡ self.old) }
        ensures memory { OnErr result (HoldsMore self.old bytes.now) }
    {
        match at_line_feed(bytes) {
            None => {
                hold(&mut self.held, bytes)?;
                Ok(Vec::new(self.alloc))
            }
            Some((ended, rest)) => {
                let (items, held) = self.split(ended, rest)?;
                self.held = held;
                Ok(items)
            }
        }
    }

    /// What an LF gives, between what comes before it and the rest: the items, and the bytes that
    /// are then held.
    fn split(&self, ended: &[u8], rest: &[u8]) -> Result<(Vec<Item>, Vec<u8>), AllocError>
        ensures items { IfOk result (λ t. t.0.items ≡ items_at self.now ended.now rest.now) }
        ensures held { IfOk result (λ t. t.1.items ≡ take held_limit (unended_from [] rest.now)) }
        ensures bound { IfOk result (λ t. length t.1.items ≤ held_limit) }
    {
        let mut first = Vec::from_slice(self.alloc, &self.held)?;
        hold(&mut first, ended)?;
        let mut items = Vec::new(self.alloc);
        push_item(self.alloc, &mut items, &first)?;
        let unended = push_items(self.alloc, &mut items, rest)?;
        let held = Vec::from_slice(self.alloc, at_most(unended, HELD_LIMIT))?;
        Ok((items, held))
    }
}

/// What comes before the first LF, and what follows it.
fn at_line_feed(bytes: &[u8]) -> Option<(&[u8], &[u8])>
    ensures { MatchOption result (HasNoLineFeed bytes.now)
        (λ t. IsCutAtLineFeed bytes.now t.0.now t.1.now) }
{
    match line_feed_place(bytes) {
        None => None,
        Some(place) => Some((&bytes[..place], &bytes[place + 1..])),
    }
}

fn line_feed_place(bytes: &[u8]) -> Option<usize>
    ensures { result ≡ position is_line_feed bytes.now }
{
    bytes.iter().position(|byte| *byte == b'\n')
}

/// The first `n` bytes, or all if there are fewer.
fn at_most(bytes: &[u8], n: usize) -> &[u8]
    ensures value { result.now ≡ take n bytes.now }
    ensures bound { length result.now ≤ n }
{
    if n < bytes.len() { &bytes[..n] } else { bytes }
}

/// Adds bytes to those that are held, up to the 512th.
#[tactic(auto, using(crate::proofs::Splitting::held_more))]
fn hold(held: &mut Vec<u8>, bytes: &[u8]) -> Result<(), AllocError>
    requires { length held.old.items ≤ held_limit }
    ensures ok { OnOk result (held.new.items ≡ take held_limit (held.old.items ++ bytes.now)) }
    ensures bound { length held.new.items ≤ held_limit }
    ensures err { OnErr result (held.new.items ≡ held.old.items) }
    ensures memory { OnErr result ((length held.old.items < held_limit) × (0 < length bytes.now)) }
{
    let room = HELD_LIMIT - held.len();
    held.extend_from_slice(at_most(bytes, room))
}

/// What comes before an LF, without the CR at its end.
fn content_of(ended: &[u8]) -> &[u8]
    ensures { result.now ≡ without_return ended.now }
{
    match ended {
        [] => ended,
        [content @ .., last] => if *last == b'\r' { content } else { ended },
    }
}

/// What a content that is not empty gives.
#[tactic(auto, unfolding(crate::specs::Splitting::content_item))]
fn judge(alloc: Global, content: &[u8]) -> Result<Item, AllocError>
    ensures { IfOk result (λ item. item ≡ content_item content.now) }
{
    if content.len() > CONTENT_LIMIT {
        return Ok(Item::Refused(LineFault::TooLong));
    }
    match Line::parse(alloc, content) {
        Ok(line) => Ok(Item::Got(line)),
        Err(LineFault::Memory) => Err(AllocError),
        Err(fault) => Ok(Item::Refused(fault)),
    }
}

/// Adds the item, if any, of what comes before an LF.
#[tactic(auto, unfolding(crate::specs::Splitting::ended_items))]
fn push_item(alloc: Global, items: &mut Vec<Item>, ended: &[u8]) -> Result<(), AllocError>
    ensures { OnOk result (items.new.items ≡ items.old.items ++ ended_items ended.now) }
{
    let content = content_of(ended);
    if content.is_empty() {
        return Ok(());
    }
    items.push(judge(alloc, content)?)?;
    Ok(())
}

/// Adds the items of the contents that these bytes end, and returns what follows the last LF.
fn push_items<'a>(
    alloc: Global,
    items: &mut Vec<Item>,
    bytes: &'a [u8],
) -> Result<&'a [u8], AllocError>
    ensures items { OnOk result (items.new.items ≡ items.old.items ++ items_from [] bytes.now) }
    ensures rest { IfOk result (λ rest. rest.now ≡ unended_from [] bytes.now) }
{
    let mut rest = bytes;
    while let Some((ended, behind)) = at_line_feed(rest) {
        push_item(alloc, items, ended)?;
        rest = behind;
    }
    Ok(rest)
}
