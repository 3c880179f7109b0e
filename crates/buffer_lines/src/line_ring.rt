ghost use Rattle.std.specs.Prelude.{◌≡◌, ◌≤◌, ◌<◌, ◌^◌, [], ◌++◌, codes, drop, length, map, option_map, slice_get, IfOk, IsOk, OnOk, OnErr};
ghost use Rattle.std.specs.List.{concat};
ghost use Rattle.irc_line.specs.Lines.{spelling};
ghost use Rattle.buffer_lines.specs.Parts.{parts, total};
ghost use Rattle.buffer_lines.specs.Stamps.{frame, of_size, ring, shown_framed, shown_timed, with_line};

use crate::kept_line::KeptLine;
use crate::offset::Offset;
use crate::shown::Shown;
use circular_buffer::HeapCircularBuffer;
use irc_line::SharedBytes;
use std::alloc::{AllocError, Global};
use std::marker::Model;

/// The last lines of one target, the oldest first, and how many of them may be kept.
#[derive(Drop)]
pub struct LineRing {
    alloc: Global,
    lines: HeapCircularBuffer<KeptLine>,
    size: usize,
}

impl Model for LineRing {
    ghost use Rattle.std.specs.Prelude.{◌≤◌, length};
    ghost use Rattle.buffer_lines.specs.Stamps.{Ring, ring_code};

    ghost Value = { Ring };

    ghost coded = { ring_code };

    ghost view = { λ r. record { lines = r.lines.items; size = r.size } };

    ghost invariant = { λ r. (length r.lines.items ≤ r.size) × (r.size ≤ r.lines.capacity) };
}

impl LineRing {
    /// A ring that keeps at most this many lines; with size 0 it keeps none.
    pub fn new(alloc: Global, size: usize) -> Result<LineRing, AllocError>
        ensures { IfOk result (λ r. r ≡ ring [] size) }
    {
        Ok(LineRing {
            alloc,
            lines: HeapCircularBuffer::with_capacity(alloc, size)?,
            size,
        })
    }

    /// Adds a line, and drops the oldest if there is no room.
    pub fn push(&mut self, line: KeptLine)
        ensures { self.new ≡ with_line line self.old }
    {
        if self.size == 0 {
            return;
        }
        // The deque may have more capacity than the size: it does not drop the oldest by itself.
        if self.lines.len() == self.size {
            self.lines.pop_front();
        }
        self.lines.push_back(line);
    }

    /// Keeps at most this many lines from now on, and drops the oldest that are too many. A refused
    /// call changes nothing; a size that is not larger is never refused.
    pub fn set_size(&mut self, size: usize) -> Result<(), AllocError>
        ensures ok { OnOk result (self.new ≡ of_size size self.old) }
        ensures err { OnErr result (self.new ≡ self.old) }
        ensures smaller { size ≤ self.old.size → IsOk result }
    {
        // Room is reserved first: a refused call has dropped no line.
        if size > self.lines.capacity() {
            self.lines.resize(size)?;
        }
        self.lines.truncate_front(size);
        self.size = size;
        Ok(())
    }

    /// Removes all lines.
    pub fn clear(&mut self)
        ensures { self.new ≡ ring [] self.old.size }
    {
        self.lines.clear();
    }

    /// The kept lines with their times, between the two frame lines of their target; nothing where
    /// none is kept.
    pub fn play(&self, offset: Offset, target: &[u8]) -> Result<Vec<Shown>, AllocError>
        ensures { IfOk result (λ v. v.items ≡ shown_framed offset target.now self.now.lines) }
    {
        played(self.alloc, offset, target, &self.lines, 0)
    }

    /// The same as `play`, for the lines after this many older ones.
    pub fn play_behind(
        &self,
        older: usize,
        offset: Offset,
        target: &[u8],
    ) -> Result<Vec<Shown>, AllocError>
        ensures { IfOk result (λ v. v.items ≡
            shown_framed offset target.now (drop older self.now.lines)) }
    {
        played(self.alloc, offset, target, &self.lines, older)
    }

    /// How many lines are kept.
    pub fn count(&self) -> usize
        ensures count { result ≡ length self.now.lines }
        ensures within { result < 2 ^ 63 }
    {
        self.lines.len()
    }

    /// How many lines may be kept.
    pub fn size(&self) -> usize
        ensures { result ≡ self.now.size }
    {
        self.size
    }

    /// A kept line, the oldest being 0.
    pub fn line(&self, place: usize) -> Option<&KeptLine>
        ensures { option_map (λ k. k.now) result ≡ slice_get self.now.lines place }
    {
        self.lines.get(place)
    }
}

/// Kept lines with their times, between the two frame lines, after this many older ones.
#[tactic(auto, using(crate::proofs::Framed::framed_some))]
fn played(
    alloc: Global,
    offset: Offset,
    target: &[u8],
    lines: &HeapCircularBuffer<KeptLine>,
    older: usize,
) -> Result<Vec<Shown>, AllocError>
    ensures { IfOk result (λ v. v.items ≡
        shown_framed offset target.now (drop older lines.now.items)) }
{
    if lines.len() <= older {
        return Ok(Vec::new(alloc));
    }
    let mut all = Vec::with_capacity(alloc, (lines.len() - older).saturating_add(2))?;
    all.push(frame_line(alloc, target, b"Buffer Playback...")?)?;
    push_behind(&mut all, offset, lines, older)?;
    all.push(frame_line(alloc, target, b"Playback Complete.")?)?;
    Ok(all)
}

/// Appends what is shown of the lines of a ring, after this many older ones.
#[tactic(auto, using(crate::proofs::Framed::shown_behind))]
fn push_behind(
    all: &mut Vec<Shown>,
    offset: Offset,
    lines: &HeapCircularBuffer<KeptLine>,
    older: usize,
) -> Result<(), AllocError>
    requires { older ≤ length lines.now.items }
    ensures { OnOk result (all.new.items ≡
        all.old.items ++ shown_timed offset (drop older lines.now.items)) }
{
    let (front, back) = lines.as_slices();
    let cut = older.min(front.len());
    push_played(all, offset, &front[cut..])?;
    push_played(all, offset, &back[older - cut..])?;
    Ok(())
}

/// Appends what is shown of kept lines, which share one text.
#[tactic(auto, using(crate::proofs::Parts::parts_of, crate::proofs::Parts::total_of))]
fn push_played(all: &mut Vec<Shown>, offset: Offset, lines: &[KeptLine]) -> Result<(), AllocError>
    ensures { OnOk result (all.new.items ≡ all.old.items ++ shown_timed offset lines.now) }
{
    let alloc = *all.allocator();
    let (text, lengths) = played_text(alloc, offset, lines)?;
    push_parts(all, &text, &lengths)
}

/// What is shown of kept lines, one after the other, and how long each is.
#[tactic(auto, using(crate::proofs::Parts::concat_push, crate::proofs::Parts::lengths_push))]
fn played_text(
    alloc: Global,
    offset: Offset,
    lines: &[KeptLine],
) -> Result<(SharedBytes, Vec<usize>), AllocError>
    ensures text { IfOk result (λ r. r.0 ≡ concat (shown_timed offset lines.now)) }
    ensures lengths { IfOk result (λ r. r.1.items ≡ map length (shown_timed offset lines.now)) }
{
    let mut text = Vec::with_capacity(alloc, played_room(lines))?;
    let mut lengths = Vec::with_capacity(alloc, lines.len())?;
    for line in lines {
        let from = text.len();
        line.play(&mut text, offset)?;
        lengths.push(text.len() - from)?;
    }
    Ok((SharedBytes::from_vec(text)?, lengths))
}

/// How many bytes kept lines have at most when they are played.
fn played_room(lines: &[KeptLine]) -> usize {
    let mut room = 0usize;
    for line in lines {
        room = room.saturating_add(line.played_room());
    }
    room
}

/// Appends a line for each part of a text; the parts follow each other and have these lengths.
fn push_parts(all: &mut Vec<Shown>, text: &SharedBytes, lengths: &[usize]) -> Result<(), AllocError>
    requires within { total lengths.now ≤ length text.now }
    ensures parts { OnOk result (all.new.items ≡ all.old.items ++ parts text.now lengths.now) }
{
    // a text is never longer than a usize can count
    text.as_slice().len();
    let mut from = 0usize;
    for length in lengths {
        let to = from + *length;
        all.push(Shown::part(text, from, to)?)?;
        from = to;
    }
    Ok(())
}

/// A frame line of a playback.
fn frame_line(alloc: Global, target: &[u8], text: &[u8]) -> Result<Shown, AllocError>
    ensures { IfOk result (λ s. s ≡ spelling (frame target.now text.now)) }
{
    Shown::of_parts(
        alloc,
        Some(b"***!bouncer@local"),
        b"PRIVMSG",
        &[target, text],
    )
}
