//! What rings keep and play, by examples.
use crate::made::{check_bytes, push_line, shown};
use buffer_lines::{KeptLine, LineRing, Offset};
use irc_line::{Line, LineFault};
use std::alloc::{AllocError, Global};
use std::process::Abort;
use std::test::Fail;
use wire_bytes::{Copied, Moment};

/// What happens to a ring.
#[derive(Clone, Copy)]
enum Step<'a> {
    /// This line comes, so many seconds after 1,700,000,000.
    Push(&'a [u8], u8),
    SetSize(usize),
    Clear,
    /// By this clock it plays this, with a line feed behind each line.
    Plays(Clock, &'a [u8]),
}

/// What a clock shows: the time as it is set up by default, or an hour ahead of UTC or behind it.
#[derive(Clone, Copy)]
enum Clock {
    Default,
    Ahead,
    Behind,
}

impl Clock {
    fn offset(self) -> Offset {
        match self {
            Clock::Default => Offset::default(),
            Clock::Ahead => Offset::new(1439 + 60),
            Clock::Behind => Offset::new(1439 - 60),
        }
    }
}

/// A line that came so many seconds after 1,700,000,000.
fn kept(alloc: Global, content: &[u8], second: u8) -> Result<KeptLine, LineFault> {
    let at = Moment::new(1_700_000_000 + second as u64);
    Ok(KeptLine::new(at, Line::parse(alloc, content)?))
}

/// What a ring plays of `#x`, with a line feed behind each line.
fn played(alloc: Global, ring: &LineRing, offset: Offset) -> Result<Vec<u8>, AllocError> {
    let mut out = Vec::new(alloc);
    for shown in &ring.play(offset, b"#x")? {
        push_line(&mut out, shown.spelling())?;
    }
    Ok(out)
}

/// All of this happens to a ring of a size.
fn follow(rt: &impl Abort, alloc: Global, size: usize, story: &[Step<'_>]) -> Result<(), Fail> {
    let mut ring = LineRing::new(alloc, size)?;
    for step in story {
        follow_one(rt, alloc, &mut ring, step)?;
    }
    Ok(())
}

fn follow_one(
    rt: &impl Abort,
    alloc: Global,
    ring: &mut LineRing,
    step: &Step<'_>,
) -> Result<(), Fail> {
    match step {
        Step::Push(content, second) => push(alloc, ring, content, *second),
        Step::SetSize(size) => Ok(ring.set_size(*size)?),
        Step::Clear => {
            ring.clear();
            Ok(())
        }
        Step::Plays(clock, wanted) => check(rt, alloc, ring, clock.offset(), wanted),
    }
}

fn push(alloc: Global, ring: &mut LineRing, content: &[u8], second: u8) -> Result<(), Fail> {
    let line = kept(alloc, content, second)?;
    ring.push(line);
    Ok(())
}

fn check(
    rt: &impl Abort,
    alloc: Global,
    ring: &LineRing,
    offset: Offset,
    wanted: &[u8],
) -> Result<(), Fail> {
    let text = played(alloc, ring, offset)?;
    check_bytes(rt, &text, wanted);
    Ok(())
}

/// A ring plays one line between its frame lines, and nothing once it is cleared.
const ONE_LINE: &[Step<'static>] = &[
    Step::Push(b":a!b@c PRIVMSG #x :hi", 0),
    Step::Plays(
        Clock::Default,
        b":***!bouncer@local PRIVMSG #x :Buffer Playback...\n\
        :a!b@c PRIVMSG #x :[22:13:20] hi\n\
        :***!bouncer@local PRIVMSG #x :Playback Complete.\n",
    ),
    Step::Clear,
    Step::Plays(Clock::Default, b""),
];

/// A ring of two lines lets the oldest line go.
const OLDEST_GOES: &[Step<'static>] = &[
    Step::Push(b":a!b@c PRIVMSG #x :one", 0),
    Step::Push(b":a!b@c PRIVMSG #x :two", 1),
    Step::Push(b":a!b@c PRIVMSG #x :three", 2),
    Step::Plays(
        Clock::Default,
        b":***!bouncer@local PRIVMSG #x :Buffer Playback...\n\
        :a!b@c PRIVMSG #x :[22:13:21] two\n\
        :a!b@c PRIVMSG #x :[22:13:22] three\n\
        :***!bouncer@local PRIVMSG #x :Playback Complete.\n",
    ),
];

/// A ring of three lines keeps the newest lines of a new size.
const NEW_SIZE: &[Step<'static>] = &[
    Step::Push(b":a!b@c PRIVMSG #x :one", 0),
    Step::Push(b":a!b@c PRIVMSG #x :two", 1),
    Step::Push(b":a!b@c PRIVMSG #x :three", 2),
    Step::SetSize(1),
    Step::SetSize(50),
    Step::Push(b":a!b@c PRIVMSG #x :four", 3),
    Step::Plays(
        Clock::Default,
        b":***!bouncer@local PRIVMSG #x :Buffer Playback...\n\
        :a!b@c PRIVMSG #x :[22:13:22] three\n\
        :a!b@c PRIVMSG #x :[22:13:23] four\n\
        :***!bouncer@local PRIVMSG #x :Playback Complete.\n",
    ),
];

/// A ring shows the time of the offset.
const OFFSET: &[Step<'static>] = &[
    Step::Push(b"NOTICE #x hi", 0),
    Step::Plays(
        Clock::Ahead,
        b":***!bouncer@local PRIVMSG #x :Buffer Playback...\n\
        NOTICE #x :[23:13:20] hi\n\
        :***!bouncer@local PRIVMSG #x :Playback Complete.\n",
    ),
    Step::Plays(
        Clock::Behind,
        b":***!bouncer@local PRIVMSG #x :Buffer Playback...\n\
        NOTICE #x :[21:13:20] hi\n\
        :***!bouncer@local PRIVMSG #x :Playback Complete.\n",
    ),
];

/// A ring shows the time behind the mark of an action.
const ACTION: &[Step<'static>] = &[
    Step::Push(b":a!b@c PRIVMSG #x :\x01ACTION waves\x01", 0),
    Step::Plays(
        Clock::Default,
        b":***!bouncer@local PRIVMSG #x :Buffer Playback...\n\
        :a!b@c PRIVMSG #x :\x01ACTION [22:13:20] waves\x01\n\
        :***!bouncer@local PRIVMSG #x :Playback Complete.\n",
    ),
];

/// The size of a ring, and what happens to it.
const STORIES: &[(usize, &[Step<'static>])] = &[
    (50, ONE_LINE),
    (2, OLDEST_GOES),
    (3, NEW_SIZE),
    (1, OFFSET),
    (1, ACTION),
];

/// The canonical spelling of a line, and that of its copy, a line feed behind each.
fn spelled(alloc: Global, content: &[u8]) -> Result<Vec<u8>, Fail> {
    let shown = shown(alloc, content)?;
    let copy = shown.copy(alloc)?;
    let mut out = Vec::new(alloc);
    push_line(&mut out, shown.spelling())?;
    push_line(&mut out, copy.spelling())?;
    Ok(out)
}

#[test]
fn a_ring_plays_its_newest_lines(rt: HostRuntime) -> Result<(), Fail> {
    for (size, story) in STORIES {
        follow(&rt, rt.alloc(), *size, story)?;
    }
    let text = spelled(rt.alloc(), b"privmsg  #x  hi")?;
    check_bytes(&rt, &text, b"PRIVMSG #x :hi\nPRIVMSG #x :hi\n");
    Ok(())
}
