//! Channels, by examples.
use crate::buffer::targets::{line, push_target};
use crate::made::{check_bytes, name};
use buffer_lines::KeptLine;
use buffer_targets::Channels;
use irc_line::Name;
use std::alloc::{AllocError, Global};
use std::process::Abort;
use std::test::Fail;

/// What is held of channels: `+` before one that is joined, `-` before one that is detached.
fn told(alloc: Global, channels: &Channels) -> Result<Vec<u8>, AllocError> {
    let mut out = Vec::new(alloc);
    for channel in channels.as_slice() {
        if channel.is_joined() {
            out.push(b'+')?;
        }
        if channel.is_detached() {
            out.push(b'-')?;
        }
        push_target(&mut out, channel.target())?;
    }
    Ok(out)
}

/// What happens to channels, which keep 2 lines each at first.
#[derive(Clone, Copy)]
enum Step<'a> {
    Join(&'a str),
    /// A channel keeps a message of this text.
    Store(&'a str, &'a str),
    Resize(&'a str, usize),
    Change(Change<'a>),
    /// So many channels stand.
    Count(usize),
    /// This is held of them.
    Holds(&'a str),
    /// Whether this name is found.
    Finds(&'a str, bool),
}

/// What takes no memory.
#[derive(Clone, Copy)]
enum Change<'a> {
    Remove(&'a str),
    SetJoined(&'a str, bool),
    SetDetached(&'a str, bool),
    LeaveAll,
    Clear(&'a str),
    ClearOpen,
    ClearAll,
}

impl<'a> Change<'a> {
    fn make(&self, channels: &mut Channels) {
        match self {
            Change::Remove(name) => channels.remove_at(name.as_bytes()),
            Change::SetJoined(name, joined) => channels.set_joined_at(name.as_bytes(), *joined),
            Change::SetDetached(name, detached) => {
                channels.set_detached_at(name.as_bytes(), *detached)
            }
            Change::LeaveAll => channels.leave_all(),
            Change::Clear(name) => channels.clear_at(name.as_bytes()),
            Change::ClearOpen => channels.clear_open(),
            Change::ClearAll => channels.clear_all(),
        }
    }
}

/// All of this happens to channels, of which none stands at first.
fn follow(rt: &impl Abort, alloc: Global, story: &[Step<'_>]) -> Result<(), Fail> {
    let mut channels = Channels::new(alloc, &[], 2)?;
    for step in story {
        follow_one(rt, alloc, &mut channels, step)?;
    }
    Ok(())
}

fn follow_one(
    rt: &impl Abort,
    alloc: Global,
    channels: &mut Channels,
    step: &Step<'_>,
) -> Result<(), Fail> {
    match step {
        Step::Join(bytes) => join(alloc, channels, bytes),
        Step::Store(name, text) => store(alloc, channels, name, text),
        Step::Resize(name, size) => resize(channels, name, *size),
        Step::Change(change) => {
            change.make(channels);
            Ok(())
        }
        Step::Count(wanted) => {
            assert!(rt; channels.as_slice().len() == *wanted);
            Ok(())
        }
        Step::Holds(wanted) => check(rt, alloc, channels, wanted),
        Step::Finds(name, wanted) => {
            assert!(rt; is_found(channels, name) == *wanted);
            Ok(())
        }
    }
}

fn is_found(channels: &Channels, name: &str) -> bool {
    channels.find(name.as_bytes()).is_some()
}

fn resize(channels: &mut Channels, name: &str, size: usize) -> Result<(), Fail> {
    Ok(channels.resize_at(name.as_bytes(), size)?)
}

fn join(alloc: Global, channels: &mut Channels, bytes: &str) -> Result<(), Fail> {
    let name = name(alloc, bytes.as_bytes())?;
    Ok(join_named(channels, &name)?)
}

fn join_named(channels: &mut Channels, name: &Name) -> Result<(), AllocError> {
    channels.join(name, 2)
}

fn store(alloc: Global, channels: &mut Channels, name: &str, text: &str) -> Result<(), Fail> {
    let line = line(alloc, text)?;
    store_line(channels, name, line);
    Ok(())
}

fn store_line(channels: &mut Channels, name: &str, line: KeptLine) {
    let place = channels.place_of(name.as_bytes());
    channels.store_at(place, line, &[]);
}

fn check(rt: &impl Abort, alloc: Global, channels: &Channels, wanted: &str) -> Result<(), Fail> {
    let text = told(alloc, channels)?;
    check_bytes(rt, &text, wanted.as_bytes());
    Ok(())
}

/// Channels stand in the order of their keys.
const ORDERED: &[Step<'static>] = &[
    Step::Join("#b"),
    Step::Join("#A"),
    Step::Join("#[x"),
    Step::Join("#B"),
    Step::Join("#ab"),
    Step::Count(4),
    Step::Holds("+#A= +#ab= +#b= +#[x= "),
    Step::Change(Change::Remove("#ab")),
    Step::Change(Change::Remove("#c")),
    Step::Change(Change::SetJoined("#{x", false)),
    Step::Change(Change::SetDetached("#b", true)),
    Step::Holds("+#A= +-#b= #[x= "),
    Step::Change(Change::LeaveAll),
    Step::Change(Change::SetDetached("#b", false)),
    Step::Holds("#A= #b= #[x= "),
    Step::Finds("#{x", true),
    Step::Finds("#[X", true),
    Step::Finds("#x", false),
];

/// Channels keep their last lines.
const KEPT: &[Step<'static>] = &[
    Step::Join("#b"),
    Step::Join("#A"),
    Step::Store("#a", "1"),
    Step::Store("#a", "2"),
    Step::Store("#b", "3"),
    Step::Store("#a", "4"),
    Step::Store("#A", "5"),
    Step::Holds("+#A=45 +#b=3 "),
    Step::Resize("#a", 3),
    Step::Store("#a", "6"),
    Step::Store("#b", "7"),
    Step::Store("#b", "8"),
    Step::Holds("+#A=456 +#b=78 "),
];

/// Channels are emptied where they are shown or named.
const EMPTIED: &[Step<'static>] = &[
    Step::Join("#b"),
    Step::Join("#A"),
    Step::Store("#a", "1"),
    Step::Store("#b", "2"),
    Step::Change(Change::SetDetached("#a", true)),
    Step::Change(Change::ClearOpen),
    Step::Holds("+-#A=1 +#b= "),
    Step::Change(Change::Clear("#a")),
    Step::Store("#a", "6"),
    Step::Store("#b", "7"),
    Step::Holds("+-#A=6 +#b=7 "),
    Step::Change(Change::ClearAll),
    Step::Holds("+-#A= +#b= "),
];

/// What is held of the channel `#x` where it alone stands from the start.
fn told_at_the_start(alloc: Global) -> Result<Vec<u8>, Fail> {
    let names = [name(alloc, b"#x")?];
    let channels = Channels::new(alloc, &names, 2)?;
    Ok(told(alloc, &channels)?)
}

#[test]
fn channels_are_held_in_order(rt: HostRuntime) -> Result<(), Fail> {
    check_bytes(&rt, &told_at_the_start(rt.alloc())?, b"#x= ");
    follow(&rt, rt.alloc(), ORDERED)?;
    follow(&rt, rt.alloc(), KEPT)?;
    follow(&rt, rt.alloc(), EMPTIED)
}
