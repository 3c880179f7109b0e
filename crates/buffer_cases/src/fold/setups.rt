//! What a bouncer that is set up in another way than plainly answers.
use crate::fold::folded::{answered, answered_in_one_run};
use crate::fold::said::Said;
use crate::fold::setup_cases::CASES;
use crate::made::{check_bytes, name, names, push_line};
use buffer_commands::{Effect, Options, Setup};
use buffer_lines::Offset;
use buffer_machine::BufferMachine;
use request_once::Once;
use std::alloc::{AllocError, Global};
use std::process::Abort;
use std::test::Fail;

/// A setup of the nick `me`, bodies, and the lines that answer them.
pub struct Case<'a> {
    pub channels: &'a [&'a [u8]],
    pub channel_size: u16,
    pub query_size: u16,
    pub most_queries: u8,
    pub clears_channels: bool,
    pub clears_queries: bool,
    pub many_clients: bool,
    /// The minutes that the clock is ahead of UTC, with 1,439 added to them.
    pub offset: u16,
    /// Whether the bodies come in one run, by which all answers are at the place 0.
    pub in_one_run: bool,
    pub bodies: &'a [Said<'a>],
    pub want: &'a [&'a str],
}

/// The options that a setup has by default, a channel, and no bodies.
pub const PLAIN: Case<'static> = Case {
    channels: &[b"#x"],
    channel_size: 50,
    query_size: 50,
    most_queries: 50,
    clears_channels: true,
    clears_queries: true,
    many_clients: true,
    offset: 1439,
    in_one_run: false,
    bodies: &[],
    want: &[],
};

impl<'a> Case<'a> {
    fn options(&self) -> Result<Options, Fail> {
        if self.offset > 2878 {
            return Err(Fail::from("no offset"));
        }
        Ok(Options {
            channel_size: self.channel_size,
            query_size: self.query_size,
            most_queries: self.most_queries,
            clears_channels: self.clears_channels,
            clears_queries: self.clears_queries,
            many_clients: self.many_clients,
            offset: Offset::new(self.offset),
        })
    }

    fn setup(&self, alloc: Global) -> Result<Setup, Fail> {
        let options = self.options()?;
        let channels = names(alloc, self.channels)?;
        Ok(Setup::new(name(alloc, b"me")?, channels, options)?)
    }

    /// What a bouncer of this setup answers to the bodies.
    fn answers(&self, alloc: Global) -> Result<Vec<u8>, Fail> {
        let setup = self.setup(alloc)?;
        if self.in_one_run {
            answered_in_one_run::<Once<BufferMachine>, Effect>(alloc, &setup, self.bodies)
        } else {
            answered::<Once<BufferMachine>, Effect>(alloc, &setup, self.bodies)
        }
    }
}

/// The text of these lines, each with its end.
fn ended(alloc: Global, lines: &[&str]) -> Result<Vec<u8>, AllocError> {
    let mut text = Vec::new(alloc);
    for line in lines {
        push_line(&mut text, line.as_bytes())?;
    }
    Ok(text)
}

/// The bodies of a case are answered by its lines.
fn check(rt: &impl Abort, alloc: Global, case: &Case<'_>) -> Result<(), Fail> {
    let answers = case.answers(alloc)?;
    let want = ended(alloc, case.want)?;
    check_bytes(rt, &answers, &want);
    Ok(())
}

#[test]
fn setups_are_kept_to(rt: HostRuntime) -> Result<(), Fail> {
    assert!(rt; PLAIN.options()? == Options::default());
    for case in CASES {
        check(&rt, rt.alloc(), case)?;
    }
    Ok(())
}
