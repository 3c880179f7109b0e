//! Queries, by examples.
use crate::buffer::targets::{line, push_target};
use crate::made::{check_bytes, name};
use buffer_lines::KeptLine;
use buffer_targets::Queries;
use irc_line::Name;
use std::alloc::{AllocError, Global};
use std::process::Abort;
use std::test::Fail;

/// What is held of queries.
fn told(alloc: Global, queries: &Queries) -> Result<Vec<u8>, AllocError> {
    let mut out = Vec::new(alloc);
    for target in queries.as_slice() {
        push_target(&mut out, target)?;
    }
    Ok(out)
}

/// What happens to queries, of which there are at most 3, each of which keeps 2 lines at first.
#[derive(Clone, Copy)]
enum Step<'a> {
    /// A query keeps a message of this text.
    Store(&'a str, &'a str),
    Resize(&'a str, usize),
    Clear(&'a str),
    ClearAll,
    /// This is held of them.
    Holds(&'a str),
    /// Whether this name is found.
    Finds(&'a str, bool),
}

/// All of this happens to queries, of which none stands at first.
fn follow(rt: &impl Abort, alloc: Global, story: &[Step<'_>]) -> Result<(), Fail> {
    let mut queries = Queries::new(alloc);
    for step in story {
        follow_one(rt, alloc, &mut queries, step)?;
    }
    Ok(())
}

fn follow_one(
    rt: &impl Abort,
    alloc: Global,
    queries: &mut Queries,
    step: &Step<'_>,
) -> Result<(), Fail> {
    match step {
        Step::Store(name, text) => store(alloc, queries, name, text),
        Step::Resize(name, size) => resize(queries, name, *size),
        Step::Clear(name) => {
            queries.clear_at(name.as_bytes());
            Ok(())
        }
        Step::ClearAll => {
            queries.clear_all();
            Ok(())
        }
        Step::Holds(wanted) => check(rt, alloc, queries, wanted),
        Step::Finds(name, wanted) => {
            assert!(rt; is_found(queries, name) == *wanted);
            Ok(())
        }
    }
}

fn is_found(queries: &Queries, name: &str) -> bool {
    queries.find(name.as_bytes()).is_some()
}

fn resize(queries: &mut Queries, name: &str, size: usize) -> Result<(), Fail> {
    Ok(queries.resize_at(name.as_bytes(), size)?)
}

fn store(alloc: Global, queries: &mut Queries, bytes: &str, text: &str) -> Result<(), Fail> {
    let line = line(alloc, text)?;
    let name = name(alloc, bytes.as_bytes())?;
    Ok(store_line(queries, &name, line)?)
}

fn store_line(queries: &mut Queries, name: &Name, line: KeptLine) -> Result<(), AllocError> {
    queries.store(name, line, &[], 2, 3)
}

fn check(rt: &impl Abort, alloc: Global, queries: &Queries, wanted: &str) -> Result<(), Fail> {
    let text = told(alloc, queries)?;
    check_bytes(rt, &text, wanted.as_bytes());
    Ok(())
}

/// Queries stand in the order of their making.
const ORDERED: &[Step<'static>] = &[
    Step::Store("wiz", "1"),
    Step::Store("Bob", "2"),
    Step::Store("WIZ", "3"),
    Step::Store("al[", "4"),
    Step::Store("AL{", "5"),
    Step::Holds("wiz=13 Bob=2 al[=45 "),
    Step::Store("x", "6"),
    Step::Store("bob", "7"),
    Step::Store("bob", "8"),
    Step::Holds("Bob=78 al[=45 x=6 "),
    Step::Finds("al{", true),
    Step::Finds("wiz", false),
];

/// Queries keep their last lines.
const KEPT: &[Step<'static>] = &[
    Step::Store("Bob", "7"),
    Step::Store("al[", "4"),
    Step::Store("x", "6"),
    Step::Store("bob", "8"),
    Step::Resize("bob", 1),
    Step::Clear("al{"),
    Step::Holds("Bob=8 al[= x=6 "),
    Step::ClearAll,
    Step::Store("Wiz", "9"),
    Step::Holds("al[= x= Wiz=9 "),
];

#[test]
fn queries_are_held_in_the_order_of_their_making(rt: HostRuntime) -> Result<(), Fail> {
    follow(&rt, rt.alloc(), ORDERED)?;
    follow(&rt, rt.alloc(), KEPT)
}
