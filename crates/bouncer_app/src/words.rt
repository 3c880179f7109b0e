//! What the words after the program's name ask for.
use chat_log::Extent;
use irc_line::Name;
use std::alloc::{AllocError, Global};
use std::env::Args;
use std::iter::Skip;
use world_app::size_of;

/// What the program is asked to do.
#[derive(Drop)]
pub enum Task {
    Fold,
    /// To run events over this many nodes.
    World(u32),
    /// To rerun what is recorded in the file of this path.
    Replay(String),
    /// To draw the run that is recorded in the file of this path.
    Draw(String),
    /// To show the journal in the file of this path: of an extent all, or what concerns a target.
    Show(String, Extent, Option<Name>),
    /// To run the bouncer with the configuration in the file of this path.
    Run(String),
    /// To say what that run would do.
    Check(String),
    /// To begin the log of that bouncer anew, without these names of clients.
    Renew(String, Vec<Name>),
    /// To write a first configuration into the folder of this path, from these words, or, if there are none, from
    /// answers.
    Init(String, Vec<String>),
    Help,
    Version,
}

/// What the words, the program's name first, ask for: a fold after none or `fold` alone; the events of a world after
/// `world` and a number; a rerun after `replay` and a path, a picture after `draw` and a path; a journal's chat after
/// `show` and a path, and then a name, `--all` or both; a bouncer's run, a check of its configuration, or a new log,
/// after `run`, `check` or `renew` and a path; a first configuration after `init` and a folder.
pub fn asked(alloc: Global, words: Args) -> Result<Option<Task>, AllocError> {
    let mut words = words.skip(1);
    match words.next() {
        None => Ok(Some(Task::Fold)),
        Some(word) if word.as_str() == "renew" => renewal(alloc, words),
        Some(word) if word.as_str() == "init" => beginning(alloc, words),
        Some(word) => Ok(task_of(word.as_str(), words)),
    }
}

/// What a word asks for, with those that follow it.
fn task_of(word: &str, mut words: Skip<Args>) -> Option<Task> {
    let task = match word {
        "fold" => Task::Fold,
        "world" => Task::World(size_of(words.next()?.as_str())?),
        "replay" => Task::Replay(words.next()?),
        "draw" => Task::Draw(words.next()?),
        "show" => return showing(words),
        "run" => Task::Run(words.next()?),
        "check" => Task::Check(words.next()?),
        "help" | "--help" | "-h" => Task::Help,
        "--version" => Task::Version,
        _ => return None,
    };
    if words.next().is_some() {
        return None;
    }
    Some(task)
}

/// A renewal, if a path follows, and then names of clients, each after `--forget`.
fn renewal(alloc: Global, mut words: Skip<Args>) -> Result<Option<Task>, AllocError> {
    let Some(path) = words.next() else {
        return Ok(None);
    };
    let mut forgotten = Vec::new(alloc);
    let mut is_named = false;
    for word in words {
        if is_named {
            let Some(name) = Name::from_bytes(word.into_bytes()) else {
                return Ok(None);
            };
            forgotten.push(name)?;
        } else if word.as_str() != "--forget" {
            return Ok(None);
        }
        is_named = !is_named;
    }
    if is_named {
        return Ok(None);
    }
    Ok(Some(Task::Renew(path, forgotten)))
}

/// A first configuration, if a folder follows, and then what it is to say, or nothing.
fn beginning(alloc: Global, mut words: Skip<Args>) -> Result<Option<Task>, AllocError> {
    let Some(folder) = words.next() else {
        return Ok(None);
    };
    let mut answers = Vec::new(alloc);
    for word in words {
        answers.push(word)?;
    }
    Ok(Some(Task::Init(folder, answers)))
}

/// The chat of a journal, if a path follows, and then no more than a name and `--all`, in any order.
fn showing(mut words: Skip<Args>) -> Option<Task> {
    let path = words.next()?;
    let mut extent = Extent::Chat;
    let mut target = None;
    for word in words {
        if word.as_str() == "--all" {
            extent = Extent::All;
        } else if target.is_none() {
            target = Some(Name::from_bytes(word.into_bytes())?);
        } else {
            return None;
        }
    }
    Some(Task::Show(path, extent, target))
}
