//! Stories, told one after the other.
use crate::stories::fault::Fault;
use crate::stories::words::cut;
use irc_line::is_same;
use std::alloc::{AllocError, Global};
use std::mem;
use std::test::Fail;

/// What a story is told to.
pub trait Listener: Drop {
    /// One that was told nothing yet. The words are those behind the story's name.
    fn new(alloc: Global, words: &[u8]) -> Result<Self, Fail>;

    /// It is told the step of this line. Where the line says what is to come, what comes is appended as such a line.
    fn hear(&mut self, alloc: Global, line: &[u8], came: &mut Vec<u8>) -> Result<(), Fault>;
}

/// Stories that are told, one after the other.
#[derive(Drop)]
pub struct Telling<L: Listener> {
    alloc: Global,
    /// The name of the story that is told.
    name: Vec<u8>,
    /// What it is told to; none where it failed, and before the first story.
    listener: Option<L>,
    /// The step that was read, with which the next line may go on.
    step: Vec<u8>,
    /// In which line the step begins.
    place: u64,
    /// How many lines were read.
    lines: u64,
    /// How many stories failed.
    failed: u64,
    /// What is said of each story.
    said: Vec<u8>,
}

impl<L: Listener> Telling<L> {
    /// No story is told yet.
    pub fn new(alloc: Global) -> Telling<L> {
        Telling {
            alloc,
            name: Vec::new(alloc),
            listener: None,
            step: Vec::new(alloc),
            place: 0,
            lines: 0,
            failed: 0,
            said: Vec::new(alloc),
        }
    }

    /// The next line is read. One that begins with a blank goes on with the one above it, and what was read before any
    /// other is taken first.
    pub fn read(&mut self, line: &[u8]) -> Result<(), Fail> {
        self.lines = self.lines.wrapping_add(1);
        if line.is_empty() || line.starts_with(b"#") {
            return Ok(());
        }
        if line.starts_with(b" ") {
            self.step.extend_from_slice(b" ")?;
        } else {
            self.settle()?;
            self.place = self.lines;
        }
        Ok(self.step.extend_from_slice(line.trim_ascii_start())?)
    }

    /// All lines were read. What is said of the stories, and how many failed.
    pub fn close(self) -> Result<(Vec<u8>, u64), Fail> {
        let mut telling = self;
        telling.settle()?;
        telling.end()?;
        let Telling { said, failed, .. } = telling;
        Ok((said, failed))
    }

    /// What was read begins a story, or is a step of one.
    fn settle(&mut self) -> Result<(), Fail> {
        let line = mem::replace(&mut self.step, Vec::new(self.alloc));
        if line.is_empty() {
            return Ok(());
        }
        match line.as_slice().strip_prefix(b"story ") {
            Some(words) => self.begin(words),
            None => self.take(&line),
        }
    }

    /// A story begins, of this name and with the words behind it.
    fn begin(&mut self, words: &[u8]) -> Result<(), Fail> {
        self.end()?;
        let (name, words) = cut(words);
        self.name.clear();
        self.name.extend_from_slice(name)?;
        self.listener = Some(L::new(self.alloc, words)?);
        Ok(())
    }

    /// The story is over: it was as it was told, unless it failed before.
    fn end(&mut self) -> Result<(), AllocError> {
        if self.listener.is_some() {
            self.said.extend_from_slice(&self.name)?;
            self.said.extend_from_slice(b" ok\n")?;
        }
        Ok(())
    }

    /// The story goes on by the step of this line, unless it failed before.
    fn take(&mut self, line: &[u8]) -> Result<(), Fail> {
        let mut came = Vec::new(self.alloc);
        let Some(listener) = &mut self.listener else {
            if self.name.is_empty() {
                self.fail(line, b"no story begins before it")?;
            }
            return Ok(());
        };
        match listener.hear(self.alloc, line, &mut came) {
            Ok(()) => if !came.is_empty() && !is_same(&came, line) {
                self.fail(line, &came)?;
            },
            Err(Fault::NoStep) => self.fail(line, b"this is no step")?,
            Err(Fault::Failed) => self.fail(line, b"it cannot be done")?,
            Err(Fault::Memory) => return Err(Fail::from(Fault::Memory)),
        }
        Ok(())
    }

    /// The story fails at this line, of which this came.
    fn fail(&mut self, line: &[u8], came: &[u8]) -> Result<(), AllocError> {
        let place = self.place;
        self.failed = self.failed.wrapping_add(1);
        self.listener = None;
        self.said.extend_from_slice(&self.name)?;
        self.said.extend_from_slice(format!(in self.alloc; " fails at line {place}")?.as_bytes())?;
        self.said.extend_from_slice(b"\nwanted: ")?;
        self.said.extend_from_slice(line)?;
        self.said.extend_from_slice(b"\ncame: ")?;
        self.said.extend_from_slice(came)?;
        self.said.extend_from_slice(b"\n")
    }
}

/// What is said of the stories of a text, and how many of them failed.
pub fn tell<L: Listener>(alloc: Global, text: &[u8]) -> Result<(Vec<u8>, u64), Fail> {
    let mut telling = Telling::<L>::new(alloc);
    for line in text.split(|byte| *byte == b'\n') {
        telling.read(line)?;
    }
    telling.close()
}
