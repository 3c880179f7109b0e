//! What waits to go to the server in a session.
ghost use Rattle.std.specs.Prelude.{◌≡◌, ◌++◌, IfOk, OnOk, length};
ghost use Rattle.driver.specs.Outgoing.{asks_names, has_said, is_asked, is_dropped, is_said, next_piece, nothing_waits};
ghost use Rattle.driver.specs.Outgoing.{piece_bytes, with_join, with_line, with_opening, without_next, without_said};

use crate::join_line::JoinLine;
use buffer_machine::has_command;
use irc_line::{Line, is_same_name};
use std::alloc::{AllocError, Global};
use std::collections::VecDeque;
use std::marker::Model;
use std::mem::replace;

/// The most questions for who is in a channel that wait. One more is dropped.
// one for each channel: a setup names at most 100, and people may join more
const MOST_QUESTIONS: usize = 1_000;

/// What goes to the server as one line.
#[derive(Drop)]
pub enum Piece {
    /// A line that each session sends first.
    Opens(Line),
    /// Channels are joined again.
    Joins(JoinLine),
    /// A line that was handed out.
    Says(Line),
}

impl Piece {
    /// Whether it is a said line: one that was handed out, and is no question.
    pub fn is_said(&self) -> bool
        ensures { result ≡ is_said self.now }
    {
        match self {
            Piece::Opens(_) | Piece::Joins(_) => false,
            Piece::Says(line) => !asks_names(line),
        }
    }

    /// The line's bytes, cut to what fits in a line.
    pub fn into_bytes(self, alloc: Global) -> Result<Vec<u8>, AllocError>
        ensures { IfOk result (λ bytes. bytes.items ≡ piece_bytes self) }
    {
        match self {
            Piece::Joins(line) => line.into_bytes(alloc),
            Piece::Opens(line) | Piece::Says(line) => {
                let mut bytes = Vec::new(alloc);
                line.write_cut(&mut bytes)?;
                Ok(bytes)
            }
        }
    }
}

/// What waits to go to the server in a session: what each session sends first, JOINs of its channels, then what people
/// say, and after it questions for who is in a channel, at most one a channel.
///
/// A clause sees all of it, in the order in which it goes.
#[derive(Drop)]
pub struct Outgoing {
    alloc: Global,
    /// What goes before all else.
    opening: VecDeque<Line>,
    joins: VecDeque<JoinLine>,
    /// The last JOIN, which has room for more channels.
    joining: Option<JoinLine>,
    said: VecDeque<Line>,
    questions: VecDeque<Line>,
}

impl Model for Outgoing {
    ghost use Rattle.driver.specs.Outgoing.{Waiting};

    ghost Value = { Waiting };

    ghost view = { λ o. record {
      opening = o.opening.items;
      joins = o.joins.items;
      joining = o.joining;
      said = o.said.items;
      questions = o.questions.items;
    } };
}

impl Outgoing {
    /// Nothing waits.
    pub fn new(alloc: Global) -> Outgoing
        ensures { result ≡ nothing_waits }
    {
        Outgoing {
            alloc,
            opening: VecDeque::new(alloc),
            joins: VecDeque::new(alloc),
            joining: None,
            said: VecDeque::new(alloc),
            questions: VecDeque::new(alloc),
        }
    }

    /// Whether a said line waits.
    pub fn has_said(&self) -> bool
        ensures { result ≡ has_said self.now }
    {
        !self.said.is_empty()
    }

    /// How many said lines wait.
    pub fn said_count(&self) -> usize
        ensures { result ≡ length self.now.said }
    {
        self.said.len()
    }

    /// How many questions for who is in a channel wait.
    pub fn question_count(&self) -> usize
        ensures { result ≡ length self.now.questions }
    {
        self.questions.len()
    }

    /// Lines wait that go before all else.
    pub fn push_opening(&mut self, lines: &[Line]) -> Result<(), AllocError>
        ensures { OnOk result (self.new ≡ with_opening lines.now self.old) }
    {
        push_all(&mut self.opening, lines)
    }

    /// A channel waits to be joined again, by this key, or without a key if it is empty: in the last JOIN if it fits
    /// there.
    pub fn push_join(&mut self, channel: &[u8], key: &[u8]) -> Result<(), AllocError>
        ensures { OnOk result (self.new ≡ with_join channel.now key.now self.old) }
    {
        if let Some(line) = &mut self.joining
            && line.fits(channel, key)
        {
            return line.add(channel, key);
        }
        let next = JoinLine::of(self.alloc, channel, key)?;
        if let Some(line) = replace(&mut self.joining, Some(next)) {
            self.joins.push_back(line)?;
        }
        Ok(())
    }

    /// A line that was handed out waits in its place. A question is dropped if one of its channel waits: the answer is
    /// shown to all clients, also to those that asked last.
    pub fn push(&mut self, line: Line) -> Result<(), AllocError>
        ensures { OnOk result (self.new ≡ with_line line self.old) }
    {
        if !asks_names(&line) {
            self.said.push_back(line)?;
        } else if !self.is_dropped(&line) {
            self.questions.push_back(line)?;
        }
        Ok(())
    }

    /// Drops said lines that wait.
    pub fn drop_said(&mut self)
        ensures { self.new ≡ without_said self.old }
    {
        self.said.clear();
    }

    /// Whether a question is dropped: one of its channel waits, or too many wait.
    fn is_dropped(&self, line: &Line) -> bool
        ensures { result ≡ is_dropped line.now self.now }
    {
        self.is_asked(line) || self.questions.len() >= MOST_QUESTIONS
    }

    /// Whether a question of the same channel waits.
    fn is_asked(&self, line: &Line) -> bool
        ensures { result ≡ is_asked line.now self.now }
    {
        let channel = line.parameter(0);
        self.questions
            .iter()
            .any(|asked| is_same_name(channel, asked.parameter(0)))
    }

    /// Takes what goes next: the first line that goes before all else, then the first JOIN, then the first said line,
    /// and then, if questions are due, the first question.
    pub fn next(&mut self, are_due: bool) -> Option<Piece>
        ensures piece { result ≡ next_piece are_due self.old }
        ensures rest { self.new ≡ without_next are_due self.old }
    {
        if let Some(line) = self.opening.pop_front() {
            return Some(Piece::Opens(line));
        }
        if let Some(line) = self.joins.pop_front() {
            return Some(Piece::Joins(line));
        }
        if let Some(line) = replace(&mut self.joining, None) {
            return Some(Piece::Joins(line));
        }
        let line = match self.said.pop_front() {
            Some(line) => line,
            None if are_due => self.questions.pop_front()?,
            None => return None,
        };
        Some(Piece::Says(line))
    }
}

/// Lines wait after others.
fn push_all(out: &mut VecDeque<Line>, lines: &[Line]) -> Result<(), AllocError>
    ensures { OnOk result (out.new.items ≡ out.old.items ++ lines.now) }
{
    for line in lines.iter() {
        let line = line.share()?;
        out.push_back(line)?;
    }
    Ok(())
}

/// Whether a line asks who is in a channel: a NAMES with only the channel.
pub fn asks_names(line: &Line) -> bool
    ensures { result ≡ asks_names line.now }
{
    has_command(line, b"NAMES") && line.parameter_count() == 1
}
