//! The requests that wait at a worker until its node may ask them.
ghost use Rattle.std.specs.Prelude.{◌≡◌, max, [], None, false};
ghost use Rattle.node_threads.specs.Requests.{HasAsked, WaitsOrIsLost, behind, ended, in_front, in_term, lose, note_in, queue_of, request, settled};

use std::alloc::Global;
use std::collections::VecDeque;
use wire_bytes::Number;

/// A request for a node, and the number of its note.
#[derive(Drop)]
pub struct Request<B> {
    pub note: u64,
    pub body: B,
}

/// The last request that was asked: the number of its note, and the term in which it was asked.
#[derive(Clone, Copy)]
pub struct Asked {
    pub note: u64,
    pub term: Number,
    /// Whether it may come back: it has not yet, and no mark was asked since.
    pub may_return: bool,
}

/// The requests that wait at a worker, in the order in which they are asked.
#[derive(Drop)]
pub struct Requests<B> {
    pub waiting: VecDeque<Request<B>>,
    /// The last request that was asked in this run of the node.
    pub asked: Option<Asked>,
    /// The last note whose request may be lost.
    pub lost: u64,
}

impl<B: Drop> Requests<B> {
    pub fn new(alloc: Global) -> Self
        ensures { queue_of result ≡ record { waiting = []; asked = None; lost = 0 } }
    {
        Requests {
            waiting: VecDeque::new(alloc),
            asked: None,
            lost: 0,
        }
    }

    /// Adds a request after all that wait. If memory runs out, it is lost.
    pub fn tell(&mut self, note: u64, body: B)
        ensures { WaitsOrIsLost note (behind (request note body) (queue_of self.old))
            (queue_of self.old) (queue_of self.new) }
    {
        if self.waiting.push_back(Request { note, body }).is_err() {
            self.lose(note);
        }
    }

    /// Whether one waits.
    pub fn has_waiting(&self) -> bool
        ensures none { result ≡ false → self.now.waiting.items ≡ [] }
        ensures some { self.now.waiting.items ≡ [] → result ≡ false }
    {
        !self.waiting.is_empty()
    }

    /// Takes the first of those that wait, which is asked in this term.
    pub fn ask(&mut self, term: Number) -> Option<B>
        ensures { HasAsked term (queue_of self.old) result (queue_of self.new) }
    {
        let Request { note, body } = self.waiting.pop_front()?;
        self.see(term);
        self.asked = Some(Asked {
            note,
            term,
            may_return: true,
        });
        Some(body)
    }

    /// The last request that was asked is not on its way any more, and is first again. If memory runs out, it is lost.
    /// It does not come back a second time.
    pub fn give_back(&mut self, note: u64, body: B)
        ensures { WaitsOrIsLost note (in_front (request note body) (settled (queue_of self.old)))
            (settled (queue_of self.old)) (queue_of self.new) }
    {
        self.settle();
        if self.waiting.push_front(Request { note, body }).is_err() {
            self.lose(note);
        }
    }

    /// The last request that was asked is lost.
    pub fn lose_back(&mut self, note: u64)
        ensures { queue_of self.new ≡ lose note (settled (queue_of self.old)) }
    {
        self.settle();
        self.lose(note);
    }

    /// The last request that was asked can no longer come back.
    pub fn settle(&mut self)
        ensures { queue_of self.new ≡ settled (queue_of self.old) }
    {
        if let Some(asked) = self.asked {
            self.asked = Some(Asked {
                may_return: false,
                ..asked
            });
        }
    }

    /// The note of the last request, if it was asked in this term and may come back.
    pub fn asked_in(&self, term: Number) -> Option<u64>
        ensures { result ≡ note_in term self.now.asked }
    {
        match self.asked {
            Some(asked) if asked.term == term && asked.may_return => Some(asked.note),
            _ => None,
        }
    }

    /// The node is in this term: what was asked in an earlier one may be lost.
    pub fn see(&mut self, term: Number)
        ensures { queue_of self.new ≡ in_term term (queue_of self.old) }
    {
        if let Some(asked) = self.asked
            && asked.term < term
        {
            self.lose(asked.note);
        }
    }

    /// The request of this note may be lost.
    pub fn lose(&mut self, note: u64)
        ensures { queue_of self.new ≡ lose note (queue_of self.old) }
    {
        self.lost = self.lost.max(note);
    }

    /// The node's run is over, and none of its requests is asked any more.
    pub fn end_run(&mut self)
        ensures { queue_of self.new ≡ ended (queue_of self.old) }
    {
        self.waiting.clear();
        self.asked = None;
    }
}
