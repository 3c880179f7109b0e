ghost use Rattle.std.specs.Prelude.{◌≡◌, ◌+◌, ◌<◌, ◌≤◌, [], ◌∷◌, ◌++◌, length, map, take, drop, Some};
ghost use Rattle.std.specs.Prelude.{nat_le, IfOk, OnOk, OnErr};
ghost use Rattle.raft_log.specs.Lists.{item};
ghost use Rattle.raft_log.specs.Logs.{agrees_at, last_term, repair, standing, term_at, up_to_date};
ghost use Rattle.raft_log.specs.Logs.{conflicts_within, entry_limit};
ghost use Rattle.raft_log.specs.Runs.{runs_of};

use crate::blocks::Blocks;
use crate::body::LoggedBody;
use crate::entry::Entry;
use crate::run::{Run, add_term, begun_at, begun_behind, last_term};
use crate::tail::{replace_tail, without_first};
use std::alloc::{AllocError, Global};
use std::marker::Model;
use wire_bytes::{Copied, Number, Wire, copied_all};

/// How many entries a log may have.
// a log stays in memory, and this many lines take some 400 MB on three nodes
pub const ENTRY_LIMIT: usize = 1_000_000;

/// A node's entries, the first at index 1 and at most 1,000,000. Index 0 has term 0.
///
/// The terms are kept as runs. The bodies are kept in blocks, and a copy of a log shares the full ones.
#[derive(Drop)]
pub struct Log<B: Wire> {
    runs: Vec<Run>,
    bodies: Blocks<LoggedBody<B>>,
}

impl<B: Wire> Model for Log<B> {
    ghost use Rattle.std.specs.Prelude.{List};
    ghost use Rattle.raft_log.specs.declared.entry.Entry.{Entry};
    ghost use Rattle.raft_log.specs.Runs.{entries_of, IsLog};

    ghost Value = { List (Entry B) };

    ghost view = { λ l. entries_of l.runs.items l.bodies };

    ghost invariant = { λ l. IsLog l.runs.items l.bodies };
}

impl<B: Wire> Log<B> {
    /// A log without entries.
    pub fn new(alloc: Global) -> Self
        ensures { result ≡ [] }
    {
        Log {
            runs: Vec::new(alloc),
            bodies: Blocks::new(alloc),
        }
    }

    /// The index of the last entry, 0 if there is none.
    pub fn len(&self) -> Number
        ensures value { result ≡ length self.now }
        ensures limit { length self.now ≤ entry_limit }
    {
        Number::new(self.bodies.len() as u64)
    }

    /// Whether it is full.
    pub fn is_full(&self) -> bool
        ensures { result ≡ nat_le entry_limit (length self.now) }
    {
        self.bodies.len() >= ENTRY_LIMIT
    }

    /// The runs of its terms, the first at index 1. Two neighbours have different terms.
    pub fn runs(&self) -> &[Run]
        ensures { result.now ≡ runs_of self.now }
    {
        self.runs.as_slice()
    }

    /// The body at an index.
    pub fn body(&self, index: Number) -> &LoggedBody<B>
        requires counts_from_1 { 1 ≤ index }
        requires within { index ≤ length self.now }
        ensures { item self.now index
            ≡ Some (record { term = term_at self.now index; body = result.now }) }
    {
        self.bodies.get(index.value() as usize - 1)
    }

    /// The term at an index of the log.
    pub fn term_at(&self, index: Number) -> Number
        requires { index ≤ length self.now }
        ensures { result ≡ term_at self.now index }
    {
        let begun = begun_at(&self.runs, index.value() as usize);
        match last_term(&self.runs[..begun]) {
            Some(term) => term,
            None => Number::new(0),
        }
    }

    /// The last index and its term.
    pub fn last(&self) -> (Number, Number)
        ensures place { result.0 ≡ length self.now }
        ensures term { result.1 ≡ last_term self.now }
        ensures limit { length self.now ≤ entry_limit }
    {
        let index = self.len();
        (index, self.term_at(index))
    }

    /// Whether the log reaches to an index and has this term there. At index 0, before all entries, it always does.
    /// Logs that agree at an index are the same up to it: section 5.3 of the Raft paper.
    pub fn agrees_at(&self, index: Number, term: Number) -> bool
        ensures { result ≡ agrees_at self.now index term }
    {
        index.value() == 0 || (index <= self.len() && self.term_at(index) == term)
    }

    /// Whether a log that ends at this index, in this term, is at least as up to date as this one, as section 5.4.1 of
    /// the Raft paper says: the later last term wins, or in the same term the longer log.
    pub fn up_to_date(&self, index: Number, term: Number) -> bool
        ensures { result ≡ up_to_date term index (last_term self.now) (length self.now) }
    {
        let (own_index, own_term) = self.last();
        own_term < term || (term == own_term && own_index <= index)
    }

    /// Copies of this many entries after an index, or of all that are there.
    pub fn copied_behind(&self, index: Number, count: usize) -> Result<Vec<Entry<B>>, AllocError>
        requires { index ≤ length self.now }
        ensures { IfOk result (λ v. v.items ≡ take count (drop index self.now)) }
    {
        let alloc = *self.runs.allocator();
        let rest = self.len().value() - index.value();
        let count = rest.min(count as u64);
        let mut entries = Vec::with_capacity(alloc, count as usize)?;
        for before in index.value()..index.value() + count {
            let index = Number::new(before + 1);
            let body = self.body(index).copy(alloc)?;
            let term = self.term_at(index);
            entries.push(Entry { term, body })?;
        }
        Ok(entries)
    }

    /// How many of the entries are already in the log after an index, up to the first that is not.
    pub fn standing(&self, prev: Number, entries: &[Entry<B>]) -> usize
        requires { prev ≤ length self.now }
        ensures value { result ≡ standing (drop prev self.now) entries.now }
        ensures few { result ≤ length entries.now }
        ensures within { prev + result ≤ length self.now }
    {
        let len = self.len().value();
        let mut index = prev.value();
        for entry in entries {
            if index < len && self.term_at(Number::new(index + 1)) == entry.term {
                index += 1;
            } else {
                return (index - prev.value()) as usize;
            }
        }
        entries.len()
    }

    /// Whether one of the first `count` entries conflicts with what follows an index: the same index, another term.
    pub fn conflicts_within(&self, prev: Number, entries: &[Entry<B>], count: usize) -> bool
        requires { prev ≤ length self.now }
        ensures { result ≡ conflicts_within (drop prev self.now) entries.now count }
    {
        let standing = self.standing(prev, entries);
        if standing == entries.len() {
            return false;
        }
        let end = prev.value() + standing as u64;
        end < self.len().value() && standing < count
    }

    /// Adds an entry.
    pub fn push(&mut self, entry: Entry<B>) -> Result<(), AllocError>
        requires { length self.old < entry_limit }
        ensures ok { OnOk result (self.new ≡ self.old ++ entry ∷ []) }
        ensures err { OnErr result (self.new ≡ self.old) }
    {
        let Entry { term, body } = entry;
        let index = Number::new(self.bodies.len() as u64 + 1);
        // room first: the body is added only where its run is sure to fit
        self.runs.reserve(1)?;
        self.bodies.push(body)?;
        add_term(&mut self.runs, index, term)
    }

    /// Replaces all that follow an index by copies of entries.
    pub fn replace_from(&mut self, index: Number, entries: &[Entry<B>]) -> Result<(), AllocError>
        requires within { index ≤ length self.old }
        requires room { index + length entries.now ≤ entry_limit }
        ensures ok { OnOk result (self.new ≡ take index self.old ++ entries.now) }
        ensures err { OnErr result (self.new ≡ self.old) }
    {
        let added = copied_all(*self.runs.allocator(), entries)?;
        self.put_behind(index, added)
    }

    /// Replaces all that follow an index by these entries.
    pub fn put_behind(&mut self, index: Number, entries: Vec<Entry<B>>) -> Result<(), AllocError>
        requires within { index ≤ length self.old }
        requires room { index + length entries.items ≤ entry_limit }
        ensures ok { OnOk result (self.new ≡ take index self.old ++ entries.items) }
        ensures err { OnErr result (self.new ≡ self.old) }
    {
        let alloc = *self.runs.allocator();
        let keep = index.value() as usize;
        let kept = begun_at(&self.runs, keep);
        let last = last_term(&self.runs[..kept]);
        let begun = begun_behind(alloc, last, keep, &entries)?;
        let bodies = bodies_of(alloc, entries)?;
        // room first: the bodies change only where their runs are sure to fit
        self.runs.reserve(begun.len())?;
        self.bodies.replace_behind(keep, bodies)?;
        replace_tail(&mut self.runs, kept, begun)
    }

    /// How many entries stay when the log takes these after an index, and which ones follow them, as steps 3 and 4 of a
    /// receiver of AppendEntries say in Figure 2 of the Raft paper (section 5.3): the first that conflicts is removed
    /// with all after it, and missing ones are added.
    pub fn repaired(&self, prev: Number, entries: Vec<Entry<B>>) -> (Number, Vec<Entry<B>>)
        requires within { prev ≤ length self.now }
        requires room { prev + length entries.items ≤ entry_limit }
        ensures value { take result.0 self.now ++ result.1.items
            ≡ repair self.now prev entries.items }
        ensures kept { result.0 ≤ length self.now }
        ensures few { length result.1.items ≤ length entries.items }
        ensures room { result.0 + length result.1.items ≤ entry_limit }
    {
        let count = self.standing(prev, &entries);
        // if all entries are already there, what follows them stays: a late copy of an append must not cut it
        if count == entries.len() {
            return (self.len(), Vec::new(*entries.allocator()));
        }
        let keep = Number::new(prev.value() + count as u64);
        (keep, without_first(entries, count))
    }

    /// Takes entries that follow an index, as `repaired` says.
    pub fn repair(&mut self, prev: Number, entries: Vec<Entry<B>>) -> Result<(), AllocError>
        requires within { prev ≤ length self.old }
        requires room { prev + length entries.items ≤ entry_limit }
        ensures ok { OnOk result (self.new ≡ repair self.old prev entries.items) }
        ensures err { OnErr result (self.new ≡ self.old) }
    {
        let (keep, rest) = self.repaired(prev, entries);
        self.put_behind(keep, rest)
    }

    /// Shares with another log the full blocks of bodies from this one on that are the same in both. Returns how many
    /// full blocks there are.
    pub fn share(&mut self, from: usize, other: &Self) -> Result<usize, AllocError>
        ensures { self.new ≡ self.old }
    {
        self.bodies.share(from, &other.bodies)
    }
}

/// A copy shares the full blocks of bodies.
impl<B: Wire> Copied for Log<B> {
    fn copy(&self, alloc: Global) -> Result<Self, AllocError> {
        let runs = copied_all(alloc, &self.runs)?;
        let bodies = self.bodies.copy(alloc)?;
        Ok(Log { runs, bodies })
    }
}

/// The bodies of entries.
fn bodies_of<B: Wire>(
    alloc: Global,
    entries: Vec<Entry<B>>,
) -> Result<Vec<LoggedBody<B>>, AllocError>
    ensures { IfOk result (λ v. v.items ≡ map (λ e. e.body) entries.items) }
{
    let mut bodies = Vec::with_capacity(alloc, entries.len())?;
    for entry in entries {
        let Entry { body, .. } = entry;
        bodies.push(body)?;
    }
    Ok(bodies)
}
