ghost use Rattle.std.specs.Prelude.{◌≡◌, [], false, true, map, option_map, IfOk, IsOk, IsTrue, OnOk, OnErr};
ghost use Rattle.std.specs.List.{list_any};
ghost use Rattle.irc_line.specs.Names.{fold_name};
ghost use Rattle.buffer_lines.specs.Stamps.{ring};
ghost use Rattle.buffer_targets.specs.Places.{are_different};
ghost use Rattle.buffer_targets.specs.Targets.{at_query, cleared, has_name_key, none_seen, pushed, query_names, seen_all, query_of_key, query_stored, resized, target, query_resized, has_query, QueryKeeps};

use crate::index;
use crate::target::Target;
use buffer_lines::KeptLine;
use irc_line::Name;
use std::alloc::{AllocError, Global};
use std::marker::Model;

/// Queries in the order in which they were made, found by name in any letter case. Bytes that are no query's name find
/// nothing.
#[derive(Drop)]
pub struct Queries {
    targets: Vec<Target>,
    places: Vec<usize>,
}

impl Model for Queries {
    ghost use Rattle.std.specs.Prelude.{List};
    ghost use Rattle.std.specs.Coded.{coded_list};
    ghost use Rattle.buffer_targets.specs.Places.{IsIndex};
    ghost use Rattle.buffer_targets.specs.Targets.{TargetLines, target_code, query_names};

    ghost Value = { List TargetLines };

    ghost coded = { coded_list target_code };

    ghost view = { λ q. q.targets.items };

    ghost invariant = { λ q. IsIndex (query_names q.targets.items) q.places.items };
}

impl Queries {
    pub fn new(alloc: Global) -> Queries
        ensures { result ≡ [] }
    {
        Queries {
            targets: Vec::new(alloc),
            places: Vec::new(alloc),
        }
    }

    /// In the order in which they were made.
    pub fn as_slice(&self) -> &[Target]
        ensures all { result.now ≡ self.now }
        ensures different { IsTrue (are_different (query_names self.now)) }
    {
        self.targets.as_slice()
    }

    /// The query of a name.
    pub fn find(&self, name: &[u8]) -> Option<&Target>
        ensures { option_map (λ t. t.now) result ≡ query_of_key (fold_name name.now) self.now }
    {
        match index::search(&self.targets, &self.places, name) {
            Ok(place) => Some(&self.targets[place]),
            Err(_) => None,
        }
    }

    /// Empties the query of a name.
    pub fn clear_at(&mut self, name: &[u8])
        ensures { self.new ≡ at_query (fold_name name.now) cleared self.old }
    {
        match index::search(&self.targets, &self.places, name) {
            Ok(place) => self.targets[place].clear(),
            Err(_) => {}
        }
    }

    /// Gives the query of a name another size. A refused call changes nothing;
    /// a size that is not larger is never refused.
    pub fn resize_at(&mut self, name: &[u8], size: usize) -> Result<(), AllocError>
        ensures ok { OnOk result (self.new ≡ query_resized (fold_name name.now) size self.old) }
        ensures err { OnErr result (self.new ≡ self.old) }
        ensures smaller { QueryKeeps (fold_name name.now) size self.old → IsOk result }
    {
        match index::search(&self.targets, &self.places, name) {
            Ok(place) => self.targets[place].resize(size),
            Err(_) => Ok(()),
        }
    }

    /// Empties all queries.
    pub fn clear_all(&mut self)
        ensures { self.new ≡ map cleared self.old }
    {
        clear_each(self.targets.as_mut_slice());
    }

    /// Notes that the readers who are here have seen all that is kept of a name's query.
    pub fn see_at(&mut self, name: &[u8], here: &[bool])
        ensures { self.new ≡ at_query (fold_name name.now) (seen_all here.now) self.old }
    {
        match index::search(&self.targets, &self.places, name) {
            Ok(place) => self.targets[place].see(here),
            Err(_) => {}
        }
    }

    /// Notes that the readers who are here have seen all that is kept of all queries.
    pub fn see_all(&mut self, here: &[bool])
        ensures { self.new ≡ map (seen_all here.now) self.old }
    {
        see_each(self.targets.as_mut_slice(), here);
    }

    /// Adds a line to the query of this name, which is made with this size if none has its key; the readers who are
    /// here see it. Past the most queries allowed, the one made first is dropped. The only error is a lack of memory
    /// for a new query: then nothing has changed, and the line is lost.
    pub fn store(
        &mut self,
        name: &Name,
        line: KeptLine,
        here: &[bool],
        size: usize,
        most: usize,
    ) -> Result<(), AllocError>
        ensures ok { OnOk result (self.new ≡
            query_stored most size name.now line here.now self.old) }
        ensures err { OnErr result (self.new ≡ self.old) }
        ensures known { has_query (fold_name name.now) self.old ≡ true → IsOk result }
    {
        match index::search(&self.targets, &self.places, name.as_bytes()) {
            Ok(place) => Ok(self.targets[place].push(line, here)),
            Err(gap) => {
                let target = new_query(*self.targets.allocator(), name, line, here, size)?;
                index::insert(&mut self.targets, &mut self.places, gap, target)?;
                index::keep_newest(&mut self.targets, &mut self.places, most);
                Ok(())
            }
        }
    }
}

fn clear_each(targets: &mut [Target])
    ensures { targets.new ≡ map cleared targets.old }
{
    for target in targets.iter_mut() {
        target.clear();
    }
}

fn see_each(targets: &mut [Target], here: &[bool])
    ensures { targets.new ≡ map (seen_all here.now) targets.old }
{
    for target in targets.iter_mut() {
        target.see(here);
    }
}

fn new_query(
    alloc: Global,
    name: &Name,
    line: KeptLine,
    here: &[bool],
    size: usize,
) -> Result<Target, AllocError>
    ensures { IfOk result (λ t. t ≡
        pushed line here.now (target name.now (ring [] size) none_seen)) }
{
    let mut target = Target::new(alloc, name, size)?;
    target.push(line, here);
    Ok(target)
}
