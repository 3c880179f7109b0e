ghost use Rattle.std.specs.Prelude.{◌≡◌, ◌==◌, ◌≤◌, ◌<◌, ◌&&◌, ◌++◌, Some, None, [], true, filter, length, nat_lt, not, option_copied, IfOk, IfSome, OnOk};
ghost use Rattle.machine_laws.specs.Origins.{same_origin};
ghost use Rattle.buffer_machine.specs.Crowd.{is_some_of, may_name, with_id};
ghost use Rattle.buffer_machine.specs.Held.{index_in, names_of};
ghost use Rattle.buffer_machine.specs.NameSteps.{flags, here_of, index_of, stand_below, with_holder};
ghost use Rattle.buffer_targets.specs.Targets.{reader};
ghost use Rattle.buffer_targets.specs.Targets.{readers};

use buffer_targets::READERS;
use irc_line::{Name, is_same};
use std::alloc::{AllocError, Global};
use std::marker::Model;
use wire_bytes::{Number, Origin};

/// An attached client that gave a name, and the place of that name among the names.
pub type Holder = (Origin, usize);

/// The names that clients gave when they attached, in the order in which they first came, and who has one now.
#[derive(Drop)]
pub struct Names {
    alloc: Global,
    ids: Vec<Name>,
    holders: Vec<Holder>,
    here: [bool; READERS],
}

impl Model for Names {
    ghost use Rattle.std.specs.Prelude.{◌≡◌, ◌≤◌, ◌&&◌, ℕ, length, true};
    ghost use Rattle.std.specs.List.{list_all};
    ghost use Rattle.buffer_machine.specs.Held.{Names, names_code};
    ghost use Rattle.buffer_machine.specs.NameSteps.{flags, stand_below};
    ghost use Rattle.buffer_targets.specs.Targets.{readers};

    ghost Value = { Names };

    ghost coded = { names_code };

    ghost view = { λ n. record { ids = n.ids.items; holders = n.holders.items } };

    ghost invariant = { λ n. (length n.ids.items ≤ readers)
        × (stand_below (length n.ids.items) n.holders.items ≡ true)
        × (n.here ≡ flags n.holders.items) };
}

/// Nobody is here.
const NOBODY: [bool; READERS] = [false; READERS];

impl Names {
    pub fn new(alloc: Global) -> Names
        ensures { result ≡ names_of [] [] }
    {
        Names {
            alloc,
            ids: Vec::new(alloc),
            holders: Vec::new(alloc),
            here: NOBODY,
        }
    }

    /// The names, in the order in which they first came.
    pub fn ids(&self) -> &[Name]
        ensures { result.now ≡ self.now.ids }
    {
        self.ids.as_slice()
    }

    /// Whether no client ever gave a name.
    pub fn is_empty(&self) -> bool
        ensures none { result ≡ not (is_some_of self.now.ids) }
        ensures nobody { result ≡ true → self.now.holders ≡ [] }
    {
        self.ids.is_empty()
    }

    /// Whether there is room for the name that a client gives, if it gives one.
    pub fn has_room(&self, id: Option<&Name>) -> bool
        ensures { result ≡ may_name self.now.ids (option_copied id.entry) }
    {
        match id {
            None => true,
            Some(id) => self.ids.len() < READERS || self.place_of(id) < self.ids.len(),
        }
    }

    /// The place of a name; after all others, if it is new. Names are compared byte by byte.
    pub fn place_of(&self, id: &Name) -> usize
        ensures place { result ≡ index_in id.now self.now.ids }
        ensures within { may_name self.now.ids (Some id.now) ≡ true → result < readers }
    {
        place_in(self.ids.as_slice(), id)
    }

    /// The attached clients that have a name, in the order in which they attached.
    pub fn holders(&self) -> &[Holder]
        ensures { result.now ≡ self.now.holders }
    {
        self.holders.as_slice()
    }

    /// The name of a client, if it is attached and has one.
    pub fn name_of(&self, origin: Origin) -> Option<usize>
        ensures name { result ≡ index_of origin self.now.holders }
        ensures within { IfSome result (λ place. place < readers) }
    {
        name_in(self.holders.as_slice(), origin)
    }

    /// For each name, whether a client that has it is attached.
    pub fn here(&self) -> &[bool]
        ensures { result.now ≡ here_of self.now }
    {
        &self.here[..self.ids.len().min(READERS)]
    }

    /// How many names there are.
    pub fn count(&self) -> usize
        ensures count { result ≡ length self.now.ids }
        ensures within { result ≤ readers }
    {
        self.ids.len()
    }

    /// Adds a client attached by a name, after all others.
    pub fn attach(&mut self, origin: Origin, id: &Name) -> Result<(), AllocError>
        requires { may_name self.old.ids (Some id.now) ≡ true }
        ensures { OnOk result (self.new ≡ with_holder origin id.now self.old) }
    {
        let name = add_name(self.alloc, &mut self.ids, id)?;
        self.holders.push((origin, name))?;
        self.here[name] = true;
        Ok(())
    }

    /// Removes all clients.
    pub fn clear(&mut self)
        ensures { self.new ≡ names_of self.old.ids [] }
    {
        if self.holders.is_empty() {
            return;
        }
        self.holders.clear();
        self.here = NOBODY;
    }

    /// Removes a client that is no longer attached.
    pub fn remove(&mut self, origin: Origin)
        ensures { self.new ≡ names_of self.old.ids
            (filter (λ h. not (same_origin origin h.0)) self.old.holders) }
    {
        if self.holders.is_empty() {
            return;
        }
        drop_client(&mut self.holders, origin);
        self.here = flags_of(self.holders.as_slice());
    }

    /// Removes the clients of a node's runs below this one.
    pub fn remove_below(&mut self, node: u8, floor: Number)
        ensures { self.new ≡ names_of self.old.ids
            (filter (λ h. not (h.0.0 == node && nat_lt h.0.1 floor)) self.old.holders) }
    {
        if self.holders.is_empty() {
            return;
        }
        drop_run(&mut self.holders, node, floor);
        self.here = flags_of(self.holders.as_slice());
    }
}

fn drop_client(holders: &mut Vec<Holder>, origin: Origin)
    ensures { holders.new.items ≡
        filter (λ h. not (same_origin origin h.0)) holders.old.items }
{
    holders.retain(|holder| !(origin == holder.0));
}

fn drop_run(holders: &mut Vec<Holder>, node: u8, floor: Number)
    ensures { holders.new.items ≡
        filter (λ h. not (h.0.0 == node && nat_lt h.0.1 floor)) holders.old.items }
{
    holders.retain(|holder| !is_gone(holder.0, node, floor));
}

/// The place of a name among these, to which it is added if it is new.
fn add_name(alloc: Global, ids: &mut Vec<Name>, id: &Name) -> Result<usize, AllocError>
    requires few { length ids.old.items ≤ readers }
    requires room { may_name ids.old.items (Some id.now) ≡ true }
    ensures ok { OnOk result (ids.new.items ≡ with_id (Some id.now) ids.old.items) }
    ensures place { IfOk result (λ place. place ≡ index_in id.now ids.new.items) }
    ensures within { IfOk result (λ place. place < length ids.new.items) }
    ensures few { length ids.new.items ≤ readers }
    ensures more { length ids.old.items ≤ length ids.new.items }
{
    let name = place_in(ids.as_slice(), id);
    if name < ids.len() {
        return Ok(name);
    }
    ids.push(id.copy(alloc)?)?;
    Ok(name)
}

/// The place of a name among these; after all, if it is none of them.
fn place_in(ids: &[Name], id: &Name) -> usize
    ensures { result ≡ index_in id.now ids.now }
{
    let mut place = 0;
    for known in ids {
        if is_same(id.as_bytes(), known.as_bytes()) {
            return place;
        }
        place += 1;
    }
    place
}

/// The place of a client's name, if it has one.
fn name_in(holders: &[Holder], origin: Origin) -> Option<usize>
    requires { stand_below readers holders.now ≡ true }
    ensures name { result ≡ index_of origin holders.now }
    ensures within { IfSome result (λ place. place < readers) }
{
    for holder in holders {
        let (client, name) = *holder;
        if origin == client {
            return Some(name);
        }
    }
    None
}

/// The readers who are here, where these clients are attached.
fn flags_of(holders: &[Holder]) -> [bool; READERS]
    requires { stand_below readers holders.now ≡ true }
    ensures { result ≡ flags holders.now }
{
    let mut here = NOBODY;
    for holder in holders {
        let (_, name) = *holder;
        here[name] = true;
    }
    here
}

/// One reader alone, out of all possible ones.
pub fn reader_alone(place: usize) -> [bool; READERS]
    requires { place < readers }
    ensures { result ≡ reader place }
{
    let mut here = NOBODY;
    here[place] = true;
    here
}

/// Whether a client is of a node's runs below this one.
fn is_gone(client: Origin, node: u8, floor: Number) -> bool
    ensures { result ≡ (client.0 == node && nat_lt client.1 floor) }
{
    client.node() == node && client.boot() < floor.value()
}
