//! The clients that are attached.
ghost use Rattle.std.specs.Prelude.{◌≡◌, ◌&&◌, ◌==◌, ◌++◌, ◌∷◌, [], not, nat_lt, filter, OnOk, OnErr};
ghost use Rattle.std.specs.BTreeSet.{contains};
ghost use Rattle.wire_bytes.specs.declared.origin.Origin.{Origin};
ghost use Rattle.machine_laws.specs.Origins.{same_origin};
ghost use Rattle.buffer_machine.specs.Messages.{is_among, is_none_of};
ghost use Rattle.buffer_machine.specs.Crowd.{can_attach};

use std::alloc::{AllocError, Global};
use std::collections::BTreeSet;
use std::marker::Model;
use wire_bytes::{Number, Origin};

/// The clients that are attached, in the order in which they attached, and also as a set for lookups.
#[derive(Drop)]
pub struct Clients {
    order: Vec<Origin>,
    set: BTreeSet<Origin>,
}

impl Model for Clients {
    ghost use Rattle.std.specs.Prelude.{◌≡◌, List};
    ghost use Rattle.std.specs.BTreeSet.{contains};
    ghost use Rattle.wire_bytes.specs.declared.origin.Origin.{Origin};
    ghost use Rattle.buffer_machine.specs.Messages.{is_among};

    ghost Value = { List Origin };

    ghost view = { λ c. c.order.items };

    ghost invariant = { λ c. (o : Origin)
        → contains (⟦<Origin as Ord>⟧.cmp) c.set o ≡ is_among o c.order.items };
}

impl Clients {
    pub fn new(alloc: Global) -> Clients
        ensures { result ≡ [] }
    {
        Clients {
            order: Vec::new(alloc),
            set: BTreeSet::new(alloc),
        }
    }

    /// In the order in which they attached.
    pub fn as_slice(&self) -> &[Origin]
        ensures { result.now ≡ self.now }
    {
        self.order.as_slice()
    }

    pub fn is_empty(&self) -> bool
        ensures { result ≡ is_none_of self.now }
    {
        self.order.is_empty()
    }

    /// Takes time logarithmic in the number of clients.
    pub fn is_attached(&self, origin: Origin) -> bool
        ensures { result ≡ is_among origin self.now }
    {
        self.set.contains(&origin)
    }

    /// Whether an Attach is taken, where this is the floor of its client's node.
    pub fn may_attach(&self, floor: u64, origin: Origin) -> bool
        ensures { result ≡ can_attach floor self.now origin }
    {
        !self.is_attached(origin) && floor <= origin.boot()
    }

    /// Adds a client after all others. A refused call changes nothing.
    pub fn attach(&mut self, origin: Origin) -> Result<(), AllocError>
        ensures ok { OnOk result (self.new ≡ self.old ++ origin ∷ []) }
        ensures err { OnErr result (self.new ≡ self.old) }
    {
        // the list first: its end can always be removed again if there is no room in the set
        self.order.push(origin)?;
        match self.set.insert(origin) {
            Ok(_) => Ok(()),
            Err(_) => {
                self.order.pop();
                Err(AllocError)
            }
        }
    }

    pub fn clear(&mut self)
        ensures { self.new ≡ [] }
    {
        self.order.clear();
        self.set.clear();
    }

    pub fn remove(&mut self, origin: Origin)
        ensures { self.new ≡ filter (λ x. not (same_origin origin x)) self.old }
    {
        self.order.retain(|client| !(origin == *client));
        take_out(&mut self.set, origin);
    }

    /// Removes the clients of a node's runs below this one.
    pub fn remove_below(&mut self, node: u8, floor: Number)
        ensures { self.new ≡ filter (λ x. not (x.0 == node && nat_lt x.1 floor)) self.old }
    {
        remove_from(&mut self.order, node, floor);
        remove_from_set(&mut self.set, node, floor);
    }
}

fn take_out(clients: &mut BTreeSet<Origin>, origin: Origin)
    ensures { (o : Origin) → contains (⟦<Origin as Ord>⟧.cmp) clients.new o ≡
        (not (same_origin origin o) && contains (⟦<Origin as Ord>⟧.cmp) clients.old o) }
{
    clients.remove(&origin);
}

/// Whether a client is of a node's runs below this one.
fn is_gone(client: Origin, node: u8, floor: Number) -> bool
    ensures { result ≡ (client.0 == node && nat_lt client.1 floor) }
{
    client.node() == node && client.boot() < floor.value()
}

fn remove_from(clients: &mut Vec<Origin>, node: u8, floor: Number)
    ensures { clients.new.items ≡
        filter (λ x. not (x.0 == node && nat_lt x.1 floor)) clients.old.items }
{
    clients.retain(|client| !is_gone(*client, node, floor));
}

fn remove_from_set(clients: &mut BTreeSet<Origin>, node: u8, floor: Number)
    ensures { clients.new.keys ≡
        filter (λ x. not (x.0 == node && nat_lt x.1 floor)) clients.old.keys }
{
    clients.retain(|client| !is_gone(*client, node, floor));
}
