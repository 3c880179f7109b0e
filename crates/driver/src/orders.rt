//! What is ordered, and how many notes each node was sent.
ghost use Rattle.std.specs.Prelude.{◌≡◌, ◌++◌, ◌∷◌, [], true, IfOk, None, OnOk};
ghost use Rattle.std.specs.Global.{Vec};
ghost use Rattle.driver.specs.declared.order.Order.TheVariants.{Close, Connect, Disconnect, Send, Submit, Log, Write};
ghost use Rattle.driver.specs.Deeds.{are_merged, deeds, said_in, written_by};
ghost use Rattle.driver.specs.Telling.{counts, emptied, next_note, none_told, ordered, told_to};

use crate::news::News;
use crate::node_monitor::MOST_NODES;
use crate::order::{Order, TowerNote};
use crate::order_list::OrderList;
use crate::said::Said;
use raft_log::NodeId;
use std::alloc::{AllocError, Global};
use std::marker::Model;
use std::mem::replace;
use std::snapshot::Snapshot;

/// What is ordered, and how many notes each node was sent.
///
/// A clause sees the orders, each write by itself, and how many notes each node was sent before them: the total is
/// these and the notes in the orders.
#[derive(Drop)]
pub struct Orders {
    alloc: Global,
    list: OrderList,
    /// The orders, each write by itself.
    said: Snapshot<Said>,
    /// How many notes each node was sent before these orders; node 1's first.
    before: [u64; MOST_NODES],
    /// How many it was sent in all.
    told: [u64; MOST_NODES],
}

impl Model for Orders {
    ghost use Rattle.std.specs.Prelude.{◌≡◌};
    ghost use Rattle.driver.specs.Deeds.{deeds, said_in};
    ghost use Rattle.driver.specs.Telling.{Ordered, counts};

    ghost Value = { Ordered };

    ghost view = { λ o. record { before = o.before; items = said_in o.said.value } };

    ghost invariant = { λ o. (o.told ≡ counts o.before (said_in o.said.value))
        × (deeds o.list ≡ deeds (said_in o.said.value)) };
}

impl Orders {
    /// Nothing is ordered, and no node was sent a note.
    #[tactic(auto, unfolding(crate::specs::Telling::counts))]
    pub fn new(alloc: Global) -> Orders
        ensures { result ≡ none_told }
    {
        Orders {
            alloc,
            list: OrderList::new(alloc),
            said: Said::nothing(),
            before: [0; MOST_NODES],
            told: [0; MOST_NODES],
        }
    }

    /// How many notes a node was sent.
    #[tactic(auto, unfolding(crate::specs::Telling::told_to))]
    pub fn told_to(&self, node: NodeId) -> u64
        ensures { result ≡ told_to self.now node }
    {
        self.told[node.value() as usize - 1]
    }

    /// The number of the next note to a node.
    pub fn next(&self, node: NodeId) -> u64
        ensures { result ≡ next_note self.now node }
    {
        self.told_to(node).saturating_add(1)
    }

    /// Sends a note to a node. Returns the note's number.
    pub fn submit(&mut self, node: NodeId, note: TowerNote) -> Result<u64, AllocError>
        ensures told { OnOk result (self.new ≡ ordered self.old (Submit node note ∷ [])) }
        ensures number { IfOk result (λ number. number ≡ next_note self.old node) }
    {
        let number = self.next(node);
        let mut told = self.told;
        told[node.value() as usize - 1] = number;
        self.add(Order::Submit(node, note), told)?;
        Ok(number)
    }

    /// Bytes go to a client.
    #[tactic(auto, using(crate::proofs::Telling::counts_push))]
    pub fn write(&mut self, client: u64, bytes: Vec<u8>) -> Result<(), AllocError>
        ensures { OnOk result (self.new ≡ ordered self.old (Write client bytes ∷ [])) }
    {
        let written = Snapshot::of(&bytes);
        self.list.write(client, bytes)?;
        let past = replace(&mut self.said, Said::nothing());
        self.said = Said::written(past, client, written);
        Ok(())
    }

    /// Closes the connection of a client.
    #[tactic(auto, using(crate::proofs::Telling::counts_push))]
    pub fn close(&mut self, client: u64) -> Result<(), AllocError>
        ensures { OnOk result (self.new ≡ ordered self.old (Close client ∷ [])) }
    {
        self.add(Order::Close(client), self.told)
    }

    /// Connects to the server.
    #[tactic(auto, using(crate::proofs::Telling::counts_push))]
    pub fn connect(&mut self) -> Result<(), AllocError>
        ensures { OnOk result (self.new ≡ ordered self.old (Connect ∷ [])) }
    {
        self.add(Order::Connect, self.told)
    }

    /// Bytes go to the server.
    #[tactic(auto, using(crate::proofs::Telling::counts_push))]
    pub fn send(&mut self, bytes: Vec<u8>) -> Result<(), AllocError>
        ensures { OnOk result (self.new ≡ ordered self.old (Send bytes ∷ [])) }
    {
        self.add(Order::Send(bytes), self.told)
    }

    /// Closes the connection to the server.
    #[tactic(auto, using(crate::proofs::Telling::counts_push))]
    pub fn disconnect(&mut self) -> Result<(), AllocError>
        ensures { OnOk result (self.new ≡ ordered self.old (Disconnect ∷ [])) }
    {
        self.add(Order::Disconnect, self.told)
    }

    /// Logs something for the operator.
    #[tactic(auto, using(crate::proofs::Telling::counts_push))]
    pub fn log(&mut self, news: News) -> Result<(), AllocError>
        ensures { OnOk result (self.new ≡ ordered self.old (Log news ∷ [])) }
    {
        self.add(Order::Log(news), self.told)
    }

    /// Adds an order that writes to no client, and gives the counts of notes after it.
    fn add(&mut self, order: Order, told: [u64; MOST_NODES]) -> Result<(), AllocError>
        requires counted { told ≡ counts self.old.before (self.old.items ++ order ∷ []) }
        requires other { written_by order ≡ None }
        ensures { OnOk result (self.new ≡ ordered self.old (order ∷ [])) }
    {
        let ordered = Snapshot::of(&order);
        self.list.push(order)?;
        let past = replace(&mut self.said, Said::nothing());
        self.said = Said::other(past, ordered);
        self.told = told;
        Ok(())
    }

    /// What was ordered; it is not returned again, and stays counted. Consecutive writes to one client are one order.
    #[tactic(auto, unfolding(crate::specs::Telling::counts))]
    pub fn take(&mut self) -> Vec<Order>
        ensures given { deeds result.items ≡ deeds self.old.items }
        ensures left { self.new ≡ emptied self.old }
        ensures settled { are_merged result.items ≡ true }
    {
        self.before = self.told;
        self.said = Said::nothing();
        self.list.take(self.alloc)
    }
}
