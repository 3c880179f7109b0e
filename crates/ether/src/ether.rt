//! The ether: one word of tickets, and one word for each ordered pair of nodes, the mailbox from one to the other.
ghost use Rattle.std.specs.Prelude.{◌≡◌, ◌+◌, ◌*◌, ◌^◌, ◌<◌, ◌∷◌, [], ℕ, length, slice_index, IfOk};
ghost use Rattle.ether.specs.Passes.{AreNew};
ghost use Rattle.ether.specs.Rule.{dealer};
ghost use lib.ListN.{get_elem?};
ghost use mathlib.Core.Option.{some};

use crate::fault::EtherFault;
use crate::known::Known;
use crate::pass::Pass;
use crate::plays::Deals;
use crate::rule::{Group, Mailboxes};
use atomic_table::{Seat, Table};
use machine_laws::Hosted;
use raft_log::GroupSize;
use std::alloc::{AllocError, Global};
use std::marker::Model;
use wire_bytes::Copied;
use world_views::Envelope;

/// What carries messages between the nodes of one process, and gives each event its ticket. It has no lock: a message
/// is put by one swap of one word, and taken by a load and a swap of one word; a ticket is drawn by one addition to one
/// word. A take that finds nothing is one load, and changes no word.
#[derive(Drop)]
pub struct Ether<M: Hosted> {
    pub(crate) table: Table<
        Option<Envelope<M::Command>>,
        Known<M::Command, M::Line, M::Target>,
        Group<M::Setup>,
        Mailboxes<M>,
        Global,
    >,
    pub(crate) group: Group<M::Setup>,
}

impl<M: Hosted> Model for Ether<M> {
    ghost use Rattle.std.specs.Prelude.{◌≡◌, ◌+◌, ◌*◌};
    ghost use Rattle.ether.specs.Passes.{EtherParts};

    ghost Value = { EtherParts M.Setup };

    ghost view = { λ e. record {
      table = e.table.shared.table_id;
      size = e.group.size;
      setup = e.group.setup;
    } };

    ghost invariant = { λ e. (e.table.shared.table_id.words ≡ e.group.size * e.group.size + 1)
        × (e.table.shared.key ≡ e.group) };
}

impl<M: Hosted> Ether<M> {
    /// An ether for a group of this size, with the setup of the machine that each node hosts, and a pass for each node,
    /// node 1's first.
    pub fn new(
        alloc: Global,
        size: GroupSize,
        setup: &M::Setup,
    ) -> Result<(Ether<M>, Vec<Pass<M::Command, M::Line, M::Target>>), EtherFault>
        ensures group { IfOk result (λ r. (r.0.size ≡ size) × (r.0.setup ≡ setup.now)) }
        ensures passes { IfOk result (λ r. (length r.1.items ≡ size) × AreNew r.0 r.1.items) }
    {
        let group = Group {
            size,
            setup: setup.copy(alloc)?,
        };
        let count = size.value() as u64;
        let boxes = count * count;
        let words = first_words(alloc, boxes)?;
        let (table, first) = Table::vacant(
            alloc,
            words.as_slice(),
            (boxes + count) as usize,
            &group,
        )?;
        let ether = Ether { table, group };
        let passes = ether.deal(alloc, first)?;
        Ok((ether, passes))
    }

    /// The passes of all nodes; the first seat starts with all of them.
    fn deal(
        &self,
        alloc: Global,
        first: Seat<Option<Envelope<M::Command>>, Known<M::Command, M::Line, M::Target>>,
    ) -> Result<Vec<Pass<M::Command, M::Line, M::Target>>, AllocError>
        requires { (first.table_id ≡ self.now.table) × (first.me ≡ (dealer self.now.size, [])) }
        ensures { IfOk result (λ ps. (length ps.items ≡ self.now.size) × AreNew self.now ps.items) }
    {
        let count = self.group.size.value() as u64;
        let boxes = count * count;
        let mut dealer = first;
        let mut passes = Vec::with_capacity(alloc, count as usize)?;
        for node in 0..count {
            let rest = self.table.shared.split_seat::<Deals>(&mut dealer);
            passes.push(Pass {
                seat: dealer,
                node,
                spare: boxes + node,
                ticks: 0,
            })?;
            dealer = rest;
        }
        Ok(passes)
    }

    /// How many nodes it is for.
    pub fn size(&self) -> GroupSize
        ensures { result ≡ self.now.size }
    {
        self.group.size
    }

    /// The setup of the machine that each node hosts.
    pub fn setup(&self) -> &M::Setup
        ensures { result.now ≡ self.now.setup }
    {
        &self.group.setup
    }
}

/// Ticket 0, and in each mailbox the slot of its own number.
fn first_words(alloc: Global, boxes: u64) -> Result<Vec<u64>, AllocError>
    requires { boxes < 2 ^ 32 }
    ensures { IfOk result (λ w. (length w.items ≡ boxes + 1) × (slice_index w.items 0 ≡ 0)
        × ((a k : ℕ) → 0 < a → get_elem? w.items a ≡ some k → a ≡ k + 1)) }
{
    let mut words = Vec::new(alloc);
    words.push(0)?;
    for slot in 0..boxes {
        words.push(slot)?;
    }
    Ok(words)
}
