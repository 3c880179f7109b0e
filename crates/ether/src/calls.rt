//! The calls of nodes: opening, tick, post, take. None waits, and none allocates.
ghost use Rattle.std.specs.Prelude.{◌≡◌, ◌<◌, ◌≤◌, ◌++◌, ◌∷◌, [], suc, length, IfOk, IfErr, MatchResult};
ghost use Rattle.ether.specs.declared.fault.EtherFault.TheVariants.{Spent};
ghost use Rattle.ether.specs.Passes.{IsHeard, IsOpenPass, IsPass, IsSent, IsUnopened, StaysOpen};
ghost use Rattle.ether.specs.Passes.{WasStarted, IsOpen, looks_of, view_of};
ghost use Rattle.ether.specs.Plays.{IsFrom, IsOlder, after_event, after_opening, after_post, after_take};
ghost use Rattle.ether.specs.Rule.{look_at, look_if, mailbox_of};
ghost use Rattle.ether.specs.Plays.{opened, ticked};
ghost use Rattle.raft_log.specs.Seen.{seen};
ghost use Rattle.raft_node.specs.Parts.{keeper};
ghost use Rattle.world_views.specs.Views.{addressee};
ghost use Rattle.wire_bytes.specs.Limits.{number_limit};

use crate::ether::Ether;
use crate::fault::EtherFault;
use crate::known::Known;
use crate::pass::{FULL, MOST_TICKS, Pass};
use crate::plays::{Glances, Opens, Posts, Step, Takes, Ticks};
use machine_laws::Hosted;
use raft_node::{Described, Node};
use stable_store::Stable;
use std::marker::Brand;
use std::snapshot::Snapshot;
use world_views::{Envelope, NodeEvent};

impl<M: Hosted> Ether<M> {
    /// The pass's first tick: its node is as a start gave it. Returns its ticket.
    pub fn opening<S: Stable<M::Command>>(
        &self,
        pass: &mut Pass<M::Command, M::Line, M::Target>,
        node: &Node<M, S>,
    ) -> u64
        requires pass { IsPass self.now pass.old × IsUnopened pass.old }
        requires node { WasStarted (keeper S.saved S.may_stand S.condition) (suc pass.old.node)
            self.now.size self.now.setup node.now }
        ensures open { StaysOpen self.now pass.old pass.new }
        ensures view { view_of pass.new ≡ after_opening (view_of pass.old) result
            (S.condition node.now.store).honest (seen node.now.state []) }
        ensures looks { looks_of pass.new ≡ looks_of pass.old }
    {
        self.open::<S, Brand>(pass, node)
    }

    fn open<S: Stable<M::Command>, W: Step<Known<M::Command, M::Line, M::Target>>>(
        &self,
        pass: &mut Pass<M::Command, M::Line, M::Target>,
        node: &Node<M, S>,
    ) -> u64
        requires pass { IsPass self.now pass.old × IsUnopened pass.old }
        requires step { W.becomes ≡ opened (S.condition node.now.store).honest
            (seen node.now.state []) }
        ensures open { StaysOpen self.now pass.old pass.new }
        ensures view { view_of pass.new ≡ after_opening (view_of pass.old) result
            (S.condition node.now.store).honest (seen node.now.state []) }
        ensures looks { looks_of pass.new ≡ looks_of pass.old }
    {
        let _ = node;
        self.table
            .shared
            .fetch_add::<Opens<W>>(&mut pass.seat, 0, 1)
    }

    /// An event of the pass's node, which only clauses see. Returns its ticket; `Spent` if the pass has made 2^60
    /// ticks.
    pub fn tick(
        &self,
        pass: &mut Pass<M::Command, M::Line, M::Target>,
        event: Snapshot<NodeEvent<M::Command, M::Line, M::Target>>,
    ) -> Result<u64, EtherFault>
        requires pass { IsOpenPass self.now pass.old }
        requires heard { IsHeard (view_of pass.old) event.value }
        ensures open { StaysOpen self.now pass.old pass.new }
        ensures ticket { IfOk result (λ t. view_of pass.new
            ≡ after_event (⟦<M as Described>⟧.machine self.now.setup) (view_of pass.old) t
            event.value) }
        ensures spent { IfErr result (λ e. (e ≡ Spent) × (pass.new ≡ pass.old)
            × (length (view_of pass.old).turns ≡ number_limit)) }
        ensures looks { looks_of pass.new ≡ looks_of pass.old }
    {
        if pass.ticks >= MOST_TICKS {
            return Err(EtherFault::Spent);
        }
        Ok(self.count::<Brand>(pass, event))
    }

    fn count<W: Step<Known<M::Command, M::Line, M::Target>>>(
        &self,
        pass: &mut Pass<M::Command, M::Line, M::Target>,
        event: Snapshot<NodeEvent<M::Command, M::Line, M::Target>>,
    ) -> u64
        requires pass { IsOpenPass self.now pass.old × (pass.old.ticks < number_limit) }
        requires heard { IsHeard (view_of pass.old) event.value }
        requires step { W.becomes ≡ ticked (⟦<M as Described>⟧.machine self.now.setup) event.value }
        ensures open { StaysOpen self.now pass.old pass.new }
        ensures view { view_of pass.new
            ≡ after_event (⟦<M as Described>⟧.machine self.now.setup) (view_of pass.old) result
            event.value }
        ensures looks { looks_of pass.new ≡ looks_of pass.old }
    {
        let _ = event;
        pass.ticks += 1;
        self.table
            .shared
            .fetch_add::<Ticks<W>>(&mut pass.seat, 0, 1)
    }

    /// Puts a message that the pass's node sent into the mailbox to its addressee. An older message that was still
    /// there comes back: the node had sent it to the same addressee, which did not take it.
    pub fn post(
        &self,
        pass: &mut Pass<M::Command, M::Line, M::Target>,
        envelope: Envelope<M::Command>,
    ) -> Option<Envelope<M::Command>>
        requires pass { IsOpenPass self.now pass.old }
        requires sent { IsSent (view_of pass.old) envelope }
        requires addressee { (1 ≤ envelope.message.to) × (envelope.message.to ≤ self.now.size) }
        ensures open { StaysOpen self.now pass.old pass.new }
        ensures view { view_of pass.new ≡ after_post (view_of pass.old) envelope.number }
        ensures older { IsOlder (view_of pass.old) envelope result }
        ensures looks { looks_of pass.new ≡ looks_of pass.old
            ++ look_at (mailbox_of self.now.size pass.old.node (addressee envelope)) result ∷ [] }
    {
        let shared = &self.table.shared;
        let to = envelope.message.to as u64 - 1;
        let word = (pass.node * self.group.size.value() as u64 + to + 1) as usize;
        // into the slot first: the receiver may read it as soon as the word names it
        let _none = shared.exchange(&mut pass.seat, pass.spare as usize, Some(envelope));
        let found = shared.swap::<Posts>(&mut pass.seat, word, pass.spare + FULL);
        let older = found % FULL;
        pass.spare = older;
        if found < FULL {
            return None;
        }
        shared.exchange(&mut pass.seat, older as usize, None)
    }

    /// Takes the message in the mailbox from the node at this place, from 0 on; nothing if it is
    /// empty. This is one look: one load, and, if there is a message, one swap.
    pub fn take(
        &self,
        pass: &mut Pass<M::Command, M::Line, M::Target>,
        from: u64,
    ) -> Option<Envelope<M::Command>>
        requires pass { IsPass self.now pass.old }
        requires from { from < self.now.size }
        ensures pass { IsPass self.now pass.new × (pass.new.node ≡ pass.old.node) }
        ensures open { IsOpen pass.old → IsOpen pass.new }
        ensures view { view_of pass.new ≡ after_take (view_of pass.old) result }
        ensures from { IsFrom from result }
        ensures looks { looks_of pass.new ≡ looks_of pass.old
            ++ look_at (mailbox_of self.now.size from pass.old.node) result ∷ [] }
    {
        self.look::<Brand>(pass, from)
    }

    fn look<W: Step<Known<M::Command, M::Line, M::Target>>>(
        &self,
        pass: &mut Pass<M::Command, M::Line, M::Target>,
        from: u64,
    ) -> Option<Envelope<M::Command>>
        requires pass { IsPass self.now pass.old }
        requires from { from < self.now.size }
        requires step { W.from ≡ from }
        ensures pass { IsPass self.now pass.new × (pass.new.node ≡ pass.old.node) }
        ensures open { IsOpen pass.old → IsOpen pass.new }
        ensures view { view_of pass.new ≡ after_take (view_of pass.old) result }
        ensures from { IsFrom from result }
        ensures looks { looks_of pass.new ≡ looks_of pass.old
            ++ look_at (mailbox_of self.now.size from pass.old.node) result ∷ [] }
    {
        let shared = &self.table.shared;
        let word = (from * self.group.size.value() as u64 + pass.node + 1) as usize;
        // most mailboxes are empty, and a load leaves the cache line with the sender
        if shared.load::<Glances>(&mut pass.seat, word) < FULL {
            return None;
        }
        let found = shared.swap::<Takes<W>>(&mut pass.seat, word, pass.spare);
        pass.spare = found % FULL;
        shared.exchange(&mut pass.seat, pass.spare as usize, None)
    }

    /// Whether the mailbox from the pass's node to the node at this place, from 0 on, is empty: the last message posted
    /// there was taken. It is one load, and counts as a look only if the mailbox is empty.
    pub fn is_taken(&self, pass: &mut Pass<M::Command, M::Line, M::Target>, to: u64) -> bool
        requires pass { IsPass self.now pass.old }
        requires to { to < self.now.size }
        ensures pass { IsPass self.now pass.new × (pass.new.node ≡ pass.old.node) }
        ensures open { IsOpen pass.old → IsOpen pass.new }
        ensures view { view_of pass.new ≡ view_of pass.old }
        ensures looks { looks_of pass.new ≡ looks_of pass.old
            ++ look_if result (mailbox_of self.now.size pass.old.node to) }
    {
        let mailbox = (pass.node * self.group.size.value() as u64 + to + 1) as usize;
        self.table.shared.load::<Glances>(&mut pass.seat, mailbox) < FULL
    }
}
