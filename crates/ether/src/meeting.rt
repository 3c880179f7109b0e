//! Passes held together: what their nodes did is of one moment.
ghost use Rattle.std.specs.Prelude.{◌≡◌};
ghost use Rattle.ether.specs.Passes.{AllMeet, ArePassesOfAll, IsPass, IsSamePass, view_of};
ghost use Rattle.ether.specs.Plays.{of_one_moment};
ghost use Rattle.ether.specs.Rule.{Known};
ghost use Rattle.world_views.specs.Laws.{AreOfOneGroup};

use crate::ether::Ether;
use crate::known::Known;
use crate::pass::Pass;
use crate::plays::{Joins, Lends, Meets, Returns, Step};
use atomic_table::Seat;
use machine_laws::Hosted;
use raft_node::Described;
use std::marker::Brand;
use world_views::Envelope;

impl<M: Hosted> Ether<M> {
    /// One pass borrows what the other knows, and gives it back; both are then as before. What the two nodes did is of
    /// one moment of one group, and so has all that the laws of such views say: if the stores were new at the openings,
    /// or held what some list of events leaves, one list of events leads to both nodes' states.
    pub fn meet(
        &self,
        one: &mut Pass<M::Command, M::Line, M::Target>,
        other: &mut Pass<M::Command, M::Line, M::Target>,
    )
        requires { IsPass self.now one.old × IsPass self.now other.old }
        ensures one { IsPass self.now one.new × IsSamePass one.old one.new }
        ensures other { IsPass self.now other.new × IsSamePass other.old other.new }
        ensures meet { AreOfOneGroup (⟦<M as Described>⟧.machine self.now.setup)
            (view_of one.old) (view_of other.old) }
    {
        let shared = &self.table.shared;
        let lent = shared.split_seat::<Lends>(&mut other.seat);
        shared.join_seat::<Joins>(&mut one.seat, lent);
        self.learn::<Brand>(&mut one.seat);
        let back = shared.split_seat::<Returns>(&mut one.seat);
        shared.join_seat::<Joins>(&mut other.seat, back);
    }

    /// The passes of all nodes, whose use ends with this. What all nodes did is of one moment, so that a caller that
    /// knows how each was opened knows all that the laws of views say about them.
    pub fn meet_all(&self, passes: Vec<Pass<M::Command, M::Line, M::Target>>)
        requires { ArePassesOfAll self.now passes.items }
        ensures { AllMeet (⟦<M as Described>⟧.machine self.now.setup) self.now.size passes.items }
    {
        let mut rest = passes;
        let Some(last) = rest.pop() else {
            return;
        };
        let mut seat = last.seat;
        while let Some(pass) = rest.pop() {
            let mut other = pass.seat;
            let lent = self.table.shared.split_seat::<Lends>(&mut other);
            self.table.shared.join_seat::<Joins>(&mut seat, lent);
        }
        self.learn::<Brand>(&mut seat);
    }

    /// The views that a seat knows are of one moment.
    fn learn<W: Step<Known<M::Command, M::Line, M::Target>>>(
        &self,
        seat: &mut Seat<Option<Envelope<M::Command>>, Known<M::Command, M::Line, M::Target>>,
    )
        requires table { seat.old.table_id ≡ self.now.table }
        requires step { (k : Known M.Command M.Line M.Target)
            → of_one_moment (⟦<M as Described>⟧.machine self.now.setup) self.now.size k → W.fact k }
        ensures same { (seat.new.table_id ≡ seat.old.table_id) × (seat.new.id ≡ seat.old.id)
            × (seat.new.me ≡ seat.old.me) }
        ensures fact { W.fact seat.old.me.0 }
    {
        self.table.shared.fetch_add::<Meets<W>>(seat, 0, 0);
    }
}
