//! How a book notes several events, one after the other.
ghost use Rattle.std.specs.Prelude.{◌≡◌, ◌≤◌, ◌+◌, length, suc, true};
ghost use Rattle.ether.specs.Passes.{view_of};
ghost use Rattle.node_cells.specs.Books.{room_for};
ghost use Rattle.node_cells.specs.Cells.{AreAnswered, AreTogether, HasCopies, HasHeard, brought};
ghost use Rattle.node_cells.specs.Copies.{AreCopies};
ghost use Rattle.node_cells.specs.Inputs.{OnlyAppend};
ghost use Rattle.node_cells.specs.Restarts.{HasNotedAll, TellsAnswers, firsts_at_most, firsts_of, stops_in};
ghost use Rattle.node_cells.specs.Together.{all_done};
ghost use Rattle.wire_bytes.specs.Limits.{number_limit};

use crate::book::Book;
use crate::copying::{first_of, outcome_by};
use crate::for_record::ForRecord;
use crate::phase::{Phase, first_event};
use crate::told_input::ToldInput;
use machine_laws::{Hosted, Machine};
use node_steps::Refusal;
use raft_node::Described;
use world_run::Outcome;
use world_views::NodeInput;

impl<M: Hosted> Book<M> {
    /// An event for each input, in order, with its answer. There may be more answers.
    pub fn note_all(
        &mut self,
        inputs: Vec<ToldInput<M::Command, M::Line, M::Target>>,
        copies: Vec<NodeInput<M::Command, M::Line>>,
        answers: &[Result<(), Refusal>],
    )
        requires appends { OnlyAppend inputs.items }
        requires copied { AreCopies self.old.recording inputs.items copies.items }
        requires enough { length inputs.items ≤ length answers.now }
        requires room { (room_for self.old.recording (length inputs.items) ≤ self.old.room)
            × (length (view_of self.old.pass).turns + length inputs.items ≤ number_limit) }
        requires answered { (view_of self.old.pass).honest ≡ true →
            AreAnswered (⟦<M as Described>⟧.machine self.old.ether.setup)
            (view_of self.old.pass).size (suc (view_of self.old.pass).node)
            (view_of self.old.pass).state inputs.items answers.now }
        ensures { HasNotedAll (⟦<M as Described>⟧.machine self.old.ether.setup) self.old
            (all_done inputs.items answers.now) self.new }
    {
        let mut done = 0;
        let mut copies = copies.into_iter();
        for input in inputs {
            let outcome = outcome_by(&answers[done]);
            let copy = copies.next();
            let event = input.done(copy);
            let came = ForRecord::of(outcome);
            self.note(event, came);
            done += 1;
        }
    }

    /// The events of a restart that the store shows.
    pub fn note_first(&mut self, phase: Phase<M::Command, M::Line, M::Target>, same: bool)
        requires heard { HasHeard (view_of self.old.pass) (brought phase) }
        requires together { AreTogether phase }
        requires copied { HasCopies self.old.recording phase }
        requires room { (room_for self.old.recording (firsts_at_most phase) ≤ self.old.room)
            × (length (view_of self.old.pass).turns + firsts_at_most phase ≤ number_limit) }
        requires answered { (view_of self.old.pass).honest ≡ true →
            TellsAnswers (⟦<M as Described>⟧.machine self.old.ether.setup)
            (view_of self.old.pass).size (suc (view_of self.old.pass).node)
            (view_of self.old.pass).state phase }
        ensures { HasNotedAll (⟦<M as Described>⟧.machine self.old.ether.setup) self.old
            (firsts_of phase same) self.new }
    {
        match phase {
            Phase::DownInTurns(inputs, copies, answers) => {
                self.note_stop(inputs, copies, &answers, same)
            }
            other => {
                let event = first_event(other, same);
                let outcome = ForRecord::of(Outcome::Quiet);
                self.note(event, outcome);
            }
        }
    }

    /// The events of a restart of a node that went down while these inputs were saved together.
    fn note_stop(
        &mut self,
        mut inputs: Vec<ToldInput<M::Command, M::Line, M::Target>>,
        mut copies: Vec<NodeInput<M::Command, M::Line>>,
        answers: &[Result<(), Refusal>],
        same: bool,
    )
        requires appends { OnlyAppend inputs.items }
        requires copied { AreCopies self.old.recording inputs.items copies.items }
        requires some { 1 ≤ length inputs.items }
        requires many { length answers.now ≡ length inputs.items }
        requires room { (room_for self.old.recording (length inputs.items) ≤ self.old.room)
            × (length (view_of self.old.pass).turns + length inputs.items ≤ number_limit) }
        requires answered { (view_of self.old.pass).honest ≡ true →
            AreAnswered (⟦<M as Described>⟧.machine self.old.ether.setup)
            (view_of self.old.pass).size (suc (view_of self.old.pass).node)
            (view_of self.old.pass).state inputs.items answers.now }
        ensures { HasNotedAll (⟦<M as Described>⟧.machine self.old.ether.setup) self.old
            (stops_in same inputs.items answers.now) self.new }
    {
        if same {
            let first = inputs.remove(0);
            let copy = first_of(copies);
            let event = first.stopped(copy, false);
            let outcome = ForRecord::of(Outcome::Quiet);
            self.note(event, outcome);
            return;
        }
        let Some(last) = inputs.pop() else {
            unreachable!()
        };
        let copy = copies.pop();
        self.note_all(inputs, copies, answers);
        let stop = last.stopped(copy, true);
        let came = ForRecord::of(Outcome::Quiet);
        self.note(stop, came);
    }
}
