//! Whether the node of a cell runs.
ghost use Rattle.std.specs.Prelude.{◌≡◌, ◌≤◌, [], ◌∷◌, IfSome, None, Ok, length};
ghost use Rattle.node_cells.specs.declared.phase.Phase.TheVariants.{DownInTurns};
ghost use Rattle.node_cells.specs.declared.record.Recording.{Recording};
ghost use Rattle.node_cells.specs.Cells.{HasCopies};
ghost use Rattle.node_cells.specs.Copies.{AreCopies, IsKept};
ghost use Rattle.node_cells.specs.Restarts.{IsAlone, fallen, firsts_at_most, firsts_of};
ghost use Rattle.node_cells.specs.Together.{IsDownInFirst};

use crate::copying::first_of;
use crate::for_record::ForRecord;
use crate::told_input::ToldInput;
use node_steps::Refusal;
use wire_bytes::Wire;
use world_views::{NodeEvent, NodeInput};

/// Whether the node of a cell is up, and if not, where it went down. There are copies of the inputs
/// if turns are recorded.
#[derive(Drop)]
pub enum Phase<B: Wire, L, T> {
    Up,
    /// In a turn of this input; and whether its step was done.
    DownInTurn(ToldInput<B, L, T>, Option<NodeInput<B, L>>, bool),
    /// While these inputs, at least one, were saved together: either none of them was saved, or all were. The answer
    /// that each has once they are.
    DownInTurns(Vec<ToldInput<B, L, T>>, Vec<NodeInput<B, L>>, Vec<Result<(), Refusal>>),
    /// In a restart of a node that was up.
    DownInRestart,
}

/// The phase after a restart that failed.
pub fn fallen<B: Wire, L, T>(phase: Phase<B, L, T>) -> Phase<B, L, T>
    ensures { result ≡ fallen phase }
{
    match phase {
        Phase::Up => Phase::DownInRestart,
        other => other,
    }
}

impl<B: Wire, L, T> Phase<B, L, T> {
    /// How many events a restart publishes at most, not counting a Restart for each earlier one that failed.
    pub fn most_events(&self) -> u64
        ensures { result ≡ firsts_at_most self.now }
    {
        match self {
            Phase::DownInTurns(inputs, _, _) => inputs.len() as u64,
            _ => 1,
        }
    }
}

/// The phase after a node went down when these inputs were to be saved together: in all of them, with the answers that
/// they have once they are saved; or, if no save was tried, in the first of them.
pub fn down_in<B: Wire, L: Drop, T>(
    mut inputs: Vec<ToldInput<B, L, T>>,
    copies: Vec<NodeInput<B, L>>,
    answers: Option<Vec<Result<(), Refusal>>>,
) -> Phase<B, L, T>
    requires { 1 ≤ length inputs.items }
    ensures all { IfSome answers (λ given. result ≡ DownInTurns inputs copies given) }
    ensures first { answers ≡ None → IsDownInFirst inputs.items result }
    ensures copied { (r : Recording) → AreCopies r inputs.items copies.items → HasCopies r result }
{
    match answers {
        Some(answers) => Phase::DownInTurns(inputs, copies, answers),
        None => Phase::DownInTurn(inputs.remove(0), first_of(copies), false),
    }
}

/// The first event of a restart, if no inputs were saved together: if the node went down in a turn, that turn is part
/// of it, saved if its step was done, or if the store does not hold what the node had in memory.
pub fn first_event<B: Wire, L: Drop, T>(
    phase: Phase<B, L, T>,
    same: bool,
) -> ForRecord<NodeEvent<B, L, T>>
    requires { IsAlone phase }
    ensures told { firsts_of phase same ≡ (result.told.value, Ok tt) ∷ [] }
    ensures kept { (r : Recording) → HasCopies r phase → IsKept r result }
{
    match phase {
        Phase::DownInTurn(input, copy, done) => input.stopped(copy, done || !same),
        Phase::DownInTurns(_, _, _) => unreachable!(),
        Phase::Up | Phase::DownInRestart => ForRecord::of(NodeEvent::Restart),
    }
}
