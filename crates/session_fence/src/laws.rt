//! Each line of a session is heard once and in order.
ghost use Rattle.std.specs.Prelude.{◌≡◌, ◌≢◌, ◌+◌, [], ℕ, false};
ghost use Rattle.machine_laws.specs.Runs.{History};
ghost use Rattle.machine_laws.specs.Sessions.{is_that};
ghost use Rattle.wire_bytes.specs.declared.session_id.SessionId.{SessionId};
ghost use Rattle.session_fence.specs.Sessions.{commands, lines_taken, numbers_taken, numbers_to, session};

use crate::command::FenceCommand;
use machine_laws::HasLines;

/// The lines of a session that were taken have the numbers from 1 on, in the order in which they came, each once. One
/// that is not the next of its session, or whose session is not in force, gives the machine below nothing.
#[tactic(auto, using(crate::proofs::Hearing::taken_in_order, crate::proofs::Hearing::not_next_gives_nothing, crate::proofs::Hearing::not_now_gives_nothing))]
pub fn each_line_is_heard_once_and_in_order<M: HasLines>()
    ensures in_order { (h : History (FenceCommand M.Command M.Line)) (id : SessionId)
        → numbers_taken h id ≡ numbers_to (lines_taken h id) }
    ensures not_next { (h : History (FenceCommand M.Command M.Line)) (id : SessionId) (n at : ℕ)
        (line : M.Line)
        → n ≢ lines_taken h id + 1
        → commands M.up M.down M.heard h (FenceCommand.Heard id n at line) ≡ [] }
    ensures not_now { (h : History (FenceCommand M.Command M.Line)) (id : SessionId) (n at : ℕ)
        (line : M.Line)
        → is_that (session h) id ≡ false
        → commands M.up M.down M.heard h (FenceCommand.Heard id n at line) ≡ [] }
{}
