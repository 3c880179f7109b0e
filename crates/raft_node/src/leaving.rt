//! Which effects leave a node.
ghost use Rattle.std.specs.Prelude.{◌≡◌, filter};
ghost use Rattle.raft_node.specs.Steps.{is_session, leaves};

use irc_line::Line;
use machine_laws::{Class, Hosted};
use raft_log::{Live, NodeId};
use wire_bytes::{Number, SessionId};

/// Those of the effects that leave the node of this number in this run, in order. Needs no memory.
pub fn leaving<M: Hosted>(
    id: NodeId,
    boot: Number,
    live: Option<Live>,
    mut effects: Vec<M::Effect>,
) -> Vec<M::Effect>
    ensures { result.items ≡ filter (λ e. leaves id boot live (M.class e)) effects.items }
{
    effects.retain(|effect| leaves::<M>(id, boot, live, effect));
    effects
}

/// What goes to a client leaves at the client's node, in its run; what goes upstream leaves where
/// its session is live.
fn leaves<M: Hosted>(id: NodeId, boot: Number, live: Option<Live>, effect: &M::Effect) -> bool
    ensures { result ≡ leaves id boot live (M.class effect.now) }
{
    match M::class(effect) {
        Class::To(origin) => origin.node() == id.value() && origin.boot() == boot.value(),
        Class::Hand(session, _, _) => is_session(live, session),
        Class::Rejoin(session, _) => is_session(live, session),
        Class::Nowhere => false,
    }
}

/// Whether the live session, if any, has this id.
fn is_session(live: Option<Live>, session: SessionId) -> bool
    ensures { result ≡ is_session live session }
{
    match live {
        None => false,
        Some(live) => live.id == session,
    }
}
