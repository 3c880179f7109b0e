//! What goes upstream.
ghost use Rattle.std.specs.Prelude.{◌≡◌};
ghost use Rattle.node_cells.specs.Upstreams.{HandsOut};
ghost use Rattle.world_run.specs.World.{hands, hand_of};

use crate::upstream::Upstream;
use machine_laws::{Class, Hosted};
use raft_node::Described;

/// Hands out each line among the effects, in order, and once. A failed one is not tried again.
pub fn hand_all<M: Hosted, U: Upstream>(upstream: &mut U, effects: &[M::Effect])
    ensures { (s : M.Setup) → HandsOut (hands (⟦<M as Described>⟧.machine s) effects.now)
        (U.tally upstream.old) (U.tally upstream.new) }
{
    for effect in effects {
        hand::<M, U>(upstream, effect);
    }
}

/// Hands out the line of an effect, if it has one to hand out.
fn hand<M: Hosted, U: Upstream>(upstream: &mut U, effect: &M::Effect)
    ensures { (s : M.Setup) → HandsOut (hand_of (⟦<M as Described>⟧.machine s) effect.now)
        (U.tally upstream.old) (U.tally upstream.new) }
{
    if let Class::Hand(_, number, line) = M::class(effect) {
        // the upstream counts failures
        let _outcome = upstream.hand(number, line);
    }
}
