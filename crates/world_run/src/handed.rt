//! The lines that are handed upstream.
ghost use Rattle.std.specs.Prelude.{◌≡◌, ◌++◌, IfOk, OnOk, map};
ghost use Rattle.world_run.specs.Handing.{IsHandedOf, handed_in, hands_by};

use crate::outcome::Outcome;
use crate::world::World;
use irc_line::Line;
use machine_laws::{Class, Hosted};
use raft_node::Described;
use std::alloc::{AllocError, Global};

impl<M: Hosted> World<M> {
    /// The lines that were handed upstream, by all nodes and all their runs, each with its number, in the order of the
    /// events. For a world that does not come from events this still says what came out.
    pub fn handed(&self, alloc: Global) -> Result<Vec<(u64, &Line)>, AllocError>
        ensures outs { IfOk result (λ v. map (λ h. (h.0, h.1.now)) v.items
            ≡ handed_in M.class self.now.outs) }
        ensures handed { IfOk result (λ v. (setup : M.Setup) → IsHandedOf
            (⟦<M as Described>⟧.machine setup) self.now (map (λ h. (h.0, h.1.now)) v.items)) }
    {
        let mut lines = Vec::new(alloc);
        for outcome in self.outputs() {
            if let Outcome::Left { effects, .. } = outcome {
                push_handed::<M>(&mut lines, effects)?;
            }
        }
        Ok(lines)
    }
}

/// Appends those of these effects that are handed upstream.
fn push_handed<'a, M: Hosted>(
    lines: &mut Vec<(u64, &'a Line)>,
    effects: &'a [M::Effect],
) -> Result<(), AllocError>
    ensures { OnOk result (map (λ h. (h.0, h.1.now)) lines.new.items ≡
        map (λ h. (h.0, h.1.now)) lines.old.items ++ hands_by M.class effects.now) }
{
    for effect in effects {
        if let Class::Hand(_, number, line) = M::class(effect) {
            lines.push((number, line))?;
        }
    }
    Ok(())
}
