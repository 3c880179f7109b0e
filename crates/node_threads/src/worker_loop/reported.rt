//! What a report says of a turn.
ghost use Rattle.std.specs.Prelude.{◌≡◌};
ghost use Rattle.node_threads.specs.Rounds.{is_handed, reported};

use machine_laws::{Class, Hosted};

/// The effects of a turn that a report gives, in order: all but what was handed out upstream, since its upstream has
/// got that. Needs no memory.
pub fn reported<M: Hosted>(mut effects: Vec<M::Effect>) -> Vec<M::Effect>
    ensures { result.items ≡ reported M.class effects.items }
{
    effects.retain(|effect| !is_handed::<M>(effect));
    effects
}

/// Whether an effect is handed out upstream.
fn is_handed<M: Hosted>(effect: &M::Effect) -> bool
    ensures { result ≡ is_handed (M.class effect.now) }
{
    matches!(M::class(effect), Class::Hand(_, _, _))
}
