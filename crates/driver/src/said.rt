//! What was ordered, for clauses only.
ghost use Rattle.std.specs.Prelude.{◌≡◌, ◌++◌, ◌∷◌, []};
ghost use Rattle.driver.specs.declared.order.Order.TheVariants.{Write};
ghost use Rattle.driver.specs.Deeds.{said_in};

use crate::order::Order;
use std::snapshot::Snapshot;

/// Orders, in the order in which they were given. They do not exist at run time.
#[derive(Drop)]
pub enum Said {
    Nothing,
    /// A client is written this, after what was ordered before.
    Written(u64, Snapshot<Vec<u8>>, Snapshot<Said>),
    /// Another order, after what was ordered before.
    Other(Snapshot<Order>, Snapshot<Said>),
}

impl Said {
    /// Nothing was ordered.
    pub fn nothing() -> Snapshot<Said>
        ensures { said_in result.value ≡ [] }
    {
        Snapshot::of(&Said::Nothing)
    }

    /// Adds a write to a client.
    pub fn written(past: Snapshot<Said>, client: u64, bytes: Snapshot<Vec<u8>>) -> Snapshot<Said>
        ensures { said_in result.value ≡ said_in past.value ++ Write client bytes.value ∷ [] }
    {
        Snapshot::of(&Said::Written(client, bytes, past))
    }

    /// Adds another order.
    pub fn other(past: Snapshot<Said>, order: Snapshot<Order>) -> Snapshot<Said>
        ensures { said_in result.value ≡ said_in past.value ++ order.value ∷ [] }
    {
        Snapshot::of(&Said::Other(order, past))
    }
}
