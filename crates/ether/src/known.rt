//! What a seat knows.
use std::marker::{Model, PhantomData};

/// What a seat at the table knows, for the proof only. No value of it is made.
pub struct Known<B, L, T> {
    of: PhantomData<(B, L, T)>,
}

impl<B, L, T> Model for Known<B, L, T> {
    ghost use Rattle.ether.specs.Rule as rule;
    ghost use Rattle.ether.specs.Rule.{spent};

    ghost Value = { rule.Known B L T };

    ghost view = { λ _. spent };
}
