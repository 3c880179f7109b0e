//! What each kind of step says. These types are for the proofs only.
ghost use Rattle.ether.specs.Plays.{both, bank_after, counted, dealt, first_part, glanced, met, opens_seat, posted, rest_part, taken};
ghost use Rattle.ether.specs.Rule.{spent};

use crate::known::Known;
use atomic_table::{Join, Play, Split};
use std::marker::{Brand, PhantomData};
use wire_bytes::Wire;
use world_views::Envelope;

/// What a step does, over what seats know. A call at `Brand` picks it.
pub trait Step<V> {
    ghost use Rattle.std.specs.Prelude.{ℕ};

    /// What a seat knows after the step, which found this number.
    ghost becomes: { ℕ → V → V };

    /// The sender whose mailbox is looked at.
    ghost from: { ℕ };

    /// What is learnt by it about what the seat knows.
    ghost fact: { V → Type 0 };
}

impl<V> Step<V> for Brand {
    ghost becomes = { λ _ v. v };

    ghost from = { 0 };

    ghost fact = { λ _. Unit {0} };
}

pub(crate) struct Opens<W> {
    of: PhantomData<W>,
}

impl<B: Wire, L, T, W: Step<Known<B, L, T>>> Play<Option<Envelope<B>>, Known<B, L, T>>
    for Opens<W> {
    ghost then = { opens_seat W.becomes };
}

pub(crate) struct Ticks<W> {
    of: PhantomData<W>,
}

impl<B: Wire, L, T, W: Step<Known<B, L, T>>> Play<Option<Envelope<B>>, Known<B, L, T>>
    for Ticks<W> {
    ghost then = { counted W.becomes };
}

pub(crate) struct Posts;

impl<B: Wire, L, T> Play<Option<Envelope<B>>, Known<B, L, T>> for Posts {
    ghost then = { posted };
}

/// A load that shows whether a message is in a mailbox.
pub(crate) struct Glances;

impl<B: Wire, L, T> Play<Option<Envelope<B>>, Known<B, L, T>> for Glances {
    ghost then = { glanced };
}

pub(crate) struct Takes<W> {
    of: PhantomData<W>,
}

impl<B: Wire, L, T, W: Step<Known<B, L, T>>> Play<Option<Envelope<B>>, Known<B, L, T>>
    for Takes<W> {
    ghost then = { taken W.from };
}

pub(crate) struct Meets<W> {
    of: PhantomData<W>,
}

impl<B: Wire, L, T, W: Step<Known<B, L, T>>> Play<Option<Envelope<B>>, Known<B, L, T>>
    for Meets<W> {
    ghost then = { met W.fact };
}

/// The dealer's seat becomes the next node's, and the new seat deals on.
pub(crate) struct Deals;

impl<B, L, T> Split<Known<B, L, T>> for Deals {
    ghost left = { λ v. first_part 1 (dealt v.spare) v };

    ghost right = { λ v. rest_part 1 (bank_after v.spare) v };
}

/// A seat hands out all its views, and keeps its slot.
pub(crate) struct Lends;

impl<B, L, T> Split<Known<B, L, T>> for Lends {
    ghost use Rattle.ether.specs.Plays.{first_part, rest_part};
    ghost use Rattle.ether.specs.Rule.Spare.{Gone};

    ghost left = { λ v. first_part 0 v.spare v };

    ghost right = { λ v. rest_part 0 Gone v };
}

/// A seat hands out all but its first view.
pub(crate) struct Returns;

impl<B, L, T> Split<Known<B, L, T>> for Returns {
    ghost use Rattle.ether.specs.Plays.{first_part, rest_part};
    ghost use Rattle.ether.specs.Rule.Spare.{Gone};

    ghost left = { λ v. first_part 1 v.spare v };

    ghost right = { λ v. rest_part 1 Gone v };
}

/// A seat takes in what another knows.
pub(crate) struct Joins;

impl<B, L, T> Join<Known<B, L, T>> for Joins {
    ghost both = { both };

    ghost spent = { spent };
}
