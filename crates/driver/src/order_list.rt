//! Orders, with consecutive writes to one client merged into one.
ghost use Rattle.std.specs.Prelude.{◌≡◌, ◌≤◌, ◌+◌, ◌++◌, ◌∷◌, [], true, IfSome, None, Some, OnErr, OnOk, map};
ghost use Rattle.std.specs.Vec.{vec_capacity, vec_len};
ghost use Rattle.driver.specs.Deeds.{Byte, are_merged, are_two, deeds, write_of, written_by, written_last};

use crate::order::Order;
use std::alloc::{AllocError, Global};
use std::marker::Model;
use std::mem::replace;

/// What one order writes to the client of this number.
#[derive(Drop)]
pub struct Writing {
    client: u64,
    bytes: Vec<u8>,
}

/// Orders, in turn.
///
/// A clause sees them as a list.
#[derive(Drop)]
pub struct OrderList {
    /// All except the last if that is a write.
    list: Vec<Order>,
    /// The last, if that is a write: the list has room for it.
    last: Option<Writing>,
}

impl Model for OrderList {
    ghost use Rattle.std.specs.Prelude.{◌≡◌, ◌≤◌, ◌+◌, ◌++◌, true, List, None, IfSome};
    ghost use Rattle.driver.specs.declared.order.Order.{Order};
    ghost use Rattle.driver.specs.Deeds.{are_merged, is_last_apart, write_of, written_last};

    ghost Value = { List Order };

    ghost view = { λ o. o.list.items ++ write_of o.last };

    ghost invariant = { λ o. IfSome o.last (λ writing. o.list.len + 1 ≤ o.list.cap)
        × (is_last_apart o.last (written_last None o.list.items) ≡ true)
        × (are_merged (o.list.items ++ write_of o.last) ≡ true) };
}

impl OrderList {
    /// No orders.
    pub fn new(alloc: Global) -> OrderList
        ensures { result ≡ [] }
    {
        OrderList {
            list: Vec::new(alloc),
            last: None,
        }
    }

    /// Adds an order that writes to no client.
    pub fn push(&mut self, order: Order) -> Result<(), AllocError>
        requires { written_by order ≡ None }
        ensures ok { OnOk result (self.new ≡ self.old ++ order ∷ []) }
        ensures err { OnErr result (self.new ≡ self.old) }
    {
        // for the write that is held apart, and for this order
        self.list.reserve(2)?;
        settle(&mut self.list, &mut self.last);
        self.list.push_reserved(order);
        Ok(())
    }

    /// Bytes go to a client, after those of the last order if that writes to the same client.
    pub fn write(&mut self, client: u64, bytes: Vec<u8>) -> Result<(), AllocError>
        ensures ok { OnOk result
            (deeds self.new ≡ deeds self.old ++ map (Byte client) bytes.items) }
        ensures err { OnErr result (deeds self.new ≡ deeds self.old) }
    {
        match &mut self.last {
            Some(writing) => {
                if writing.client == client {
                    return writing.bytes.extend_from_slice(bytes.as_slice());
                }
            }
            None => {}
        }
        self.begin_writing(client, bytes)
    }

    /// Bytes go to a client, by an order of its own.
    fn begin_writing(&mut self, client: u64, bytes: Vec<u8>) -> Result<(), AllocError>
        requires { are_two (written_last None self.old) (Some client) ≡ true }
        ensures ok { OnOk result
            (deeds self.new ≡ deeds self.old ++ map (Byte client) bytes.items) }
        ensures err { OnErr result (self.new ≡ self.old) }
    {
        // for the write that is held apart, and for this one, which is held apart next
        self.list.reserve(2)?;
        settle(&mut self.list, &mut self.last);
        self.last = Some(Writing { client, bytes });
        Ok(())
    }

    /// All of them, leaving none.
    pub fn take(&mut self, alloc: Global) -> Vec<Order>
        ensures given { result.items ≡ self.old }
        ensures left { self.new ≡ [] }
        ensures settled { are_merged result.items ≡ true }
    {
        settle(&mut self.list, &mut self.last);
        replace(&mut self.list, Vec::new(alloc))
    }
}

/// The last order follows the others, if it is a write.
fn settle(list: &mut Vec<Order>, last: &mut Option<Writing>)
    requires room { IfSome last.old (λ writing. vec_len list.old + 1 ≤ vec_capacity list.old) }
    ensures settled { list.new.items ≡ list.old.items ++ write_of last.old }
    ensures len { vec_len list.new ≤ vec_len list.old + 1 }
    ensures capacity { vec_capacity list.new ≡ vec_capacity list.old }
    ensures none { last.new ≡ None }
{
    if let Some(Writing { client, bytes }) = replace(last, None) {
        list.push_reserved(Order::Write(client, bytes));
    }
}
