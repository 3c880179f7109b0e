//! The driver's orders are carried out.
ghost use Rattle.std.specs.Prelude.{◌≡◌, ◌∷◌, [], OnOk};
ghost use Rattle.bouncer_run.specs.Deliveries.{AreDone};
ghost use Rattle.bouncer_run.specs.Responses.{HearsAll, HearsOf, IsCarriedOut};
ghost use Rattle.bouncer_run.specs.Sendings.{IsSent};
ghost use Rattle.bouncer_run.specs.Submissions.{AreTold, note_in, notes_in};

use crate::event_loop::{LoopFault, Nodes};
use crate::loop_news::tell_news;
use crate::operator::Operator;
use crate::sockets::Sockets;
use driver::{Driver, Now, Order, TowerNote};
use raft_log::NodeId;
use std::net::Net;
use std::sync::Wait;

/// Does what the driver orders until it orders nothing more; then what waits at the sockets is
/// written.
pub fn carry_out_all<R: Net + Wait, N: Nodes, O: Operator>(
    rt: &R,
    now: &Now,
    driver: &mut Driver,
    sockets: &mut Sockets,
    nodes: &mut N,
    operator: &mut O,
) -> Result<(), LoopFault> {
    for _ in 0..u64::MAX {
        if !carry_out_ordered(rt, now, driver, sockets, nodes, operator)?
            && !sockets.flush_all(now, driver)?
        {
            break;
        }
    }
    Ok(())
}

/// Does what the driver has ordered, in order. Returns whether there was anything.
fn carry_out_ordered<R: Net + Wait, N: Nodes, O: Operator>(
    rt: &R,
    now: &Now,
    driver: &mut Driver,
    sockets: &mut Sockets,
    nodes: &mut N,
    operator: &mut O,
) -> Result<bool, LoopFault>
    ensures clients { OnOk result (AreDone driver.old.orders.items sockets.old sockets.new) }
    ensures server { OnOk result
        (IsSent driver.old.orders.items sockets.old.server sockets.new.server) }
    ensures notes { OnOk result
        (AreTold N.has_told (notes_in driver.old.orders.items) nodes.old nodes.new) }
    ensures heard { OnOk result
        (IsCarriedOut now.now sockets.old sockets.new driver.old driver.new) }
{
    let orders = driver.orders();
    let any = !orders.is_empty();
    carry_out_each(rt, now, driver, sockets, nodes, operator, orders)?;
    Ok(any)
}

/// Does these orders, in order.
fn carry_out_each<R: Net + Wait, N: Nodes, O: Operator>(
    rt: &R,
    now: &Now,
    driver: &mut Driver,
    sockets: &mut Sockets,
    nodes: &mut N,
    operator: &mut O,
    orders: Vec<Order>,
) -> Result<(), LoopFault>
    ensures clients { OnOk result (AreDone orders.items sockets.old sockets.new) }
    ensures server { OnOk result (IsSent orders.items sockets.old.server sockets.new.server) }
    ensures notes { OnOk result (AreTold N.has_told (notes_in orders.items) nodes.old nodes.new) }
    ensures heard { OnOk result
        (HearsAll now.now orders.items sockets.old sockets.new driver.old driver.new) }
{
    for order in orders {
        carry_out(rt, now, driver, sockets, nodes, operator, order)?;
    }
    Ok(())
}

/// Does what the driver orders.
fn carry_out<R: Net + Wait, N: Nodes, O: Operator>(
    rt: &R,
    now: &Now,
    driver: &mut Driver,
    sockets: &mut Sockets,
    nodes: &mut N,
    operator: &mut O,
    order: Order,
) -> Result<(), LoopFault>
    ensures clients { OnOk result (AreDone (order ∷ []) sockets.old sockets.new) }
    ensures server { OnOk result (IsSent (order ∷ []) sockets.old.server sockets.new.server) }
    ensures notes { OnOk result (AreTold N.has_told (note_in order) nodes.old nodes.new) }
    ensures heard { OnOk result
        (HearsOf now.now order sockets.old sockets.new driver.old driver.new) }
{
    match order {
        Order::Submit(node, note) => submit(rt, nodes, node, note),
        Order::Write(number, bytes) => sockets.write(now, driver, number, bytes.as_slice()),
        Order::Close(number) => {
            sockets.close(now, number);
            Ok(())
        }
        Order::Connect => sockets.reach(rt, now, driver),
        Order::Send(bytes) => sockets.send(now, driver, bytes.as_slice()),
        Order::Disconnect => {
            sockets.disconnect(now);
            Ok(())
        }
        Order::Log(news) => tell_news(now, driver, sockets, operator, news),
    }
}

/// Sends this to a node's worker.
fn submit<R: Wait, N: Nodes>(
    rt: &R,
    nodes: &mut N,
    node: NodeId,
    note: TowerNote,
) -> Result<(), LoopFault>
    ensures told { OnOk result (N.has_told nodes.old node note nodes.new) }
{
    if !nodes.tell(rt, node, note) {
        return Err(LoopFault::Memory);
    }
    Ok(())
}
