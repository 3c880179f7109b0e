//! Nodes listen while they take clients.
use crate::edge_news::EdgeNews;
use crate::event_loop::LoopFault;
use crate::sockets::Sockets;
use driver::{Driver, Now};
use raft_log::NodeId;
use std::net::Net;

/// What is to be done about a node's address.
enum Change {
    Nothing,
    Listen,
    Refuse,
}

impl Sockets {
    /// A node is down from the start: its address, at which it could have listened, refuses
    /// connections until the node is up.
    pub fn begin_down(&mut self, node: NodeId) {
        if let Some(listening) = self.listeners.get_mut(node.value() as usize - 1) {
            listening.was_open = true;
        }
    }

    /// Each node listens while it takes clients. When a node stops taking them, the clients that
    /// wait get the reason, and then its address refuses connections.
    pub fn follow<N: Net>(
        &mut self,
        net: &N,
        now: &Now,
        driver: &mut Driver,
    ) -> Result<(), LoopFault> {
        for index in 0..7u8 {
            let node = NodeId::new(index + 1);
            match self.change(node, driver.takes_clients(node)) {
                Change::Nothing => {}
                Change::Listen => self.open_address(net, node)?,
                Change::Refuse => {
                    self.accept(now, driver, node)?;
                    self.close_address(node);
                }
            }
        }
        Ok(())
    }

    /// What is to be done about the address of a node, given whether it takes clients.
    fn change(&mut self, node: NodeId, is_open: bool) -> Change {
        let Some(listening) = self.listeners.get_mut(node.value() as usize - 1) else {
            return Change::Nothing;
        };
        if is_open {
            listening.was_open = true;
        }
        match &listening.listener {
            None if is_open => Change::Listen,
            Some(_) if !is_open && listening.was_open => Change::Refuse,
            _ => Change::Nothing,
        }
    }

    /// A node listens at its address again. If it can't, that is logged once, and it is tried again
    /// at the next tick.
    fn open_address<N: Net>(&mut self, net: &N, node: NodeId) -> Result<(), LoopFault> {
        let place = node.value() as usize - 1;
        let Some(listening) = self.listeners.get(place) else {
            return Ok(());
        };
        let opened = self.listener_at(net, place, listening.address);
        let Some(listening) = self.listeners.get_mut(place) else {
            return Ok(());
        };
        match opened {
            Ok(listener) => {
                listening.listener = Some(listener);
                listening.is_deaf = false;
            }
            Err(error) => {
                let is_known = listening.is_deaf;
                listening.is_deaf = true;
                if !is_known {
                    self.tell(EdgeNews::Deaf(node, error))?;
                }
            }
        }
        Ok(())
    }

    /// The address of a node refuses connections.
    fn close_address(&mut self, node: NodeId) {
        if let Some(listening) = self.listeners.get_mut(node.value() as usize - 1) {
            listening.listener = None;
            listening.is_deaf = false;
        }
    }
}
