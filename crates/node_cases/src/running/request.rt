//! What clients ask for.
use raft_log::NodeId;
use std::alloc::{AllocError, Global};

/// The requests of a client, the first first.
#[derive(Clone, Copy, Debug, PartialEq, Eq)]
pub enum Request {
    Attach,
    /// It detaches from `#x`.
    Detach,
    /// It says `hi` to `#x`.
    Say,
}

impl Request {
    /// All of them, the first first.
    pub const ALL: &'static [Request] = &[Request::Attach, Request::Detach, Request::Say];

    /// From 1 on.
    pub fn number(self) -> u8 {
        match self {
            Request::Attach => 1,
            Request::Detach => 2,
            Request::Say => 3,
        }
    }

    /// The bytes of the request of the client 1 of the first run of a node.
    pub fn spelled(self, alloc: Global, node: NodeId) -> Result<Vec<u8>, AllocError> {
        self.at(alloc, node, self.number())
    }

    /// The same, with another number.
    fn at(self, alloc: Global, node: NodeId, number: u8) -> Result<Vec<u8>, AllocError> {
        let mut bytes = Vec::from_slice(alloc, b"\x01")?;
        bytes.push(node.value())?;
        bytes.extend_from_slice(b"\0\0\0\0\0\0\0\x01\0\0\0\0\0\0\0\x01\0\0\0\0\0\0\0")?;
        bytes.push(number)?;
        bytes.extend_from_slice(b"\0\0\0\0\x65\x53\xf1\0")?;
        match self {
            Request::Attach => bytes.extend_from_slice(b"\x01")?,
            Request::Detach => bytes.extend_from_slice(b"\x06\0\x02#x")?,
            Request::Say => bytes.extend_from_slice(b"\x03\0\0\x02#x\0\x02hi")?,
        }
        Ok(bytes)
    }
}

/// The bytes of the client's request of this number: the first attaches, and each further one says a
/// line.
pub fn numbered(alloc: Global, node: NodeId, number: u8) -> Result<Vec<u8>, AllocError> {
    let request = if number == 1 {
        Request::Attach
    } else {
        Request::Say
    };
    request.at(alloc, node, number)
}
