//! Bodies of examples, and the bytes of each.
use std::alloc::AllocError;
use std::test::Fail;

/// A body that comes to buffers.
#[derive(Clone, Copy)]
pub enum Said<'a> {
    /// There is an upstream.
    Up,
    /// A line from upstream, so many seconds after 1,700,000,000, which is 22:13:20.
    Heard(u8, &'a str),
    /// The client 1.1.N attaches by its first request, 1,700,000,000 seconds after 1970.
    Attach(u8),
    /// By its second request it plays the channel `#x`.
    Play(u8),
}

impl<'a> Said<'a> {
    /// Appends the bytes of a body.
    pub fn push(&self, out: &mut Vec<u8>) -> Result<(), Fail> {
        match self {
            Said::Up => Ok(out.extend_from_slice(&[0, 4])?),
            Said::Heard(second, line) => push_heard(out, *second, line.as_bytes()),
            Said::Attach(client) => Ok(push_request(out, *client, 1, b"\x01")?),
            Said::Play(client) => Ok(push_request(out, *client, 2, b"\x08\0\x02#x")?),
        }
    }
}

fn push_heard(out: &mut Vec<u8>, second: u8, line: &[u8]) -> Result<(), Fail> {
    let len = u16::try_from(line.len())?;
    out.extend_from_slice(&[0, 2, 0, 0, 0, 0, 0x65, 0x53, 0xf1, second])?;
    out.extend_from_slice(&len.to_be_bytes())?;
    Ok(out.extend_from_slice(line)?)
}

/// Appends the request of this number of the client 1.1.N, and its action.
fn push_request(
    out: &mut Vec<u8>,
    client: u8,
    number: u8,
    action: &[u8],
) -> Result<(), AllocError> {
    out.extend_from_slice(&[1, 1, 0, 0, 0, 0, 0, 0, 0, 1, 0, 0, 0, 0, 0, 0, 0, client])?;
    out.extend_from_slice(&[0, 0, 0, 0, 0, 0, 0, number])?;
    out.extend_from_slice(&[0, 0, 0, 0, 0x65, 0x53, 0xf1, 0])?;
    out.extend_from_slice(action)
}
