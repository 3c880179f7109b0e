ghost use Rattle.std.specs.Prelude.{◌≡◌};
ghost use Rattle.client_gate.specs.Gates.{given_reply, nothing};
ghost use Rattle.client_gate.specs.Answers.{given_in};

use crate::request::Request;
use crate::status_word::StatusWord;
use std::alloc::Global;

/// What a call answers.
#[derive(Drop)]
pub struct Fed {
    /// The requests that it numbered, in order.
    pub requests: Vec<Request>,
    /// The bytes that go to the client: lines, each with its CR LF.
    pub reply: Vec<u8>,
    /// What the client said to the bouncer that made no request to the buffers, in order. The reply says that no such
    /// command is known.
    pub words: Vec<StatusWord>,
    /// Whether the connection is to be closed after these bytes.
    pub close: bool,
}

impl Fed {
    /// The answer without requests and bytes; it allocates nothing.
    pub(crate) fn nothing(alloc: Global) -> Fed
        ensures { given_in result ≡ nothing }
    {
        Fed {
            requests: Vec::new(alloc),
            reply: Vec::new(alloc),
            words: Vec::new(alloc),
            close: false,
        }
    }

    /// The answer that consists of these bytes.
    pub(crate) fn of_reply(alloc: Global, reply: Vec<u8>) -> Fed
        ensures { given_in result ≡ given_reply reply.items }
    {
        Fed {
            requests: Vec::new(alloc),
            reply,
            words: Vec::new(alloc),
            close: false,
        }
    }
}
