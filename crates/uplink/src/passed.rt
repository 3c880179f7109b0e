use crate::UplinkInput;
use std::alloc::Global;

/// What bytes from the upstream server bring.
#[derive(Drop)]
pub struct Passed {
    /// For the node, in order.
    pub inputs: Vec<UplinkInput>,
    /// Bytes for the server.
    pub reply: Vec<u8>,
}

impl Passed {
    ghost use Rattle.std.specs.Prelude.{◌≡◌, []};

    pub(crate) fn nothing(alloc: Global) -> Passed
        ensures inputs { result.inputs.items ≡ [] }
        ensures reply { result.reply.items ≡ [] }
    {
        Passed {
            inputs: Vec::new(alloc),
            reply: Vec::new(alloc),
        }
    }
}
