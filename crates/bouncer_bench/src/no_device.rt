//! A store with no device.
use raft_log::Log;
use stable_store::{Change, Saved, Stable, StoreFault};
use std::alloc::Global;
use wire_bytes::Number;

/// It holds nothing and claims nothing, so that its node may post a message that it never sent.
#[derive(Drop)]
pub struct NoDevice {
    alloc: Global,
}

impl NoDevice {
    pub fn new(alloc: Global) -> NoDevice {
        NoDevice { alloc }
    }
}

impl Stable<u8> for NoDevice {
    ghost use Rattle.std.specs.Prelude.{◌≡◌, false};
    ghost use Rattle.stable_store.specs.Stores.{nothing_saved};

    ghost saved = { λ _. nothing_saved };

    ghost may_stand = { λ _ v. v ≡ nothing_saved };

    ghost condition = { λ _. record { honest = false; broken = false; failures = 0 } };

    fn read(&self) -> Result<Saved<u8>, StoreFault> {
        Ok(Saved {
            boot: Number::new(0),
            term: Number::new(0),
            vote: None,
            log: Log::new(self.alloc),
        })
    }

    fn save(&mut self, _change: &Change<u8>) -> Result<(), StoreFault> {
        Ok(())
    }

    fn again(&mut self) -> Result<(), StoreFault> {
        Ok(())
    }

    fn failures(&self) -> u64 {
        0
    }

    ghost sure = { λ s v c. (λ e. e, λ e. e) };
}
