//! A store for tests, whose device fails after so many saves.
use raft_log::Log;
use stable_store::{Change, Saved, Stable, StoreFault};
use std::alloc::Global;
use wire_bytes::Number;

/// It holds nothing, and is not honest.
#[derive(Drop)]
pub struct Failing {
    pub alloc: Global,
    /// How many saves are answered Ok.
    pub left: u8,
}

impl Stable<u8> for Failing {
    ghost use Rattle.std.specs.Prelude.{◌≡◌, false};
    ghost use Rattle.stable_store.specs.Stores.{nothing_saved};

    ghost saved = { λ _. nothing_saved };

    ghost may_stand = { λ _ v. v ≡ nothing_saved };

    ghost condition = { λ _. record { honest = false; broken = false; failures = 0 } };

    fn read(&self) -> Result<Saved<u8>, StoreFault> {
        Ok(Saved {
            boot: Number::new(0),
            term: Number::new(0),
            vote: None,
            log: Log::new(self.alloc),
        })
    }

    fn save(&mut self, _change: &Change<u8>) -> Result<(), StoreFault> {
        if self.left == 0 {
            return Err(StoreFault::Device);
        }
        self.left -= 1;
        Ok(())
    }

    fn again(&mut self) -> Result<(), StoreFault> {
        Ok(())
    }

    fn failures(&self) -> u64 {
        0
    }

    ghost sure = { λ s v c. (λ e. e, λ e. e) };
}
