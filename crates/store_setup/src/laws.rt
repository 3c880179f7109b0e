//! The laws of the file of a store's setup.
ghost use Rattle.std.specs.Prelude.{◌≡◌, ℕ, List, Ok};
ghost use Rattle.wire_bytes.specs.Fields.{AreBytes};
ghost use Rattle.store_setup.specs.Files.{FitsStore, spelling, stored};
ghost use Rattle.store_setup.specs.declared.store_setup.StoreSetup.{StoreSetup};

/// What is spelled is read back, and what is read is spelled so, byte by byte: no other bytes are read.
#[tactic(auto, using(crate::proofs::RoundTrip::read_back))]
pub fn what_is_spelled_is_read()
    ensures back { (s : StoreSetup) → FitsStore s → stored (spelling s) ≡ Ok s }
    ensures one { (bytes : List ℕ) (s : StoreSetup) → AreBytes bytes → stored bytes ≡ Ok s
        → FitsStore s × (bytes ≡ spelling s) }
{}
