//! The limits of an input, by number, as the contract of a function that does nothing.
ghost use Rattle.std.specs.Prelude.{◌≡◌};
ghost use Rattle.whole_input.specs.declared.input.TheConstants.{MOST_BYTES, PIECE_LENGTH};

/// How many bytes of an input are read at most, and the most of a piece.
pub fn limits_of_inputs()
    ensures bytes { MOST_BYTES ≡ 67108864 }
    ensures piece { PIECE_LENGTH ≡ 65536 }
{}
