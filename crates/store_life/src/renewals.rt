//! What a renewal writes, in the life of a store.
ghost use Rattle.store_life.specs.Renewals.{RenewedFollows, RenewedIsAnew};

/// What a renewal writes may be begun anew in the new group: so bouncers that run over it keep all promises.
pub fn what_is_renewed_is_begun_anew()
    ensures { RenewedIsAnew }
{}

/// A period that begins with a renewal of the log that was chosen at the end of another follows that one: so in a life of
/// such periods no line is handed upstream twice.
pub fn what_is_renewed_goes_on()
    ensures { RenewedFollows }
{}
