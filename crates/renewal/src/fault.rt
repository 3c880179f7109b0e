//! Why a list is not renewed.
ghost use Rattle.std.specs.Prelude.{◌≡◌, ◌≢◌};

use std::alloc::AllocError;
use thiserror::Error;

/// Why a list is not renewed. The old list is as it was.
#[derive(Clone, Copy, Debug, Drop, PartialEq, Eq, Error)]
pub enum RenewalFault {
    /// The new list would not lead to the same.
    #[error("the new log would not be the same: nothing was changed; keep the folder, and report it")]
    NotTheSame,
    /// The new list would have too many bodies.
    #[error("the new log would be too long: nothing was changed; keep the folder, and report it")]
    TooLong,
    /// No client has a name that is to be forgotten.
    #[error("no client has that name: nothing was changed; 'bouncer check' lists the names of clients")]
    UnknownName,
    /// A channel keeps a line that a client said and that is longer than one from upstream. It can't be kept in a
    /// channel that clients are shown, if playing empties channels and no client has a name.
    #[error("a channel keeps a line too long for this change: nothing was changed; leave auto_clear_chan_buffer and the names of clients as they are, or clear that channel first")]
    LongLine,
    /// Numbers would pass their limit.
    #[error("no numbers are left: nothing was changed")]
    Spent,
    /// There was no memory.
    #[error("out of memory")]
    Memory,
}

impl From<AllocError> for RenewalFault {
    ghost use Rattle.renewal.specs.declared.fault.RenewalFault.TheVariants.{Memory};

    ghost from_gives = { λ _ e. e ≡ Memory };

    fn from(_error: AllocError) -> Self {
        RenewalFault::Memory
    }
}

/// Why no list is proposed.
#[derive(Clone, Copy, Debug, Drop, PartialEq, Eq)]
pub enum ProposalFault {
    /// No list was found that leads to what is held.
    NotTheSame,
    LongLine,
    Spent,
    Memory,
}

impl From<AllocError> for ProposalFault {
    ghost use Rattle.renewal.specs.declared.fault.ProposalFault.TheVariants.{Memory};

    ghost from_gives = { λ _ e. e ≡ Memory };

    fn from(_error: AllocError) -> Self {
        ProposalFault::Memory
    }
}

impl From<ProposalFault> for RenewalFault {
    ghost use Rattle.renewal.specs.declared.fault.RenewalFault.TheVariants.{UnknownName};

    ghost from_gives = { λ _ e. e ≢ UnknownName };

    fn from(fault: ProposalFault) -> Self {
        match fault {
            ProposalFault::NotTheSame => RenewalFault::NotTheSame,
            ProposalFault::LongLine => RenewalFault::LongLine,
            ProposalFault::Spent => RenewalFault::Spent,
            ProposalFault::Memory => RenewalFault::Memory,
        }
    }
}
