//! Why no first configuration is written.
ghost use Rattle.std.specs.Prelude.{◌≡◌};
ghost use Rattle.first_config.specs.declared.fault.InitFault.TheVariants.{Memory};

use bouncer_config::ConfigFault;
use std::alloc::AllocError;
use std::io;
use thiserror::Error;

/// Why no first configuration is written, and what to do.
#[derive(Debug, Drop, Error)]
pub enum InitFault {
    #[error("{0} is there already: nothing was changed")]
    IsThere(String),
    #[error("these answers make no configuration: {0}")]
    Refused(ConfigFault),
    #[error("{0}: {1}")]
    System(String, io::Error),
    #[error("the answers can't be read")]
    Unread,
    #[error("an answer is no text in UTF-8")]
    NoText,
    #[error("out of memory")]
    Memory,
}

impl From<AllocError> for InitFault {
    ghost from_gives = { λ _ e. e ≡ Memory };

    fn from(_error: AllocError) -> Self {
        InitFault::Memory
    }
}
