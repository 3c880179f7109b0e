//! The limit of a password, as a number, as the contract of a function that does nothing.
ghost use Rattle.std.specs.Prelude.{◌≡◌};
ghost use Rattle.bouncer_config.specs.declared.password.TheConstants.{PASSWORD_LIMIT};

/// How many bytes a password may have.
pub fn limit_of_passwords()
    ensures { PASSWORD_LIMIT ≡ 64 }
{}
