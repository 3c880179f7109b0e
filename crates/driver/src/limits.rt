//! The limits of the driver, by number, as contracts of functions that do nothing.
ghost use Rattle.driver.specs.Limits.{LimitsOfClients, LimitsOfGuesses, LimitsOfNodes, LimitsOfTheLog, LimitsOfTheServer};

/// What a client gets: time to register, to say something and to leave, and room for its requests.
pub fn limits_of_clients()
    ensures { LimitsOfClients }
{}

/// What someone who guesses the password gets.
pub fn limits_of_guesses()
    ensures { LimitsOfGuesses }
{}

/// What a node gets: time to answer and to start again, and room for its notes.
pub fn limits_of_nodes()
    ensures { LimitsOfNodes }
{}

/// What the server gets: time to answer and to close, waits before the next try, and room for what goes to it.
pub fn limits_of_the_server()
    ensures { LimitsOfTheServer }
{}

/// The levels of the log at which people get a notice.
pub fn limits_of_the_log()
    ensures { LimitsOfTheLog }
{}
