//! The limits of the loop and of connections, by number, as contracts of functions that do nothing.
ghost use Rattle.bouncer_run.specs.Limits.{LimitsOfConnections, LimitsOfTheLoop};

/// What a connection is given: room, and time to be read and closed.
pub fn limits_of_connections()
    ensures { LimitsOfConnections }
{}

/// What the loop is given: how often it looks at what, and how long it goes on at the end.
pub fn limits_of_the_loop()
    ensures { LimitsOfTheLoop }
{}
