//! What each node gets in time, as contracts of functions that do nothing: as long as time passes, and however nodes
//! report, they get the notes that the group needs to go on.
ghost use Rattle.driver.specs.Lost.{AsksAgain, OthersAreNotLost};
ghost use Rattle.driver.specs.Schedule.{BeatsBehindReports, BeatsInTime, ClaimsInTime};
ghost use Rattle.driver.specs.Schedule.{NewClaimsInTime, RestartsInTime, VotesInTicks, VotesInTime};

/// Over every list of calls of a driver as time goes on: a node that is down is started again within a minute, or a
/// timeout if that is longer, however often it failed before.
pub fn nodes_start_again_in_time()
    ensures { RestartsInTime }
{}

/// Over every list of calls of a driver as time goes on: a node that leads, and has done all its notes, or reports
/// meanwhile that it did all earlier ones, is asked to send once the time of a beat has passed.
pub fn leaders_are_heard_in_time()
    ensures done { BeatsInTime }
    ensures reported { BeatsBehindReports }
{}

/// Over every list of calls of a driver as time goes on: a node that hears of no leader is asked for an election once
/// its wait has passed, a timeout and 50 ms for each node up to it; of the time between two moments at which the driver
/// ran, at most half a timeout counts. So this takes at most as many ticks, each a millisecond after the one before.
pub fn votes_are_asked_for_in_time()
    ensures silence { VotesInTime }
    ensures ticks { VotesInTicks }
{}

/// As time passes, for the leader of the greatest term, as far as is known, whatever the state of the connection to the
/// server: a line that was not claimed, and could go out at once, is claimed at once. A claim is repeated a timeout
/// later, if the node reported meanwhile that it did all earlier notes and has applied all of its log.
pub fn lines_are_claimed_in_time()
    ensures first { NewClaimsInTime }
    ensures again { ClaimsInTime }
{}

/// Whatever happens to a client after a report by which its requests may be lost: each waiting request went to its node
/// with that report or after it. If a report leaves them, each went in a note after those that may be lost.
pub fn requests_are_asked_again()
    ensures again { AsksAgain }
    ensures others { OthersAreNotLost }
{}
