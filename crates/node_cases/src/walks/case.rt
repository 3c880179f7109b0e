//! The claim of a leader that is lost, as events.

/// Messages go by their sender and their number among those that it sent.
pub const NUMBERED: &str = "\
timeout 1
deliver 1 1
deliver 2 1
ask 1 0101000000000000000100000000000000010000000000000001000000006553f10001
ask 1 0101000000000000000100000000000000010000000000000002000000006553f10003000002237800026869
beat 1
deliver 1 3
deliver 2 2
apply 1
apply 1
apply 1
opened 1
claim 1
beat 1
deliver 1 5
deliver 2 3
restart 1
timeout 2
deliver 2 5
deliver 3 1
opened 2
apply 2
apply 2
apply 2
claim 2
beat 2
deliver 2 6
deliver 1 7
apply 2
apply 2
apply 2
apply 2
apply 2
";

/// Messages go by their sender and by the node to which they are.
pub const ADDRESSED: &str = "\
timeout 1
deliver 1 2
deliver 2 1
ask 1 0101000000000000000100000000000000010000000000000001000000006553f10001
ask 1 0101000000000000000100000000000000010000000000000002000000006553f10003000002237800026869
beat 1
deliver 1 2
deliver 2 1
apply 1
apply 1
apply 1
opened 1
claim 1
beat 1
deliver 1 2
deliver 2 1
restart 1
timeout 2
deliver 2 3
deliver 3 2
opened 2
apply 2
apply 2
apply 2
claim 2
beat 2
deliver 2 1
deliver 1 2
apply 2
apply 2
apply 2
apply 2
apply 2
";

/// Node 1 is elected.
pub const BEFORE: &str = "\
timeout 1
deliver 1 2
deliver 2 1
";

/// Inputs by which node 1 only appends, some of which it refuses, and some of which do nothing.
pub const ROUND: &str = "\
opened 1
ask 1 0101000000000000000100000000000000010000000000000001000000006553f10001
heard 1 1700000000 :a!b@c PRIVMSG #x :one
ask 1 0101000000000000000100000000000000010000000000000002000000006553f10003000002237800026869
claim 1
ask 1 0102000000000000000100000000000000010000000000000001000000006553f10001
heard 1 1700000001 :a!b@c PRIVMSG #x :two
ask 1 0101000000000000000100000000000000020000000000000001000000006553f10001
opened 1
closed 1
heard 1 1700000002 :a!b@c PRIVMSG #x :lost
opened 1
heard 1 1700000003 :a!b@c PRIVMSG #x :three
ask 1 0101000000000000000100000000000000010000000000000003000000006553f10003000002237800026869
ask 1 0101000000000000000100000000000000020000000000000002000000006553f10003000002237800026869
claim 1
heard 1 1700000004 :a!b@c PRIVMSG #x :four
ask 1 0101000000000000000100000000000000010000000000000004000000006553f10002
closed 1
ask 1 0101000000000000000100000000000000020000000000000003000000006553f10002
";

/// Node 1 sends what it has, and node 2 leads next.
pub const BEHIND: &str = "\
beat 1
deliver 1 2
deliver 2 1
timeout 2
deliver 2 3
deliver 3 2
opened 2
beat 2
deliver 2 1
deliver 2 3
deliver 1 2
deliver 3 2
apply 2
apply 2
apply 2
apply 2
apply 2
apply 2
";
