//! Lists of events of the worked cases, each for a group of so many nodes.
pub const WORKED: &[(u8, &str)] = &[
    // two requests
    (
        3,
        "\
         timeout 1\ndeliver 1 1\ndeliver 2 1\n\
         ask 1 0101000000000000000100000000000000010000000000000001000000006553f10001\n\
         ask 1 0101000000000000000100000000000000010000000000000002000000006553f10003000002237800026869\n\
         beat 1\ndeliver 1 3\ndeliver 2 2\napply 1\napply 1\n",
    ),
    // repeated votes count once
    (
        5,
        "\
         timeout 1\ndeliver 1 1\ndeliver 2 1\ndeliver 2 1\ndeliver 2 1\n",
    ),
    // a late append cuts nothing
    (
        3,
        "\
         timeout 1\ndeliver 1 1\ndeliver 2 1\n\
         ask 1 0101000000000000000100000000000000010000000000000001000000006553f10001\nbeat 1\n\
         ask 1 0101000000000000000100000000000000010000000000000002000000006553f10003000002237800026869\n\
         beat 1\ndeliver 1 5\ndeliver 1 3\ndeliver 2 3\ndeliver 2 2\n",
    ),
    // a vote outlives a restart
    (
        3,
        "\
         timeout 1\ntimeout 2\ndeliver 1 2\nrestart 3\ndeliver 2 2\ndeliver 3 2\n",
    ),
    // an older term is not counted
    (
        5,
        "\
         timeout 1\ndeliver 1 1\ndeliver 1 2\ndeliver 2 1\ndeliver 3 1\n\
         ask 1 0101000000000000000100000000000000010000000000000001000000006553f10001\nbeat 1\n\
         deliver 1 5\ntimeout 5\ntimeout 5\ndeliver 5 7\ndeliver 5 8\ndeliver 3 2\ndeliver 4 1\n\
         ask 5 0105000000000000000100000000000000010000000000000001000000006553f10001\nrestart 1\n\
         timeout 1\ntimeout 1\ndeliver 1 13\ndeliver 1 14\ndeliver 2 3\ndeliver 3 3\nbeat 1\n\
         deliver 1 17\ndeliver 1 18\ndeliver 3 4\nbeat 1\ndeliver 1 22\ndeliver 2 4\ndeliver 3 5\n\
         restart 5\ntimeout 5\ntimeout 5\ndeliver 5 14\ndeliver 5 15\ndeliver 2 5\ndeliver 3 6\n\
         beat 5\ndeliver 5 18\ndeliver 2 6\nbeat 5\ndeliver 5 22\ndeliver 2 7\n",
    ),
    // all nodes restart
    (
        3,
        "\
         timeout 1\ndeliver 1 1\ndeliver 2 1\n\
         ask 1 0101000000000000000100000000000000010000000000000001000000006553f10001\n\
         ask 1 0101000000000000000100000000000000010000000000000002000000006553f1000600022378\n\
         ask 1 0101000000000000000100000000000000010000000000000003000000006553f10003000002237800026869\n\
         beat 1\ndeliver 1 4\ndeliver 3 1\nbeat 1\ndeliver 1 6\napply 3\napply 3\nlook 3 3 #x\n\
         apply 3\nlook 3 3 #x\napply 3\nlook 3 4 #x\nrestart 1\nrestart 2\nrestart 3\ntimeout 3\n\
         deliver 3 3\ndeliver 1 7\nlook 3 4 #x\n\
         ask 3 0103000000000000000200000000000000010000000000000001000000006553f10001\nbeat 3\n\
         deliver 3 5\ndeliver 1 8\napply 3\napply 3\napply 3\napply 3\nlook 3 4 #x\n",
    ),
    // a claim of a lost leader
    (
        3,
        "\
         timeout 1\ndeliver 1 1\ndeliver 2 1\n\
         ask 1 0101000000000000000100000000000000010000000000000001000000006553f10001\n\
         ask 1 0101000000000000000100000000000000010000000000000002000000006553f10003000002237800026869\n\
         beat 1\ndeliver 1 3\ndeliver 2 2\napply 1\napply 1\napply 1\nopened 1\nclaim 1\nbeat 1\n\
         deliver 1 5\ndeliver 2 3\nrestart 1\ntimeout 2\ndeliver 2 5\ndeliver 3 1\nopened 2\n\
         apply 2\napply 2\napply 2\nclaim 2\nbeat 2\ndeliver 2 6\ndeliver 1 7\napply 2\napply 2\n\
         apply 2\napply 2\napply 2\n",
    ),
    // a stop after the save
    (
        3,
        "\
         timeout 1\ndeliver 1 1\ndeliver 2 1\n\
         ask 1 0101000000000000000100000000000000010000000000000001000000006553f10001\nbeat 1\n\
         stop after deliver 1 3\ndeliver 2 2\n",
    ),
    // a stop before the save
    (
        3,
        "\
         timeout 1\ndeliver 1 1\ndeliver 2 1\n\
         ask 1 0101000000000000000100000000000000010000000000000001000000006553f10001\nbeat 1\n\
         stop before deliver 1 3\ndeliver 2 2\n",
    ),
    // a follower plays
    (
        3,
        "\
         timeout 1\ndeliver 1 1\ndeliver 2 1\n\
         ask 1 0101000000000000000100000000000000010000000000000001000000006553f10001\n\
         ask 1 0101000000000000000100000000000000010000000000000002000000006553f1000600022378\n\
         ask 1 0101000000000000000100000000000000010000000000000003000000006553f10003000002237800026869\n\
         beat 1\ndeliver 1 4\ndeliver 3 1\nbeat 1\ndeliver 1 6\napply 3\napply 3\nlook 3 3 #x\n\
         apply 3\nlook 3 3 #x\napply 3\nlook 3 4 #x\n",
    ),
];
