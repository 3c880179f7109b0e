//! Lists of events with answers of their own in tests/worlds/cases, each for a group of so many nodes.
pub const CASES: &[(u8, &str)] = &[
    // case 008
    (
        3,
        "\
         timeout 3\ntimeout 3\ntimeout 3\ndeliver 3 1\ndeliver 3 5\ndeliver 1 2\nopened 3\n\
         ask 1 0101000000000000000100000000000000010000000000000001000000006553f13d01\n\
         ask 3 0103000000000000000100000000000000020000000000000001000000006553f17a01\nbeat 3\n\
         deliver 3 7\ndeliver 1 3\nbeat 3\ndeliver 3 9\ndeliver 1 4\nlook 2 0 a\napply 3\napply 3\n\
         apply 3\n",
    ),
    // case 015
    (
        3,
        "\
         timeout 3\ntimeout 3\ndeliver 3 1\ndeliver 3 2\ndeliver 3 3\ndeliver 1 1\ndeliver 2 1\n\
         deliver 1 2\ndeliver 3 4\nopened 3\nheard 3 1700000001 :s 332 me #x topic\ndeliver 3 1\n\
         beat 3\ndeliver 3 5\nbeat 3\ndeliver 3 6\ndeliver 3 7\ndeliver 1 4\ndeliver 2 3\n\
         deliver 1 5\napply 3\napply 3\nbeat 3\ndeliver 3 8\ndeliver 3 9\ndeliver 3 10\n\
         deliver 2 4\ndeliver 1 6\ndeliver 2 5\n",
    ),
    // case 067
    (
        3,
        "\
         timeout 1\ndeliver 1 2\ntimeout 3\ndeliver 3 3\ndeliver 3 2\ndeliver 2 1\ndeliver 1 3\n\
         ask 3 030300000000000000010000000000000001\nbeat 3\ndeliver 3 4\ndeliver 1 4\n\
         deliver 3 5\ndeliver 2 2\nbeat 3\ndeliver 3 7\ndeliver 2 3\ndeliver 3 6\ndeliver 1 5\n\
         apply 3\napply 3\nlook 3 0 #x\nlook 3 0 #y\nlook 3 0 bob\napply 1\napply 1\nlook 1 0 #x\n\
         look 1 0 #y\nlook 1 0 bob\napply 2\napply 2\nlook 2 0 #x\nlook 2 0 #y\nlook 2 0 bob\n",
    ),
    // case 047
    (
        3,
        "\
         timeout 2\ndeliver 2 1\ndeliver 1 1\ndeliver 2 2\ndeliver 3 1\nopened 2\n\
         ask 2 0102000000000000000100000000000000010000000000000001000000006553f10001\n\
         ask 2 0102000000000000000100000000000000010000000000000002000000006553f100050002266c\n\
         beat 2\ndeliver 2 4\ndeliver 3 2\ndeliver 2 3\ndeliver 1 2\nbeat 2\ndeliver 2 5\n\
         deliver 1 3\napply 2\napply 2\napply 2\napply 2\nclaim 2\nclaim 2\nbeat 2\ndeliver 2 7\n\
         deliver 1 4\napply 2\napply 2\nbeat 2\ndeliver 2 10\n",
    ),
    // case 023
    (
        3,
        "\
         timeout 1\ntimeout 1\ndeliver 1 2\ndeliver 1 3\ndeliver 1 4\ndeliver 3 1\ndeliver 2 1\n\
         opened 1\nheard 1 1700000061 :me!u@h KICK #x other x\n\
         ask 2 0102000000000000000100000000000000010000000000000001000000006553f13d01\nbeat 1\n\
         deliver 1 5\ndeliver 2 2\ndeliver 1 6\ndeliver 3 3\nbeat 1\ndeliver 1 7\ndeliver 2 3\n\
         deliver 1 8\ndeliver 3 4\napply 1\napply 1\napply 1\nlook 1 3 &local\nheard 1 1 A b ::c\n\
         ask 3 0103000000000000000100000000000000010000000000000001000000006553f13e01\n\
         deliver 3 5\n",
    ),
    // case 079
    (
        3,
        "\
         timeout 3\ntimeout 2\ndeliver 2 1\ndeliver 1 1\ndeliver 2 2\ndeliver 3 3\nopened 2\n\
         ask 1 0101000000000000000100000000000000010000000000000001000000006553f10001\nbeat 2\n\
         deliver 2 3\ndeliver 1 2\ndeliver 2 4\ndeliver 3 4\nbeat 2\ndeliver 2 5\ndeliver 1 3\n\
         deliver 2 6\ndeliver 3 5\napply 2\napply 2\nclaim 2\nclaim 2\nbeat 2\ndeliver 2 8\n\
         deliver 3 6\ndeliver 2 7\ndeliver 1 4\nask 2 030200000000000000010000000000000001\n\
         ask 3 0103000000000000000100000000000000020000000000000001000000006553f13c01\n",
    ),
    // case 076
    (
        5,
        "\
         timeout 3\ndeliver 3 1\ndeliver 1 1\ndeliver 3 2\ndeliver 2 1\ndeliver 3 3\ndeliver 4 1\n\
         deliver 3 4\ndeliver 5 1\nopened 3\n\
         ask 2 0102000000000000000100000000000000010000000000000001000000006553f10001\nbeat 3\n\
         deliver 3 7\ndeliver 4 2\ndeliver 3 8\ndeliver 5 2\ndeliver 3 6\ndeliver 2 2\nbeat 3\n\
         deliver 3 12\ndeliver 5 3\ndeliver 3 10\ndeliver 2 3\ndeliver 3 11\ndeliver 4 3\n\
         deliver 3 5\ndeliver 3 9\ndeliver 1 2\ndeliver 1 3\napply 3\napply 3\nclaim 3\nbeat 3\n\
         deliver 3 13\ndeliver 1 4\ndeliver 3 14\ndeliver 2 4\n",
    ),
    // case 039
    (
        3,
        "\
         timeout 3\ntimeout 3\ndeliver 3 1\ndeliver 3 2\ndeliver 3 3\ndeliver 1 2\ntimeout 2\n\
         timeout 2\ndeliver 2 3\ndeliver 2 5\ndeliver 2 2\ndeliver 2 4\ndeliver 3 5\ndeliver 3 6\n\
         deliver 1 3\ndeliver 1 4\nask 2 030200000000000000010000000000000001\nbeat 2\n\
         deliver 2 7\ndeliver 3 7\ndeliver 2 6\ndeliver 1 5\nbeat 2\ndeliver 2 8\ndeliver 1 6\n\
         deliver 2 9\ndeliver 3 8\napply 3\napply 3\nlook 3 0 #x\nlook 3 0 #y\nlook 3 0 bob\n\
         apply 1\napply 1\nlook 1 0 #y\nlook 1 0 #y\nlook 1 0 bob\napply 2\napply 2\nlook 2 0 #x\n\
         look 2 0 &local\nlook 2 0 bob\n",
    ),
    // case 029
    (
        3,
        "\
         timeout 3\nstop before deliver 3 1\ndeliver 3 2\ndeliver 2 1\n\
         ask 3 030300000000000000010000000000000001\nbeat 3\ndeliver 3 3\ndeliver 1 1\n\
         deliver 3 4\ndeliver 2 2\nbeat 3\ndeliver 3 6\ndeliver 2 3\ndeliver 3 5\ndeliver 1 2\n\
         beat 3\ndeliver 3 7\ndeliver 1 3\ndeliver 3 8\ndeliver 2 4\nbeat 3\ndeliver 3 10\n\
         deliver 2 5\ndeliver 3 9\ndeliver 1 4\nbeat 3\ndeliver 3 11\nstop before deliver 1 5\n\
         deliver 3 12\ndeliver 2 6\nbeat 3\nlook 3 0 #x\nlook 3 0 #y\nlook 3 0 bob\napply 1\n\
         apply 1\nlook 1 0 #x\nlook 1 0 #y\nlook 1 0 bob\napply 2\napply 2\nlook 2 0 A{\n\
         look 2 0 #y\nlook 2 0 bob\n",
    ),
    // case 055
    (
        3,
        "\
         timeout 2\ndeliver 2 1\ntimeout 2\ndeliver 2 3\ndeliver 1 1\ndeliver 1 2\ndeliver 2 2\n\
         deliver 2 4\ndeliver 3 1\ndeliver 3 2\nopened 2\n\
         ask 2 0102000000000000000100000000000000010000000000000001000000006553f10001\n\
         ask 2 0102000000000000000100000000000000010000000000000002000000006553f10003000002237800066c696e652032\n\
         beat 2\ndeliver 2 5\ndeliver 1 3\nbeat 2\ndeliver 2 7\ndeliver 1 4\napply 2\napply 2\n\
         apply 2\napply 2\nclaim 2\nclaim 2\nbeat 2\ndeliver 2 6\ndeliver 2 8\ndeliver 2 10\n\
         deliver 3 3\ndeliver 3 4\ndeliver 3 5\napply 2\napply 2\nclaim 2\nclaim 2\nbeat 2\n\
         deliver 2 12\ndeliver 3 6\n",
    ),
    // case 095
    (
        5,
        "\
         timeout 1\ndeliver 1 1\ndeliver 1 3\ntimeout 4\ndeliver 4 2\ndeliver 1 5\ndeliver 4 3\n\
         deliver 2 2\ndeliver 4 4\ndeliver 3 1\ndeliver 4 5\ndeliver 5 1\nopened 4\n\
         ask 4 0104000000000000000100000000000000010000000000000001000000006553f10001\n\
         ask 4 0104000000000000000100000000000000010000000000000002000000006553f10003000002237800066c696e652032\n\
         beat 4\ndeliver 4 8\ndeliver 3 2\ndeliver 4 7\ndeliver 2 3\nbeat 4\ndeliver 4 11\n\
         deliver 2 4\ndeliver 4 12\ndeliver 3 3\ndeliver 4 6\ndeliver 4 10\ndeliver 1 6\n\
         deliver 1 7\napply 4\napply 4\napply 4\napply 4\nclaim 4\nbeat 4\ndeliver 4 16\n\
         deliver 3 4\n",
    ),
    // case 018
    (
        5,
        "\
         ask 3 0103000000000000000100000000000000010000000000000001000000006553f10101\n\
         look 1 0 #x\nlook 4 1 #X\ntimeout 1\ndeliver 1 2\ndeliver 1 1\ndeliver 1 3\ndeliver 1 4\n\
         deliver 3 1\ndeliver 2 1\ndeliver 4 1\ndeliver 5 1\nopened 1\n\
         heard 1 1700000062 :bob!b@c PRIVMSG me :psst\nheard 1 1700000063 :a!b@c PRIVMSG #y :w59\n\
         beat 1\ndeliver 1 6\ndeliver 3 2\ndeliver 1 5\ndeliver 2 2\nbeat 1\ndeliver 1 8\n\
         deliver 1 12\ndeliver 5 2\ndeliver 5 3\ndeliver 1 10\ndeliver 3 3\napply 3\napply 3\n\
         apply 3\napply 3\nlook 3 0 #X\nlook 4 0 #x\napply 1\napply 1\napply 1\napply 1\n\
         look 1 4 #y\nlook 1 0 a\napply 5\napply 5\napply 5\napply 5\nlook 5 4 #y\ndeliver 5 1\n",
    ),
    // case 104
    (
        5,
        "\
         timeout 3\ntimeout 3\ndeliver 3 1\ndeliver 3 2\ndeliver 3 3\ndeliver 3 4\ndeliver 3 5\n\
         deliver 3 6\ndeliver 3 7\ndeliver 3 8\ndeliver 1 1\ndeliver 2 1\ndeliver 4 1\n\
         deliver 5 1\ndeliver 1 2\ndeliver 2 2\ndeliver 4 2\ndeliver 5 2\nopened 3\n\
         ask 3 0103000000000000000100000000000000010000000000000001000000006553f10001\nbeat 3\n\
         deliver 3 12\ndeliver 5 3\ndeliver 3 10\ndeliver 2 3\ndeliver 3 9\ndeliver 1 3\nbeat 3\n\
         deliver 3 11\ndeliver 3 15\ndeliver 4 3\ndeliver 4 4\ndeliver 3 14\ndeliver 2 4\n\
         deliver 3 13\ndeliver 1 4\ndeliver 3 16\ndeliver 5 4\napply 3\napply 3\napply 3\nclaim 3\n\
         claim 3\nclosed 3\nbeat 3\ndeliver 3 17\nstop before deliver 1 5\nopened 3\nclaim 3\n",
    ),
    // case 096
    (
        5,
        "\
         timeout 3\ndeliver 3 2\ndeliver 3 3\ndeliver 3 1\ndeliver 3 4\ndeliver 2 1\ndeliver 4 1\n\
         deliver 1 1\ndeliver 5 1\nask 3 030300000000000000010000000000000001\nbeat 3\n\
         deliver 3 5\ndeliver 1 2\ndeliver 3 6\ndeliver 2 2\ndeliver 3 8\ndeliver 5 2\n\
         deliver 3 7\ndeliver 4 2\nbeat 3\ndeliver 3 0\ndeliver 5 3\ndeliver 3 9\ndeliver 1 3\n\
         deliver 3 10\ndeliver 2 3\ndeliver 3 11\ndeliver 4 3\napply 5\napply 5\nlook 5 0 #x\n\
         look 5 0 carol\nlook 5 0 A{\napply 4\napply 4\nlook 4 0 #x\nlook 4 0 A{\nlook 4 0 bob\n\
         apply 3\napply 3\nlook 3 0 #x\nlook 3 0 #y\nlook 3 0 bob\napply 1\napply 1\nlook 1 0 #x\n\
         look 1 0 #y\nlook 1 0 bob\napply 2\napply 2\nlook 2 0 #x\nlook 2 0 A{\nlook 2 0 A{\n",
    ),
    // case 012
    (
        3,
        "\
         timeout 2\ndeliver 2 2\nbeat 3\nopened 3\nheard 3 1700000001 :a!b@c PRIVMSG #x :one\n\
         timeout 3\ndeliver 3 2\ndeliver 3 3\ndeliver 1 1\ndeliver 2 3\n\
         ask 3 030300000000000000010000000000000001\nbeat 3\ndeliver 3 4\ndeliver 1 2\n\
         deliver 3 5\ndeliver 2 4\nbeat 3\n\
         ask 7 01071000000000000000100000000000000010000000000000000000003a3529440001\n\
         deliver 3 7\ndeliver 2 5\ndeliver 3 6\ndeliver 1 3\nbeat 3\ndeliver 3 8\ndeliver 1 4\n\
         deliver 3 9\ndeliver 2 6\napply 1\napply 1\nlook 1 0 #x\nlook 1 0 #y\nlook 1 0 bob\n\
         apply 2\napply 2\nlook 2 0 #x\nlook 2 0 #y\nlook 2 0 bob\napply 3\napply 3\nlook 3 0 a[\n\
         look 3 0 #y\nlook 3 0 nnnnnnnnnnnnnnnnnnnnnnnnnnnnnnnnnnnnnnnnnnnnnnnnnnnnnnnnnnnnnnnn\n",
    ),
    // case 004
    (
        3,
        "\
         timeout 1\nask 1 0103000000000000000100000000000000000000000000000001000000006553f10101\n\
         ask 3 0103000000000000000100000000000000010000000000000002000000006553ff1101\n\
         ask 2 00000003020000000000000004\nopened 2\nclaim 2\nbeat 1\ntimeout 2\ntimeout 2\n\
         timeout 2\ndeliver 2 1\ndeliver 2 3\ndeliver 2 5\ndeliver 1 3\ndeliver 1 4\ndeliver 1 5\n\
         deliver 2 2\ndeliver 2 4\ndeliver 2 6\ndeliver 3 1\ndeliver 3 2\ndeliver 3 3\nopened 2\n\
         ask 2 0102000000000000000100000000000000010000000000000001000000006553ff1101\nbeat 2\n\
         deliver 2 7\ndeliver 1 6\ndeliver 2 8\ndeliver 3 4\nbeat 2\ndeliver 2 9\ndeliver 1 7\n\
         deliver 2 10\ndeliver 3 5\napply 2\napply 2\napply 2\nclaim 2\nbeat 2\ndeliver 2 11\n\
         deliver 1 8\nclosed 2\n",
    ),
    // case 057
    (
        3,
        "\
         timeout 1\ndeliver 1 2\ndeliver 3 1\nask 1 00000003030000000000000002\nopened 2\n\
         heard 2 1700000001 :a!b@c NOTICE #x :two\n\
         ask 1 0101000000000000000100000000000000010000000000000001000000006553f10201\nbeat 1\n\
         deliver 1 3\ndeliver 2 1\nopened 1\n\
         ask 3 0103000000000000000100000000000000010000000000000001000000006553f10201\n\
         ask 3 0103000000000000000100000000000000010000000000000002000000006553f1030400022378\n\
         beat 1\ndeliver 1 5\ndeliver 2 2\ndeliver 1 4\ndeliver 1 6\ndeliver 3 2\ndeliver 3 3\n\
         beat 1\ndeliver 1 7\ndeliver 2 3\nlook 1 4 #y\napply 3\napply 3\napply 3\nlook 3 3 a\n\
         ask 1 0101000000000000000100000000000000010000000000000001000000006553f13f01\nopened 2\n\
         heard 2 1700000064 :me!u@h NICK you\n",
    ),
    // case 042
    (
        5,
        "\
         timeout 1\ndeliver 1 1\ndeliver 1 2\ndeliver 1 3\ndeliver 2 1\ndeliver 3 1\ndeliver 4 1\n\
         opened 1\nheard 1 1700000061 :a!b@c PRIVMSG #x :w53\n\
         ask 5 0105000000000000000100000000000000020000000000000001000000006553f13e01\n\
         ask 1 0101000000000000000100000000000000010000000000000001000000006553f13e01\n\
         heard 1 1700000062 :a!b@c NOTICE #x :two\nbeat 1\ndeliver 1 5\ndeliver 2 2\ndeliver 1 6\n\
         deliver 3 2\ndeliver 1 8\ndeliver 5 1\ndeliver 1 7\ndeliver 4 2\nbeat 1\ndeliver 1 10\n\
         deliver 3 3\ndeliver 1 12\ndeliver 5 2\napply 5\napply 5\napply 5\napply 5\napply 5\n\
         look 5 0 #X\napply 3\napply 3\napply 3\napply 3\napply 3\nlook 3 5 a\nlook 3 5 #y\n\
         look 2 0 carol\napply 1\napply 1\napply 1\napply 1\napply 1\nlook 1 5 #X\nlook 4 0 #x\n",
    ),
    // case 052
    (
        3,
        "\
         timeout 2\ntimeout 2\ntimeout 2\ndeliver 2 1\ndeliver 2 2\ndeliver 2 3\ndeliver 2 4\n\
         deliver 2 5\ndeliver 2 6\ndeliver 1 1\ndeliver 3 1\ndeliver 1 2\ndeliver 3 2\n\
         deliver 1 3\ndeliver 3 3\nopened 2\n\
         ask 2 0102000000000000000100000000000000010000000000000001000000006553f10001\n\
         ask 2 0102000000000000000100000000000000010000000000000002000000006553f100070004237b417d\n\
         ask 2 0102000000000000000100000000000000010000000000000003000000006553f100040004236e6577\n\
         beat 2\ndeliver 2 8\ndeliver 3 4\ndeliver 2 7\ndeliver 1 4\nbeat 2\ndeliver 2 10\n\
         deliver 3 5\ndeliver 2 9\ndeliver 1 5\napply 2\napply 2\nclaim 2\nclaim 2\nbeat 2\n\
         deliver 2 11\ndeliver 1 6\napply 2\napply 2\napply 2\nheard 2 1700000001 :s 403 me #x No\n\
         deliver 2 12\n",
    ),
    // case 007
    (
        7,
        "\
         timeout 2\ndeliver 2 2\ndeliver 2 3\ndeliver 2 4\ndeliver 2 5\ndeliver 3 1\ndeliver 4 1\n\
         deliver 5 1\ndeliver 6 1\nopened 2\n\
         ask 2 0102000000000000000100000000000000010000000000000001000000006553f10001\nbeat 2\n\
         deliver 2 9\ndeliver 4 2\ndeliver 2 11\ndeliver 6 2\ndeliver 2 10\ndeliver 5 2\n\
         deliver 2 7\ndeliver 1 1\nbeat 2\ndeliver 2 17\ndeliver 6 3\ndeliver 2 13\ndeliver 1 2\n\
         deliver 2 15\ndeliver 4 3\napply 2\napply 2\napply 2\nclaim 2\nclosed 2\nbeat 2\n\
         deliver 2 8\ndeliver 2 12\ndeliver 2 14\ndeliver 2 16\ndeliver 2 18\ndeliver 2 19\n\
         deliver 2 20\ndeliver 2 21\ndeliver 2 22\ndeliver 2 23\ndeliver 2 24\ndeliver 3 2\n\
         deliver 7 1\ndeliver 3 3\ndeliver 5 3\ndeliver 7 2\ndeliver 1 3\ndeliver 3 4\n\
         deliver 5 4\ndeliver 6 4\ndeliver 7 3\napply 2\napply 2\n",
    ),
];
