//! Setups, bodies, and the lines that answer them.
use crate::fold::said::Said;
use crate::fold::setups::{Case, PLAIN};

pub const CASES: &[Case<'static>] = &[
    // One client at a time.
    Case {
        many_clients: false,
        bodies: &[
            Said::Attach(1),
            Said::Attach(2),
            Said::Heard(0, ":a!b@c PRIVMSG #x :hi"),
            Said::Play(1),
        ],
        want: &[
            "1 done 1.1.1 1",
            "2 close 1.1.1",
            "2 done 1.1.2 1",
            "3 show 1.1.2 :a!b@c PRIVMSG #x :hi",
            "4 close 1.1.1",
            "4 done 1.1.1 2",
        ],
        ..PLAIN
    },
    // One query at most.
    Case {
        most_queries: 1,
        bodies: &[
            Said::Heard(0, ":bob!b@c PRIVMSG me :yo"),
            Said::Heard(0, ":carol!d@e PRIVMSG me :yo"),
            Said::Attach(1),
        ],
        want: &[
            "3 show 1.1.1 :***!bouncer@local PRIVMSG carol :Buffer Playback...",
            "3 show 1.1.1 :carol!d@e PRIVMSG me :[22:13:20] yo",
            "3 show 1.1.1 :***!bouncer@local PRIVMSG carol :Playback Complete.",
            "3 done 1.1.1 1",
        ],
        ..PLAIN
    },
    // Two queries in the order made.
    Case {
        most_queries: 2,
        bodies: &[
            Said::Heard(0, ":carol!d@e PRIVMSG me :yo"),
            Said::Heard(0, ":bob!b@c PRIVMSG me :yo"),
            Said::Attach(1),
        ],
        want: &[
            "3 show 1.1.1 :***!bouncer@local PRIVMSG carol :Buffer Playback...",
            "3 show 1.1.1 :carol!d@e PRIVMSG me :[22:13:20] yo",
            "3 show 1.1.1 :***!bouncer@local PRIVMSG carol :Playback Complete.",
            "3 show 1.1.1 :***!bouncer@local PRIVMSG bob :Buffer Playback...",
            "3 show 1.1.1 :bob!b@c PRIVMSG me :[22:13:20] yo",
            "3 show 1.1.1 :***!bouncer@local PRIVMSG bob :Playback Complete.",
            "3 done 1.1.1 1",
        ],
        ..PLAIN
    },
    // Lines of a channel that is not cleared.
    Case {
        clears_channels: false,
        bodies: &[
            Said::Heard(0, ":a!b@c PRIVMSG #x :hi"),
            Said::Attach(1),
            Said::Attach(2),
            Said::Heard(1, ":a!b@c PRIVMSG #x :ho"),
            Said::Play(2),
        ],
        want: &[
            "2 show 1.1.1 :***!bouncer@local PRIVMSG #x :Buffer Playback...",
            "2 show 1.1.1 :a!b@c PRIVMSG #x :[22:13:20] hi",
            "2 show 1.1.1 :***!bouncer@local PRIVMSG #x :Playback Complete.",
            "2 done 1.1.1 1",
            "3 show 1.1.2 :***!bouncer@local PRIVMSG #x :Buffer Playback...",
            "3 show 1.1.2 :a!b@c PRIVMSG #x :[22:13:20] hi",
            "3 show 1.1.2 :***!bouncer@local PRIVMSG #x :Playback Complete.",
            "3 done 1.1.2 1",
            "4 show 1.1.1 :a!b@c PRIVMSG #x :ho",
            "4 show 1.1.2 :a!b@c PRIVMSG #x :ho",
            "5 show 1.1.2 :***!bouncer@local PRIVMSG #x :Buffer Playback...",
            "5 show 1.1.2 :a!b@c PRIVMSG #x :[22:13:20] hi",
            "5 show 1.1.2 :a!b@c PRIVMSG #x :[22:13:21] ho",
            "5 show 1.1.2 :***!bouncer@local PRIVMSG #x :Playback Complete.",
            "5 done 1.1.2 2",
        ],
        ..PLAIN
    },
    // Lines of a query that is not cleared.
    Case {
        clears_queries: false,
        bodies: &[
            Said::Heard(0, ":bob!b@c PRIVMSG me :yo"),
            Said::Heard(0, ":a!b@c PRIVMSG #x :hi"),
            Said::Attach(1),
            Said::Attach(2),
        ],
        want: &[
            "3 show 1.1.1 :***!bouncer@local PRIVMSG #x :Buffer Playback...",
            "3 show 1.1.1 :a!b@c PRIVMSG #x :[22:13:20] hi",
            "3 show 1.1.1 :***!bouncer@local PRIVMSG #x :Playback Complete.",
            "3 show 1.1.1 :***!bouncer@local PRIVMSG bob :Buffer Playback...",
            "3 show 1.1.1 :bob!b@c PRIVMSG me :[22:13:20] yo",
            "3 show 1.1.1 :***!bouncer@local PRIVMSG bob :Playback Complete.",
            "3 done 1.1.1 1",
            "4 show 1.1.2 :***!bouncer@local PRIVMSG bob :Buffer Playback...",
            "4 show 1.1.2 :bob!b@c PRIVMSG me :[22:13:20] yo",
            "4 show 1.1.2 :***!bouncer@local PRIVMSG bob :Playback Complete.",
            "4 done 1.1.2 1",
        ],
        ..PLAIN
    },
    // Sizes of 2 and 1.
    Case {
        channel_size: 2,
        query_size: 1,
        bodies: &[
            Said::Heard(0, ":a!b@c PRIVMSG #x :hi"),
            Said::Heard(1, ":a!b@c PRIVMSG #x :ho"),
            Said::Heard(2, ":a!b@c PRIVMSG #x :ha"),
            Said::Heard(0, ":bob!b@c PRIVMSG me :yo"),
            Said::Heard(1, ":bob!b@c PRIVMSG me :ya"),
            Said::Attach(1),
        ],
        want: &[
            "6 show 1.1.1 :***!bouncer@local PRIVMSG #x :Buffer Playback...",
            "6 show 1.1.1 :a!b@c PRIVMSG #x :[22:13:21] ho",
            "6 show 1.1.1 :a!b@c PRIVMSG #x :[22:13:22] ha",
            "6 show 1.1.1 :***!bouncer@local PRIVMSG #x :Playback Complete.",
            "6 show 1.1.1 :***!bouncer@local PRIVMSG bob :Buffer Playback...",
            "6 show 1.1.1 :bob!b@c PRIVMSG me :[22:13:21] ya",
            "6 show 1.1.1 :***!bouncer@local PRIVMSG bob :Playback Complete.",
            "6 done 1.1.1 1",
        ],
        ..PLAIN
    },
    // An hour ahead.
    Case {
        offset: 1499,
        bodies: &[Said::Heard(0, ":a!b@c PRIVMSG #x :hi"), Said::Attach(1)],
        want: &[
            "2 show 1.1.1 :***!bouncer@local PRIVMSG #x :Buffer Playback...",
            "2 show 1.1.1 :a!b@c PRIVMSG #x :[23:13:20] hi",
            "2 show 1.1.1 :***!bouncer@local PRIVMSG #x :Playback Complete.",
            "2 done 1.1.1 1",
        ],
        ..PLAIN
    },
    // Two hours ahead is past midnight.
    Case {
        offset: 1559,
        bodies: &[Said::Heard(0, ":a!b@c PRIVMSG #x :hi"), Said::Attach(1)],
        want: &[
            "2 show 1.1.1 :***!bouncer@local PRIVMSG #x :Buffer Playback...",
            "2 show 1.1.1 :a!b@c PRIVMSG #x :[00:13:20] hi",
            "2 show 1.1.1 :***!bouncer@local PRIVMSG #x :Playback Complete.",
            "2 done 1.1.1 1",
        ],
        ..PLAIN
    },
    // All but a day behind.
    Case {
        offset: 0,
        bodies: &[Said::Heard(0, ":a!b@c PRIVMSG #x :hi"), Said::Attach(1)],
        want: &[
            "2 show 1.1.1 :***!bouncer@local PRIVMSG #x :Buffer Playback...",
            "2 show 1.1.1 :a!b@c PRIVMSG #x :[22:14:20] hi",
            "2 show 1.1.1 :***!bouncer@local PRIVMSG #x :Playback Complete.",
            "2 done 1.1.1 1",
        ],
        ..PLAIN
    },
    // Channels are played in rising order.
    Case {
        channels: &[b"#A", b"#b"],
        bodies: &[
            Said::Heard(0, ":a!b@c PRIVMSG #b :bee"),
            Said::Heard(1, ":a!b@c PRIVMSG #a :ay"),
            Said::Attach(1),
        ],
        want: &[
            "3 show 1.1.1 :***!bouncer@local PRIVMSG #A :Buffer Playback...",
            "3 show 1.1.1 :a!b@c PRIVMSG #a :[22:13:21] ay",
            "3 show 1.1.1 :***!bouncer@local PRIVMSG #A :Playback Complete.",
            "3 show 1.1.1 :***!bouncer@local PRIVMSG #b :Buffer Playback...",
            "3 show 1.1.1 :a!b@c PRIVMSG #b :[22:13:20] bee",
            "3 show 1.1.1 :***!bouncer@local PRIVMSG #b :Playback Complete.",
            "3 done 1.1.1 1",
        ],
        ..PLAIN
    },
    // Channels are joined in rising order.
    Case {
        channels: &[b"#A", b"#b"],
        bodies: &[
            Said::Up,
            Said::Heard(0, ":me!u@h JOIN #b"),
            Said::Heard(0, ":me!u@h JOIN #AA"),
            Said::Heard(0, ":me!u@h JOIN #a"),
            Said::Attach(1),
            Said::Up,
        ],
        want: &[
            "1 rejoin JOIN #A",
            "1 rejoin JOIN #b",
            "5 show 1.1.1 :me!bouncer@local JOIN #A",
            "5 show 1.1.1 :me!bouncer@local JOIN #AA",
            "5 show 1.1.1 :me!bouncer@local JOIN #b",
            "5 send 1.1.1 NAMES #A",
            "5 send 1.1.1 NAMES #AA",
            "5 send 1.1.1 NAMES #b",
            "5 done 1.1.1 1",
            "6 rejoin JOIN #A",
            "6 rejoin JOIN #AA",
            "6 rejoin JOIN #b",
        ],
        ..PLAIN
    },
    // One client at a time in one run.
    Case {
        in_one_run: true,
        many_clients: false,
        bodies: &[
            Said::Attach(1),
            Said::Attach(2),
            Said::Heard(0, ":a!b@c PRIVMSG #x :hi"),
            Said::Play(1),
        ],
        want: &[
            "0 done 1.1.1 1",
            "0 close 1.1.1",
            "0 done 1.1.2 1",
            "0 show 1.1.2 :a!b@c PRIVMSG #x :hi",
            "0 close 1.1.1",
            "0 done 1.1.1 2",
        ],
        ..PLAIN
    },
    // Nothing comes of no bodies.
    Case {
        in_one_run: true,
        bodies: &[],
        want: &[],
        ..PLAIN
    },
];
