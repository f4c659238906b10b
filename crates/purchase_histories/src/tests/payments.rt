//! Payments at one terminal or two, whose messages may be lost, and their PINs.
use super::document::{SECOND_CARD, SECOND_LANE, WITH_FIRST_CARD, WITH_SECOND_CARD};
use super::table::History;

/// Payments that are not cut.
pub const PAYMENTS: [History; 12] = [
    // The base payment.
    History {
        changes: &[],
        more: &[],
        told: "L0 power c1 10,9,0,0,3,0
L0 end 1 approved offline
S0 < e2048a023030
A c1 power 11,9,1,2500,3,0
balance 4761739001010010 97500
done 1
",
        counts: [1, 0, 0, 10],
        marks: [4, 0],
        stored: 0,
    },
    // Two terminals and two cards of one account, in rounds.
    History {
        changes: &[
            ("balance = 100000", "balance = 3000"),
            ("count_limit = 5", "count_limit = 0"),
        ],
        more: &[SECOND_CARD, SECOND_LANE, WITH_SECOND_CARD],
        told: "L0 power c1 10,9,0,0,3,0
L1 power c2 10,9,0,0,3,0
L0 end 1 approved online
L1 end 1 declined online
S0 < e2048a023030
A c1 power 11,11,0,0,3,0
A c2 power 11,11,0,0,3,0
balance 4761739001010010 500
done 2
",
        counts: [1, 1, 0, 26],
        marks: [6, 6],
        stored: 0,
    },
    // The second terminal comes first.
    History {
        changes: &[
            (
                "\n[issuer]",
                "schedule = [1, 1, 1, 1, 1, 1, 1, 1, 1, 1, 1, 1, 1, 1, 1, 1, 1, 1, 1, 1]\n[issuer]",
            ),
            ("balance = 100000", "balance = 3000"),
            ("count_limit = 5", "count_limit = 0"),
        ],
        more: &[SECOND_CARD, SECOND_LANE, WITH_SECOND_CARD],
        told: "L1 power c2 10,9,0,0,3,0
L1 end 1 approved online
L0 power c1 10,9,0,0,3,0
L0 end 1 declined online
S1 < e2048a023030
A c1 power 11,11,0,0,3,0
A c2 power 11,11,0,0,3,0
balance 4761739001010010 500
done 2
",
        counts: [1, 1, 0, 26],
        marks: [6, 6],
        stored: 0,
    },
    // A card that two terminals want.
    History {
        changes: &[],
        more: &[SECOND_LANE, WITH_FIRST_CARD],
        told: "L0 power c1 10,9,0,0,3,0
L0 end 1 approved offline
L1 power c1 11,9,1,2500,3,0
L1 end 1 approved offline
S0 < e2048a023030
S1 < e2048a023030
A c1 power 12,9,2,5000,3,0
balance 4761739001010010 95000
done 2
",
        counts: [2, 0, 0, 20],
        marks: [8, 0],
        stored: 0,
    },
    // The issuer is asked.
    History {
        changes: &[("count_limit = 5", "count_limit = 0")],
        more: &[],
        told: "L0 power c1 10,9,0,0,3,0
L0 end 1 approved online
S0 < e2048a023030
A c1 power 11,11,0,0,3,0
balance 4761739001010010 97500
done 1
",
        counts: [1, 0, 0, 13],
        marks: [6, 0],
        stored: 0,
    },
    // The request is lost.
    History {
        changes: &[
            ("count_limit = 5", "count_limit = 0"),
            ("word = 49", "word = 49\nlink = \"request_lost\""),
        ],
        more: &[],
        told: "L0 power c1 10,9,0,0,3,0
L0 end 1 declined offline
S0 < e2048a023030
A c1 power 11,9,0,0,3,0
balance 4761739001010010 100000
done 1
",
        counts: [0, 1, 0, 12],
        marks: [5, 0],
        stored: 0,
    },
    // The reply is lost.
    History {
        changes: &[
            ("count_limit = 5", "count_limit = 0"),
            ("word = 49", "word = 49\nlink = \"reply_lost\""),
        ],
        more: &[],
        told: "L0 power c1 10,9,0,0,3,0
L0 end 1 declined offline
S0 < e2048a023030
A c1 power 11,9,0,0,3,0
balance 4761739001010010 100000
done 1
",
        counts: [0, 1, 0, 12],
        marks: [5, 0],
        stored: 0,
    },
    // The request arrives twice.
    History {
        changes: &[
            ("count_limit = 5", "count_limit = 0"),
            ("word = 49", "word = 49\nlink = \"twice\""),
        ],
        more: &[],
        told: "L0 power c1 10,9,0,0,3,0
L0 end 1 approved online
S0 < e2048a023030
A c1 power 11,11,0,0,3,0
balance 4761739001010010 97500
done 1
",
        counts: [1, 0, 0, 13],
        marks: [6, 0],
        stored: 0,
    },
    // Each settlement message is sent three times.
    History {
        changes: &[("\n[issuer]", "copies = 3\n[issuer]")],
        more: &[],
        told: "L0 power c1 10,9,0,0,3,0
L0 end 1 approved offline
S0 < e2048a023030
S0 < e2048a023030
S0 < e2048a023030
A c1 power 11,9,1,2500,3,0
balance 4761739001010010 97500
done 1
",
        counts: [1, 0, 0, 10],
        marks: [4, 0],
        stored: 0,
    },
    // The same where the issuer was asked.
    History {
        changes: &[
            ("\n[issuer]", "copies = 3\n[issuer]"),
            ("count_limit = 5", "count_limit = 0"),
        ],
        more: &[],
        told: "L0 power c1 10,9,0,0,3,0
L0 end 1 approved online
S0 < e2048a023030
S0 < e2048a023030
S0 < e2048a023030
A c1 power 11,11,0,0,3,0
balance 4761739001010010 97500
done 1
",
        counts: [1, 0, 0, 13],
        marks: [6, 0],
        stored: 0,
    },
    // A card without a PIN whose tries are 0 answers VERIFY as one without a PIN, 6A88, which isn't the answer of
    // a card whose tries are used up: the signature verifies, and the terminal needn't go online.
    History {
        changes: &[("pin = \"1234\"\ntries = 3", "tries = 0")],
        more: &[],
        told: "L0 power c1 10,9,0,0,0,0
L0 end 1 approved offline
S0 < e2048a023030
A c1 power 11,9,1,2500,0,0
balance 4761739001010010 97500
done 1
",
        counts: [1, 0, 0, 10],
        marks: [2, 0],
        stored: 0,
    },
    // The PIN is wrong once, and PIN UNBLOCK restores the five tries of the card.
    History {
        changes: &[
            (
                "balance = 100000\npin = \"1234\"\n",
                "balance = 100000\npin = \"1234\"\n\n[[account.scripts]]\nwhen = \"before\"\ncommands = [\"pin_unblock\"]\n",
            ),
            ("tries = 3", "tries = 5"),
            ("pins = [\"1234\"]", "pins = [\"1111\"]"),
        ],
        more: &[],
        told: "L0 power c1 10,9,0,0,5,0
L0 end 1 approved online
S0 < e2048a023030
A c1 power 11,11,0,0,5,0
balance 4761739001010010 97500
done 1
",
        counts: [1, 0, 0, 14],
        marks: [6, 0],
        stored: 0,
    },
];
