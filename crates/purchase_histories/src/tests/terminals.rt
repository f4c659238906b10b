//! Terminals with their logs and their stores of captures.
use super::document::{LANE, PURCHASE, Part, SECOND_CARD, SECOND_LANE, WITH_SECOND_CARD};
use super::table::History;

/// A terminal without a purchase.
const IDLE_LANE: Part = Part {
    text: LANE,
    changes: &[("\"TERM0001\"", "\"TERM0001\"\npurchase = []")],
};

/// Terminals that keep what they captured.
pub const TERMINALS: [History; 6] = [
    // An approval online is in the terminal's log too: with it the second amount is at the floor limit, for which
    // the terminal's code declines.
    History {
        changes: &[
            ("count_limit = 5", "count_limit = 0"),
            ("denial = \"0010000000\"", "denial = \"0010008000\""),
            ("amount = 2500", "amount = 6000"),
        ],
        more: &[Part {
            text: PURCHASE,
            changes: &[("amount = 2500", "amount = 4500")],
        }],
        told: "L0 power c1 10,9,0,0,3,0
L0 end 1 approved online
L0 power c1 11,11,0,0,3,0
L0 end 2 declined offline
S0 < e2048a023030
A c1 power 12,11,0,0,3,0
balance 4761739001010010 94000
done 2
",
        counts: [1, 1, 0, 23],
        marks: [10, 0],
        stored: 0,
    },
    // The eleventh terminal is lane 10.
    History {
        changes: &[],
        more: &[
            SECOND_CARD,
            IDLE_LANE,
            IDLE_LANE,
            IDLE_LANE,
            IDLE_LANE,
            IDLE_LANE,
            IDLE_LANE,
            IDLE_LANE,
            IDLE_LANE,
            IDLE_LANE,
            SECOND_LANE,
            WITH_SECOND_CARD,
        ],
        told: "L0 power c1 10,9,0,0,3,0
L10 power c2 10,9,0,0,3,0
L0 end 1 approved offline
L10 end 1 approved online
S0 < e2048a023030
S10 < e2048a023030
A c1 power 11,9,1,2500,3,0
A c2 power 11,11,0,0,3,0
balance 4761739001010010 95000
done 2
",
        counts: [2, 0, 0, 23],
        marks: [4, 6],
        stored: 0,
    },
    // The base payment at a terminal that keeps its capture on torn memory, and drops it behind the settlement.
    History {
        changes: &[("\"TERM0001\"", "\"TERM0001\"\ndurable = true")],
        more: &[],
        told: "L0 power c1 10,9,0,0,3,0
L0 end 1 approved offline
S0 < e2048a023030
A c1 power 11,9,1,2500,3,0
balance 4761739001010010 97500
done 1
",
        counts: [1, 0, 0, 10],
        marks: [4, 0],
        stored: 2,
    },
    // Its terminal loses its power before the first write: nothing is captured.
    History {
        changes: &[
            ("\"TERM0001\"", "\"TERM0001\"\ndurable = true"),
            (
                "word = 49",
                "word = 49\nterminal_tear = { commit = 1, at = \"before\", write = 1 }",
            ),
        ],
        more: &[],
        told: "L0 power c1 10,9,0,0,3,0
L0 end 1 lost
A c1 power 11,9,1,2500,3,0
balance 4761739001010010 100000
done 1
",
        counts: [1, 0, 0, 10],
        marks: [4, 0],
        stored: 1,
    },
    // And behind the last one: what was captured goes to the settlement.
    History {
        changes: &[
            ("\"TERM0001\"", "\"TERM0001\"\ndurable = true"),
            (
                "word = 49",
                "word = 49\nterminal_tear = { commit = 1, at = \"release\" }",
            ),
        ],
        more: &[],
        told: "L0 power c1 10,9,0,0,3,0
L0 end 1 lost
S0 < e2048a023030
A c1 power 11,9,1,2500,3,0
balance 4761739001010010 97500
done 1
",
        counts: [1, 0, 0, 10],
        marks: [4, 0],
        stored: 2,
    },
    // Its store is never opened: the card isn't powered up.
    History {
        changes: &[
            ("\"TERM0001\"", "\"TERM0001\"\ndurable = true"),
            (
                "word = 49",
                "word = 49\nterminal_tear = { commit = 0, at = \"release\" }",
            ),
        ],
        more: &[],
        told: "L0 end 1 lost
A c1 power 10,9,0,0,3,0
balance 4761739001010010 100000
done 1
",
        counts: [0, 0, 0, 0],
        marks: [0, 0],
        stored: 0,
    },
];
