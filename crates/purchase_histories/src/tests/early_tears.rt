//! Cards that are pulled out at their power-up, at their counter or at a PIN try.
use super::document::WITH_FIRST_CARD;
use super::table::History;

/// Cuts before the PIN is verified.
pub const EARLY_TEARS: [History; 12] = [
    // The repair of the first power-up is cut.
    History {
        changes: &[(
            "word = 49",
            "word = 49\ntear = { commit = 0, at = \"before\", write = 1 }",
        )],
        more: &[WITH_FIRST_CARD],
        told: "L0 power c1 torn
L0 end 1 cut power
L0 power c1 10,9,0,0,3,0
L0 end 2 approved offline
S0 < e2048a023030
A c1 power 11,9,1,2500,3,0
balance 4761739001010010 97500
done 2
",
        counts: [1, 0, 1, 11],
        marks: [4, 0],
        stored: 0,
    },
    // The first power-up is cut at its end.
    History {
        changes: &[(
            "word = 49",
            "word = 49\ntear = { commit = 0, at = \"release\" }",
        )],
        more: &[WITH_FIRST_CARD],
        told: "L0 power c1 torn
L0 end 1 cut power
L0 power c1 10,9,0,0,3,0
L0 end 2 approved offline
S0 < e2048a023030
A c1 power 11,9,1,2500,3,0
balance 4761739001010010 97500
done 2
",
        counts: [1, 0, 1, 11],
        marks: [4, 0],
        stored: 0,
    },
    // The counter: cut before its first write.
    History {
        changes: &[(
            "word = 49",
            "word = 49\ntear = { commit = 1, at = \"before\", write = 1 }",
        )],
        more: &[WITH_FIRST_CARD],
        told: "L0 power c1 10,9,0,0,3,0
L0 end 1 cut initiate
L0 power c1 10,9,0,0,3,0
L0 end 2 approved offline
S0 < e2048a023030
A c1 power 11,9,1,2500,3,0
balance 4761739001010010 97500
done 2
",
        counts: [1, 0, 1, 13],
        marks: [5, 0],
        stored: 0,
    },
    // The counter: cut within the list of its pages.
    History {
        changes: &[(
            "word = 49",
            "word = 49\ntear = { commit = 1, at = \"within\", write = 2 }",
        )],
        more: &[WITH_FIRST_CARD],
        told: "L0 power c1 10,9,0,0,3,0
L0 end 1 cut initiate
L0 power c1 10,9,0,0,3,0
L0 end 2 approved offline
S0 < e2048a023030
A c1 power 11,9,1,2500,3,0
balance 4761739001010010 97500
done 2
",
        counts: [1, 0, 1, 13],
        marks: [5, 0],
        stored: 0,
    },
    // The counter: cut within the gate.
    History {
        changes: &[(
            "word = 49",
            "word = 49\ntear = { commit = 1, at = \"within\", write = 3 }",
        )],
        more: &[WITH_FIRST_CARD],
        told: "L0 power c1 10,9,0,0,3,0
L0 end 1 cut initiate
L0 power c1 10,9,0,0,3,0
L0 end 2 approved offline
S0 < e2048a023030
A c1 power 11,9,1,2500,3,0
balance 4761739001010010 97500
done 2
",
        counts: [1, 0, 1, 13],
        marks: [5, 0],
        stored: 0,
    },
    // The counter: cut within the page behind the gate.
    History {
        changes: &[(
            "word = 49",
            "word = 49\ntear = { commit = 1, at = \"within\", write = 4 }",
        )],
        more: &[WITH_FIRST_CARD],
        told: "L0 power c1 10,9,0,0,3,0
L0 end 1 cut initiate
L0 power c1 11,9,0,0,3,0
L0 end 2 approved offline
S0 < e2048a023030
A c1 power 12,9,1,2500,3,0
balance 4761739001010010 97500
done 2
",
        counts: [1, 0, 1, 13],
        marks: [5, 0],
        stored: 0,
    },
    // The counter: kept, and its answer cut.
    History {
        changes: &[(
            "word = 49",
            "word = 49\ntear = { commit = 1, at = \"release\" }",
        )],
        more: &[WITH_FIRST_CARD],
        told: "L0 power c1 10,9,0,0,3,0
L0 end 1 cut initiate
L0 power c1 11,9,0,0,3,0
L0 end 2 approved offline
S0 < e2048a023030
A c1 power 12,9,1,2500,3,0
balance 4761739001010010 97500
done 2
",
        counts: [1, 0, 1, 13],
        marks: [5, 0],
        stored: 0,
    },
    // The PIN try: cut before its first write.
    History {
        changes: &[(
            "word = 49",
            "word = 49\ntear = { commit = 2, at = \"before\", write = 1 }",
        )],
        more: &[WITH_FIRST_CARD],
        told: "L0 power c1 10,9,0,0,3,0
L0 end 1 cut verify
L0 power c1 11,9,0,0,3,0
L0 end 2 approved offline
S0 < e2048a023030
A c1 power 12,9,1,2500,3,0
balance 4761739001010010 97500
done 2
",
        counts: [1, 0, 1, 17],
        marks: [6, 0],
        stored: 0,
    },
    // The PIN try: cut within the list of its pages.
    History {
        changes: &[(
            "word = 49",
            "word = 49\ntear = { commit = 2, at = \"within\", write = 2 }",
        )],
        more: &[WITH_FIRST_CARD],
        told: "L0 power c1 10,9,0,0,3,0
L0 end 1 cut verify
L0 power c1 11,9,0,0,3,0
L0 end 2 approved offline
S0 < e2048a023030
A c1 power 12,9,1,2500,3,0
balance 4761739001010010 97500
done 2
",
        counts: [1, 0, 1, 17],
        marks: [6, 0],
        stored: 0,
    },
    // The PIN try: cut within the gate.
    History {
        changes: &[(
            "word = 49",
            "word = 49\ntear = { commit = 2, at = \"within\", write = 3 }",
        )],
        more: &[WITH_FIRST_CARD],
        told: "L0 power c1 10,9,0,0,3,0
L0 end 1 cut verify
L0 power c1 11,9,0,0,3,0
L0 end 2 approved offline
S0 < e2048a023030
A c1 power 12,9,1,2500,3,0
balance 4761739001010010 97500
done 2
",
        counts: [1, 0, 1, 17],
        marks: [6, 0],
        stored: 0,
    },
    // The PIN try: cut within the page behind the gate.
    History {
        changes: &[(
            "word = 49",
            "word = 49\ntear = { commit = 2, at = \"within\", write = 4 }",
        )],
        more: &[WITH_FIRST_CARD],
        told: "L0 power c1 10,9,0,0,3,0
L0 end 1 cut verify
L0 power c1 11,9,0,0,2,0
L0 end 2 approved offline
S0 < e2048a023030
A c1 power 12,9,1,2500,3,0
balance 4761739001010010 97500
done 2
",
        counts: [1, 0, 1, 17],
        marks: [6, 0],
        stored: 0,
    },
    // The PIN try: kept, and its answer cut.
    History {
        changes: &[(
            "word = 49",
            "word = 49\ntear = { commit = 2, at = \"release\" }",
        )],
        more: &[WITH_FIRST_CARD],
        told: "L0 power c1 10,9,0,0,3,0
L0 end 1 cut verify
L0 power c1 11,9,0,0,2,0
L0 end 2 approved offline
S0 < e2048a023030
A c1 power 12,9,1,2500,3,0
balance 4761739001010010 97500
done 2
",
        counts: [1, 0, 1, 17],
        marks: [6, 0],
        stored: 0,
    },
];
