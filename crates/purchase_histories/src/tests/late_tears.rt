//! Cards that are pulled out once the PIN is verified, or at the first cryptogram.
use super::document::WITH_FIRST_CARD;
use super::table::History;

/// Cuts from the verified PIN on.
pub const LATE_TEARS: [History; 10] = [
    // The verified PIN: cut before its first write.
    History {
        changes: &[(
            "word = 49",
            "word = 49\ntear = { commit = 3, at = \"before\", write = 1 }",
        )],
        more: &[WITH_FIRST_CARD],
        told: "L0 power c1 10,9,0,0,3,0
L0 end 1 cut verify
L0 power c1 11,9,0,0,2,0
L0 end 2 approved offline
S0 < e2048a023030
A c1 power 12,9,1,2500,3,0
balance 4761739001010010 97500
done 2
",
        counts: [1, 0, 1, 17],
        marks: [7, 0],
        stored: 0,
    },
    // The verified PIN: cut within the list of its pages.
    History {
        changes: &[(
            "word = 49",
            "word = 49\ntear = { commit = 3, at = \"within\", write = 2 }",
        )],
        more: &[WITH_FIRST_CARD],
        told: "L0 power c1 10,9,0,0,3,0
L0 end 1 cut verify
L0 power c1 11,9,0,0,2,0
L0 end 2 approved offline
S0 < e2048a023030
A c1 power 12,9,1,2500,3,0
balance 4761739001010010 97500
done 2
",
        counts: [1, 0, 1, 17],
        marks: [7, 0],
        stored: 0,
    },
    // The verified PIN: cut within the gate.
    History {
        changes: &[(
            "word = 49",
            "word = 49\ntear = { commit = 3, at = \"within\", write = 3 }",
        )],
        more: &[WITH_FIRST_CARD],
        told: "L0 power c1 10,9,0,0,3,0
L0 end 1 cut verify
L0 power c1 11,9,0,0,2,0
L0 end 2 approved offline
S0 < e2048a023030
A c1 power 12,9,1,2500,3,0
balance 4761739001010010 97500
done 2
",
        counts: [1, 0, 1, 17],
        marks: [7, 0],
        stored: 0,
    },
    // The verified PIN: cut within the page behind the gate.
    History {
        changes: &[(
            "word = 49",
            "word = 49\ntear = { commit = 3, at = \"within\", write = 4 }",
        )],
        more: &[WITH_FIRST_CARD],
        told: "L0 power c1 10,9,0,0,3,0
L0 end 1 cut verify
L0 power c1 11,9,0,0,3,0
L0 end 2 approved offline
S0 < e2048a023030
A c1 power 12,9,1,2500,3,0
balance 4761739001010010 97500
done 2
",
        counts: [1, 0, 1, 17],
        marks: [7, 0],
        stored: 0,
    },
    // The verified PIN: kept, and its answer cut.
    History {
        changes: &[(
            "word = 49",
            "word = 49\ntear = { commit = 3, at = \"release\" }",
        )],
        more: &[WITH_FIRST_CARD],
        told: "L0 power c1 10,9,0,0,3,0
L0 end 1 cut verify
L0 power c1 11,9,0,0,3,0
L0 end 2 approved offline
S0 < e2048a023030
A c1 power 12,9,1,2500,3,0
balance 4761739001010010 97500
done 2
",
        counts: [1, 0, 1, 17],
        marks: [7, 0],
        stored: 0,
    },
    // The first cryptogram: cut before its first write.
    History {
        changes: &[(
            "word = 49",
            "word = 49\ntear = { commit = 4, at = \"before\", write = 1 }",
        )],
        more: &[WITH_FIRST_CARD],
        told: "L0 power c1 10,9,0,0,3,0
L0 end 1 cut first
L0 power c1 11,9,0,0,3,0
L0 end 2 approved offline
S0 < e2048a023030
A c1 power 12,9,1,2500,3,0
balance 4761739001010010 97500
done 2
",
        counts: [1, 0, 1, 20],
        marks: [8, 0],
        stored: 0,
    },
    // The first cryptogram: cut within the list of its pages.
    History {
        changes: &[(
            "word = 49",
            "word = 49\ntear = { commit = 4, at = \"within\", write = 2 }",
        )],
        more: &[WITH_FIRST_CARD],
        told: "L0 power c1 10,9,0,0,3,0
L0 end 1 cut first
L0 power c1 11,9,0,0,3,0
L0 end 2 approved offline
S0 < e2048a023030
A c1 power 12,9,1,2500,3,0
balance 4761739001010010 97500
done 2
",
        counts: [1, 0, 1, 20],
        marks: [8, 0],
        stored: 0,
    },
    // The first cryptogram: cut within the gate.
    History {
        changes: &[(
            "word = 49",
            "word = 49\ntear = { commit = 4, at = \"within\", write = 3 }",
        )],
        more: &[WITH_FIRST_CARD],
        told: "L0 power c1 10,9,0,0,3,0
L0 end 1 cut first
L0 power c1 11,9,0,0,3,0
L0 end 2 approved offline
S0 < e2048a023030
A c1 power 12,9,1,2500,3,0
balance 4761739001010010 97500
done 2
",
        counts: [1, 0, 1, 20],
        marks: [8, 0],
        stored: 0,
    },
    // The first cryptogram: cut within the page behind the gate.
    History {
        changes: &[(
            "word = 49",
            "word = 49\ntear = { commit = 4, at = \"within\", write = 4 }",
        )],
        more: &[WITH_FIRST_CARD],
        told: "L0 power c1 10,9,0,0,3,0
L0 end 1 cut first
L0 power c1 11,9,1,2500,3,0
L0 end 2 approved offline
S0 < e2048a023030
A c1 power 12,9,2,5000,3,0
balance 4761739001010010 97500
done 2
",
        counts: [1, 0, 1, 20],
        marks: [8, 0],
        stored: 0,
    },
    // The first cryptogram: kept, and its answer cut.
    History {
        changes: &[(
            "word = 49",
            "word = 49\ntear = { commit = 4, at = \"release\" }",
        )],
        more: &[WITH_FIRST_CARD],
        told: "L0 power c1 10,9,0,0,3,0
L0 end 1 cut first
L0 power c1 11,9,1,2500,3,0
L0 end 2 approved offline
S0 < e2048a023030
A c1 power 12,9,2,5000,3,0
balance 4761739001010010 97500
done 2
",
        counts: [1, 0, 1, 20],
        marks: [8, 0],
        stored: 0,
    },
];
