//! The parts of a document.

/// A part, of which some texts are others.
#[derive(Clone, Copy)]
pub struct Part {
    pub text: &'static str,
    pub changes: &'static [(&'static str, &'static str)],
}

/// The issuer and an account with 1,000.00.
pub const ISSUER: &str = r#"
[issuer]
ac_key = "0123456789ABCDEFFEDCBA9876543210"
mac_key = "23456789ABCDEF01DCBA9876543210FE"
enc_key = "456789ABCDEF0123BA9876543210FEDC"
pin_key = "6789ABCDEF0123459876543210FEDCBA"

[[account]]
pan = "4761739001010010"
currency = "840"
balance = 100000
pin = "1234"

"#;

/// A card of the account, with one application.
pub const CARD: &str = r#"[[card]]
name = "c1"

[[card.app]]
name = "A0000000031010"
label = "CREDIT"
priority = 1
aip = "1C00"
afl = "08010300"
cdol1 = "9F02069F03069F1A0295055F2A029A039C019F3704"
cdol2 = "8A029F02069F03069F1A0295055F2A029A039C019F3704"
pan = "4761739001010010"
sequence = 1
currency = "840"
counter = 10
last_online = 9
count_limit = 5
sum_limit = 20000
pin = "1234"
tries = 3

[[card.app.record]]
sfi = 1
number = 1
bytes = "702E5A0847617390010100105F3401015F24032612315F25032401015F280208409F420208409F0702FF009F08020096"

[[card.app.record]]
sfi = 1
number = 2
bytes = "70308C159F02069F03069F1A0295055F2A029A039C019F37048D178A029F02069F03069F1A0295055F2A029A039C019F3704"

[[card.app.record]]
sfi = 1
number = 3
bytes = "70308E0E000000000000000041035E031F009F0D057068BCF8009F0E0500100000009F0F057068BC98009F1401059F230109"

"#;

/// A terminal.
pub const LANE: &str = r#"[[lane]]
kind = 22
country = "840"
caps = "E0B8C8"
id = "TERM0001"

[[lane.aid]]
name = "A0000000031010"
version = "0096"
denial = "0010000000"
online = "7068BC9800"
default = "7068BCF800"
floor = 10000
threshold = 5000
target = 10
max_target = 50

"#;

/// A purchase of 25.00.
pub const PURCHASE: &str = r#"[[lane.purchase]]
card = "c1"
amount = 2500
currency = "840"
date = "240615"
time = "120000"
number = 16909060
word = 49
pins = ["1234"]
"#;

/// A second card of the account, which always asks the issuer.
pub const SECOND_CARD: Part = Part {
    text: CARD,
    changes: &[
        ("\"c1\"", "\"c2\""),
        ("sequence = 1", "sequence = 2"),
        ("count_limit = 5", "count_limit = 0"),
        ("5F340101", "5F340102"),
    ],
};

/// A second terminal.
pub const SECOND_LANE: Part = Part {
    text: LANE,
    changes: &[("TERM0001", "TERM0002")],
};

/// A purchase with the second card.
pub const WITH_SECOND_CARD: Part = Part {
    text: PURCHASE,
    changes: &[("\"c1\"", "\"c2\"")],
};

/// Another purchase with the first card.
pub const WITH_FIRST_CARD: Part = Part {
    text: PURCHASE,
    changes: &[],
};
