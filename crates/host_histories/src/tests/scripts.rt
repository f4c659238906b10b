//! The scripts of an account, given once.
use super::fixture::{Currency, Opening, Planned};
use super::table::{APPROVED, DECLINED, History, Turn};

/// Accounts with scripts.
pub const SCRIPTS: [History; 8] = [
    // Scripts before and after, given once; a presentment three times.
    History {
        accounts: &[Opening {
            pan: "476173900101002",
            currency: Currency::Euro,
            balance: 999_999_999_999,
            blocked: false,
            pin: Some("2916"),
            scripts: &[
                Planned {
                    before: false,
                    id: None,
                    commands: &["card_block", "amount 0", "pin 779998144757"],
                },
                Planned {
                    before: true,
                    id: Some([0x4a, 0x4f, 0x8f, 0xac]),
                    commands: &["count 255", "amount 5000", "pin_unblock"],
                },
                Planned {
                    before: true,
                    id: Some([0xe5, 0x1d, 0x7d, 0xea]),
                    commands: &["count 9 bad", "amount 0", "pin_unblock"],
                },
            ],
        }],
        turns: &[
            Turn::Says(
                "e16e9f1c087465726d303030305a08476173900101002f5f3401025f24032612319f02060000000000009f03060000000000009f1a020840950580009060005f2a0209789a032406159c01009f37043bee5fb1820218009f3602000c9f2608f3e326358b4339d39f1006018000000f01",
                "e281c78a023030910a0d29e7cdcf0279183030723b860d8416000008537848967f04ee1a861304dadf020e000000000000db107687df44364e861584240002106f7e40859934d5d7603d178173c972a9713b9f18044a4f8fac860e04dadf0109ffce48f23ea1cbc8ad861304dadf020e000000005000d6cb8934d13d2fa8860d8424000008e76a56c85e41e22b713b9f1804e51d7dea860e04dadf0109091fe21c0888696cf8861304dadf020e000000000000db107687df44364e860d8424000008e76a56c85e41e22b",
            ),
            Turn::Again(0),
            Turn::Says(
                "e36c9f1c087465726d303030305a08476173900101002f5f3401029f02060000000000009f03060000000000009f1a020840950580009060205f2a0209789a032406159c01009f37043bee5fb1820218009f3602000c9f26082c80a98dec804e219f1006014000000f018a023030",
                APPROVED,
            ),
            Turn::Again(2),
            Turn::Again(2),
        ],
        balances: &[("476173900101002", 999_999_999_999)],
    },
    // A script before.
    History {
        accounts: &[Opening {
            pan: "4761739001010010",
            currency: Currency::Dollar,
            balance: 100_000,
            blocked: false,
            pin: Some("1234"),
            scripts: &[Planned {
                before: true,
                id: Some([0x00, 0x00, 0x00, 0x01]),
                commands: &["count 9", "block bad", "unblock"],
            }],
        }],
        turns: &[
            Turn::Says(
                "e16e9f1c085445524d303030315a0847617390010100105f3401015f24032612319f02060000000025009f03060000000000009f1a020840950580000000005f2a0208409a032406159c01009f37040102030482021c009f3602000b9f2608204bb40db680038e9f1006018000000301",
                "e2478a023030910a0e66769950e1f3be303071359f180400000001860e04dadf01090935c47f63c1704132860d841e000008c8f7aeabb5b88aa3860d84180000088aa326cee53f1516",
            ),
            Turn::Says(
                "e36c9f1c085445524d303030315a0847617390010100105f3401019f02060000000025009f03060000000000009f1a020840950580000000205f2a0208409a032406159c01009f37040102030482021c009f3602000b9f2608aeeb602c93d476409f10060140000003018a023030",
                APPROVED,
            ),
        ],
        balances: &[("4761739001010010", 97_500)],
    },
    // A new PIN after; the next request gets no script.
    History {
        accounts: &[Opening {
            pan: "4761739001010010",
            currency: Currency::Dollar,
            balance: 100_000,
            blocked: false,
            pin: Some("1234"),
            scripts: &[Planned {
                before: false,
                id: None,
                commands: &["pin 9876"],
            }],
        }],
        turns: &[
            Turn::Says(
                "e16e9f1c085445524d303030315a0847617390010100105f3401015f24032612319f02060000000025009f03060000000000009f1a020840950580000000005f2a0208409a032406159c01009f37040102030482021c009f3602000b9f2608204bb40db680038e9f1006018000000301",
                "e2298a023030910a0e66769950e1f3be3030721786158424000210b0869a45da56310b591ffd95cee7feef",
            ),
            Turn::Says(
                "e16e9f1c085445524d303030315a0847617390010100105f3401015f24032612319f02060000000025009f03060000000000009f1a020840950580000000005f2a0208409a032406159c01009f37040102030482021c009f3602000c9f26087058f21f87f87ac59f1006018000000301",
                "e2108a023030910aa01c14305c2460543030",
            ),
            Turn::Says(
                "e36c9f1c085445524d303030315a0847617390010100105f3401019f02060000000025009f03060000000000009f1a020840950580000000005f2a0208409a032406159c01009f37040102030482021c009f3602000b9f26084d89bb8933ef3e9b9f10060140000003018a023030",
                APPROVED,
            ),
            Turn::Says(
                "e36c9f1c085445524d303030315a0847617390010100105f3401019f02060000000025009f03060000000000009f1a020840950580000000005f2a0208409a032406159c01009f37040102030482021c009f3602000c9f2608c6978e4de16233ac9f10060140000003018a023030",
                APPROVED,
            ),
        ],
        balances: &[("4761739001010010", 95_000)],
    },
    // Scripts before, and a reversal.
    History {
        accounts: &[Opening {
            pan: "4761739001012229",
            currency: Currency::Dollar,
            balance: 3000,
            blocked: false,
            pin: Some("286719255600"),
            scripts: &[
                Planned {
                    before: true,
                    id: None,
                    commands: &["unblock", "amount 0", "unblock"],
                },
                Planned {
                    before: true,
                    id: Some([0x32, 0xfa, 0x01, 0x3c]),
                    commands: &["card_block"],
                },
            ],
        }],
        turns: &[
            Turn::Says(
                "e16e9f1c085445524d303030315a0847617390010122295f3401015f24032406159f02060000000000019f03060000000000009f1a020840950580000010005f2a0208409a032406159c01009f37048db73e9782020c009f3602fffe9f26088c77a41ef37de81a9f1006018000000f01",
                "e25d8a023030910a2479daaddba94d2030307133860d84180000085730546475c1ad8a861304dadf020e00000000000076a764032bd5fb67860d84180000085730546475c1ad8a71169f180432fa013c860d8416000008918bf49ff53d5c4f",
            ),
            Turn::Says(
                "e4309f1c085445524d303030315a0847617390010122295f3401019f3602fffe9f02060000000000015f2a0208408a023030",
                APPROVED,
            ),
        ],
        balances: &[("4761739001012229", 3000)],
    },
    // A blocked account gives its scripts with 05.
    History {
        accounts: &[Opening {
            pan: "47617390010100",
            currency: Currency::Dollar,
            balance: 100_000,
            blocked: true,
            pin: Some("5552"),
            scripts: &[
                Planned {
                    before: true,
                    id: None,
                    commands: &["pin_unblock", "pin 612368922412"],
                },
                Planned {
                    before: false,
                    id: None,
                    commands: &["unblock"],
                },
            ],
        }],
        turns: &[
            Turn::Says(
                "e16d9f1c085445524d303030315a07476173900101005f3401025f24032406149f02060000000000019f03060000000000009f1a020978950590408000005f2a0208409a032406159c01009f3704c4f3fb80820218009f3602cc089f26083752bd99c32a3e989f1006018000000301",
                "e2498a023035910aa4c4973256ef76e330357126860d8424000008a441b16a321f93cf86158424000210b823b3c758049d8ef00e62c480c1f0eb720f860d84180000088d2192369d313700",
            ),
            Turn::Says(
                "e16d9f1c085445524d303030315a07476173900101005f3401025f24032406149f02060000000000009f03060000000000009f1a020978950580408000005f2a0208409a032406159c01009f370411b48985820218009f3602cc099f26089efbb348545d9eff9f1006018000000301",
                "e2108a023035910af3d073adfcf4e9d93035",
            ),
            Turn::Says(
                "e16d9f1c085445524d303030315a07476173900101005f3401025f24032406149f02060000000153459f03060000000000009f1a020978950590408000005f2a0208409a032406159c01009f3704a3c9a15e820218009f3602cc0a9f2608fc59cf5176cdf59f9f1006018000000301",
                "e2108a023035910a646434a583ba803e3035",
            ),
        ],
        balances: &[("47617390010100", 100_000)],
    },
    // A request that is declined gives the scripts.
    History {
        accounts: &[Opening {
            pan: "476173900101000",
            currency: Currency::AustralianDollar,
            balance: 0,
            blocked: false,
            pin: Some("5730"),
            scripts: &[Planned {
                before: false,
                id: Some([0xa2, 0x59, 0x13, 0x33]),
                commands: &["unblock"],
            }],
        }],
        turns: &[
            Turn::Says(
                "e16e9f1c085445524d303030315a08476173900101000f5f3401015f24034912319f02060000000100009f03060000000000009f1a020978950590009000005f2a0208409a032406159c01009f370464e0cbe382021c009f3602000b9f2608c7ec86d8ac8ecdc39f1006018000000f01",
                "e2288a023035910aecf45910dcb31523303572169f1804a2591333860d841800000878d0f633d3df2297",
            ),
            Turn::Says(
                "e16e9f1c085445524d303030315a08476173900101000f5f3401015f24034912319f02060000000158479f03060000000000009f1a020978950590009000005f2a0208409a035001019c01009f3704dc12158882021c009f3602000c9f2608ea65bcea2463f90d9f1006018000000f01",
                "e2108a023035910abfc6a77899b32ecd3035",
            ),
            Turn::Says(
                "e16e9f1c085445524d303030315a08476173900101000f5f3401015f24034912319f02060000000024999f03060000000000009f1a020978950590009000005f2a0200369a035001019c01009f37041770df5f82021c009f3602000e9f26085c40cdbece46a1259f1006018000000f01",
                "e2108a023531910a7508d6943ff82a2d3531",
            ),
            Turn::Says(
                "e4309f1c085445524d303030315a08476173900101000f5f3401019f3602000d9f02060000000094085f2a0208408a025a33",
                APPROVED,
            ),
        ],
        balances: &[("476173900101000", 0)],
    },
    // Other bytes under one transaction, and the scripts once.
    History {
        accounts: &[Opening {
            pan: "4761739001010010",
            currency: Currency::Dollar,
            balance: 100_000,
            blocked: false,
            pin: Some("1234"),
            scripts: &[
                Planned {
                    before: false,
                    id: None,
                    commands: &["pin 9876"],
                },
                Planned {
                    before: true,
                    id: Some([0x00, 0x00, 0x00, 0x01]),
                    commands: &[
                        "count 9",
                        "amount 20000 bad",
                        "block",
                        "unblock",
                        "card_block",
                        "pin_unblock",
                    ],
                },
            ],
        }],
        turns: &[
            Turn::Says(
                "e16e9f1c085445524d303030315a0847617390010100105f3401015f24032612319f02060000000025009f03060000000000009f1a020840950580000000005f2a0208409a032406159c01009f37040102030482021c009f3602000b9f2608204bb40db680038e9f1006018000000301",
                "e281938a023030910a0e66769950e1f3be3030721786158424000210b0869a45da56310b591ffd95cee7feef71689f180400000001860e04dadf01090935c47f63c1704132861304dadf020e000000020000c8938eff9864f817860d841e000008c8f7aeabb5b88a5c860d84180000088aa326cee53f1516860d8416000008fc25e7bbf0a5e829860d84240000081561db40dd9b88c2",
            ),
            // another amount
            Turn::Says(
                "e16e9f1c085445524d303030315a0847617390010100105f3401015f24032612319f02060000000026009f03060000000000009f1a020840950580000000005f2a0208409a032406159c01009f37040102030482021c009f3602000b9f2608dd464569216701729f1006018000000301",
                DECLINED,
            ),
            Turn::Again(0),
            // the next transaction
            Turn::Says(
                "e16e9f1c085445524d303030315a0847617390010100105f3401015f24032612319f02060000000025009f03060000000000009f1a020840950580000000005f2a0208409a032406159c01009f37040102030482021c009f3602000c9f26087058f21f87f87ac59f1006018000000301",
                "e2108a023030910aa01c14305c2460543030",
            ),
            Turn::Says(
                "e36c9f1c085445524d303030315a0847617390010100105f3401019f02060000000025009f03060000000000009f1a020840950580000000005f2a0208409a032406159c01009f37040102030482021c009f3602000b9f2608204bb40db680038e9f10060180000003018a025931",
                APPROVED,
            ),
            Turn::Says(
                "e36c9f1c085445524d303030315a0847617390010100105f3401019f02060000000024009f03060000000000009f1a020840950580000000005f2a0208409a032406159c01009f37040102030482021c009f3602000b9f2608a42ac32538c1ef119f10060180000003018a025931",
                DECLINED,
            ),
            Turn::Again(4),
            // a booked transaction is not released
            Turn::Says(
                "e4309f1c085445524d303030315a0847617390010100105f3401019f3602000b9f02060000000025005f2a0208408a025a33",
                DECLINED,
            ),
            Turn::Says(
                "e4309f1c085445524d303030315a0847617390010100105f3401019f3602000b9f02060000000025005f2a0208408a025a31",
                DECLINED,
            ),
            Turn::Again(7),
        ],
        balances: &[("4761739001010010", 95_000)],
    },
    // A cryptogram that isn't the card's is answered 05 alone; the account's script goes with the first reply that
    // authenticates the issuer, which is the next one.
    History {
        accounts: &[Opening {
            pan: "4761739001010010",
            currency: Currency::Dollar,
            balance: 3000,
            blocked: false,
            pin: None,
            scripts: &[Planned {
                before: true,
                id: None,
                commands: &["block"],
            }],
        }],
        turns: &[
            Turn::Says(
                "e16e9f1c085445524d303030315a0847617390010100105f3401015f24032612319f02060000000025009f03060000000000009f1a020840950580000000005f2a0208409a032406159c01009f37040102030482021c009f3602000a9f260800000000000000009f1006018000000301",
                DECLINED,
            ),
            Turn::Says(
                "e16e9f1c085445524d303030315a0847617390010100105f3401015f24032612319f02060000000025009f03060000000000009f1a020840950580000000005f2a0208409a032406159c01009f37040102030482021c009f3602000b9f2608204bb40db680038e9f1006018000000301",
                "e2218a023030910a0e66769950e1f3be3030710f860d841e000008c8f7aeabb5b88a5c",
            ),
        ],
        balances: &[("4761739001010010", 500)],
    },
];
