//! Histories of hosts whose accounts authenticate the issuer by method 2, with the replies of an independent
//! implementation.
use super::fixture::{Currency, Opening, Planned};
use super::table::{APPROVED, History, Turn};

/// A history, and the status of its accounts.
#[derive(Clone, Copy)]
pub struct ByStatus {
    pub status: u8,
    pub history: History,
}

pub const HISTORIES_BY_METHOD_TWO: [ByStatus; 5] = [
    // Code 00: approved, and the totals are reset.
    ByStatus {
        status: 0,
        history: History {
            accounts: &[Opening {
                pan: "4761739001010010",
                currency: Currency::Dollar,
                balance: 100_000,
                blocked: false,
                pin: Some("1234"),
                scripts: &[],
            }],
            turns: &[
                Turn::Says(
                    "e16e9f1c085445524d303030315a0847617390010100105f3401015f24032612319f02060000000025009f03060000000000009f1a020840950580000000005f2a0208409a032406159c01009f37040102030482021c009f3602000b9f2608204bb40db680038e9f1006018000000301",
                    "e20e8a02303091088ea4806180800000",
                ),
                Turn::Again(0),
                Turn::Says(
                    "e36c9f1c085445524d303030315a0847617390010100105f3401019f02060000000025009f03060000000000009f1a020840950580000000005f2a0208409a032406159c01009f37040102030482021c009f3602000b9f26084d89bb8933ef3e9b9f10060140000003018a023030",
                    APPROVED,
                ),
            ],
            balances: &[("4761739001010010", 97_500)],
        },
    },
    // Code 51: no bit is set. A payment that was approved offline comes behind it.
    ByStatus {
        status: 0,
        history: History {
            accounts: &[Opening {
                pan: "4761739001010010",
                currency: Currency::Dollar,
                balance: 2000,
                blocked: false,
                pin: Some("1234"),
                scripts: &[],
            }],
            turns: &[
                Turn::Says(
                    "e16e9f1c085445524d303030315a0847617390010100105f3401015f24032612319f02060000000025009f03060000000000009f1a020840950580000008005f2a0208409a032406159c01009f37040102030482021c009f3602000c9f2608de3ba1bf861fae839f1006018000010301",
                    "e20e8a0235319108c3f57c4500000000",
                ),
                Turn::Says(
                    "e36c9f1c085445524d303030315a0847617390010100105f3401019f02060000000025009f03060000000000009f1a020840950580000000005f2a0208409a032406159c01009f37040102030482021c009f3602000b9f26086114ff966d2fd2329f10060140000103018a025931",
                    APPROVED,
                ),
            ],
            balances: &[("4761739001010010", -500)],
        },
    },
    // Code 00, and the application is to be blocked. The card declines, and the request is reversed.
    ByStatus {
        status: 64,
        history: History {
            accounts: &[Opening {
                pan: "4761739001010010",
                currency: Currency::Dollar,
                balance: 100_000,
                blocked: false,
                pin: Some("1234"),
                scripts: &[],
            }],
            turns: &[
                Turn::Says(
                    "e16e9f1c085445524d303030315a0847617390010100105f3401015f24032612319f02060000000025009f03060000000000009f1a020840950580000000005f2a0208409a032406159c01009f37040102030482021c009f3602000b9f2608204bb40db680038e9f1006018000000301",
                    "e20e8a0230309108360d0e1f80c00000",
                ),
                Turn::Says(
                    "e4309f1c085445524d303030315a0847617390010100105f3401019f3602000b9f02060000000025005f2a0208408a023030",
                    APPROVED,
                ),
            ],
            balances: &[("4761739001010010", 100_000)],
        },
    },
    // Code 00; the card is to be blocked and its PIN tries restored.
    ByStatus {
        status: 48,
        history: History {
            accounts: &[Opening {
                pan: "4761739001010010",
                currency: Currency::Dollar,
                balance: 100_000,
                blocked: false,
                pin: None,
                scripts: &[],
            }],
            turns: &[
                Turn::Says(
                    "e16e9f1c085445524d303030305a0847617390010100105f3401015f24032612319f02060000000025009f03060000000000009f1a020840950580000008005f2a0208409a032406159c01009f3704325b7fdb820214009f3602000b9f26089df46afff9c0793f9f1006018000000301",
                    "e20e8a02303091085055750880b00000",
                ),
                Turn::Says(
                    "e4309f1c085445524d303030305a0847617390010100105f3401019f3602000b9f02060000000025005f2a0208408a023030",
                    APPROVED,
                ),
            ],
            balances: &[("4761739001010010", 100_000)],
        },
    },
    // Code 54: the account's status goes without the bits of code 00, and the scripts behind it.
    ByStatus {
        status: 16,
        history: History {
            accounts: &[Opening {
                pan: "4761739001010012",
                currency: Currency::Dollar,
                balance: 5000,
                blocked: false,
                pin: Some("1234"),
                scripts: &[
                    Planned {
                        before: false,
                        id: Some([0x46, 0x94, 0x26, 0x3d]),
                        commands: &["pin_unblock", "pin_unblock", "pin 98765"],
                    },
                    Planned {
                        before: false,
                        id: None,
                        commands: &["block", "pin_unblock"],
                    },
                    Planned {
                        before: true,
                        id: None,
                        commands: &["pin_unblock"],
                    },
                ],
            }],
            turns: &[Turn::Says(
                "e16e9f1c085445524d303030305a0847617390010100125f3401015f24032612319f02060000000100009f03060000000000009f1a020840950580400000005f2a0208409a032701019c01019f37046e5a09eb82020c009f3602000b9f2608f8a25ad25fa9dd2c9f1006018000000301",
                "e27d8a02353491088d32c2c600100000723c9f18044694263d860d8424000008bdb08fde7c791a8b860d8424000008bdb08fde7c791a8b8615842400021059ddd049c45823ee6fec2c2424a6488f721e860d841e000008ebc417d97d1336f8860d8424000008bdb08fde7c791a8b710f860d8424000008bdb08fde7c791a8b",
            )],
            balances: &[("4761739001010012", 5000)],
        },
    },
];
