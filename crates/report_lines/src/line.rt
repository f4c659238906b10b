use crate::ending::{EndFields, Ending};

/// Whose a line is.
#[derive(Clone, Copy)]
pub enum Whose<'a> {
    /// A lane's, in a payment: `L0`.
    Lane(u8),
    /// A lane's, in the settlement: `S0`.
    Settlement(u8),
    /// A card's of this name, in the audit: `A c1`.
    Audit(&'a [u8]),
    /// The report's itself.
    Report,
}

/// What a line tells. Bytes stand as the line has them, in hexadecimal, or `-` where there are none.
#[derive(Clone, Copy)]
pub enum What<'a> {
    /// A card of this name is powered up: the counters of its applications, one blank between them.
    Power {
        card: &'a [u8],
        apps: &'a [u8],
    },
    /// The card of this name was gone as it was powered up.
    PowerTorn(&'a [u8]),
    /// The card of this name has canned answers.
    PowerCanned(&'a [u8]),
    /// A command, or a message of the settlement.
    Sent(&'a [u8]),
    /// An answer, or a reply in the settlement.
    Given(&'a [u8]),
    /// The power was cut in place of an answer.
    Torn,
    /// A card of canned answers had none left.
    Gone,
    /// A message to the issuer.
    ToHost(&'a [u8]),
    /// The issuer's reply.
    FromHost(&'a [u8]),
    /// No reply came.
    NoReply,
    /// The purchase of this number has ended.
    End {
        number: u64,
        ending: Ending<'a>,
        fields: EndFields<'a>,
    },
    /// The purchase of this number was lost with the terminal's power.
    Lost(u64),
    /// A data object: its tag and its value.
    Object {
        tag: &'a [u8],
        value: &'a [u8],
    },
    /// A card's data was not read to its end.
    ReadEnded(Ending<'a>),
    /// The scenario is refused, for the fault of this number.
    Refused(u64),
    /// A trace is another one from this entry on.
    Differs(u64),
    /// An account's balance.
    Balance,
    /// How many purchases ended.
    Done,
}

/// A line of a report.
#[derive(Clone, Copy)]
pub struct ReportLine<'a> {
    pub whose: Whose<'a>,
    pub what: What<'a>,
}
