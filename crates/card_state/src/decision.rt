use emv_dict::Kind;

/// In which of an application's currencies a sale is.
#[derive(Clone, Copy, PartialEq, Eq, Debug)]
pub enum Which {
    /// In the application's currency.
    One,
    /// In its second currency.
    Two,
    /// In another one.
    Neither,
}

/// The sale that a cryptogram is for, as the terminal gave it with the command.
#[derive(Clone, Copy, PartialEq, Eq, Debug)]
pub struct Sale {
    /// The amount, in the currency's least unit.
    pub amount: u64,
    /// The amount as its twelve digits came, object 9F02.
    pub raw: [u8; 6],
    /// The code of its currency, object 5F2A.
    pub currency: [u8; 2],
    /// The date, object 9A.
    pub date: [u8; 3],
    /// In which of the application's currencies the sale is.
    pub which: Which,
}

/// What the issuer's card status update makes a card do (EMV 4.3 Book 2 section 8.2.2; the meaning of its
/// bits is this project's own).
#[derive(Clone, Copy, PartialEq, Eq, Debug)]
pub struct Steered {
    /// The card status update.
    pub status: [u8; 4],
    /// The PIN tries that it may restore.
    pub limit: u8,
}

/// How the issuer was authenticated in a transaction (EMV 4.3 Book 2 section 8.2).
#[derive(Clone, Copy, PartialEq, Eq, Debug)]
pub enum Auth {
    /// It wasn't: no EXTERNAL AUTHENTICATE was right.
    Absent,
    /// By ARPC method 1.
    One,
    /// By ARPC method 2, with this card status update.
    Two([u8; 4]),
}

/// On what a second cryptogram rests.
#[derive(Clone, Copy, PartialEq, Eq, Debug)]
pub enum How {
    /// The issuer was authenticated in this transaction, and the totals are reset (EMV 4.3 Book 3 section 10.9).
    Authenticated,
    /// The issuer was authenticated in this transaction, and lets the totals stand.
    Held,
    /// Neither the issuer was authenticated nor the terminal was unable to go online.
    Alone,
    /// The terminal was unable to go online, and the card decided within its own limits.
    Offline,
}

/// What an issuer's script command makes a card do (EMV 4.3 Book 3 section 6.5; PUT DATA is
/// this project's own).
#[derive(Clone, Copy, PartialEq, Eq, Debug)]
pub enum Scripted {
    /// APPLICATION BLOCK.
    Block,
    /// APPLICATION UNBLOCK.
    Unblock,
    /// CARD BLOCK.
    CardBlock,
    /// PIN CHANGE/UNBLOCK that restores the tries, to this limit.
    PinUnblock { limit: u8 },
    /// PIN CHANGE/UNBLOCK with a new PIN, as a plain PIN block; it restores the tries to this limit.
    PinChange { pin: [u8; 8], limit: u8 },
    /// PUT DATA of the limit of consecutive offline approvals.
    Count(u8),
    /// PUT DATA of the limit of their amounts, in the currency's least unit.
    Sum(u64),
}

/// One decision that a card takes, and that one commit makes lasting.
#[derive(Clone, Copy, PartialEq, Eq, Debug)]
pub enum Decision {
    /// A transaction starts and takes the next application transaction counter.
    Started,
    /// A PIN is about to be compared.
    PinTry,
    /// The PIN was right; the tries are restored to this limit.
    PinRight {
        limit: u8,
    },
    /// The first cryptogram, of this kind, for this sale.
    First {
        kind: Kind,
        sale: Sale,
    },
    /// EXTERNAL AUTHENTICATE was answered, with a cryptogram that was right or not; by method 2 a right one
    /// steers the card.
    Authenticated {
        right: bool,
        steered: Option<Steered>,
    },
    /// An issuer's script command is carried out.
    Script(Scripted),
    /// The second cryptogram, of this kind, for this sale.
    Second {
        kind: Kind,
        how: How,
        sale: Sale,
    },
}
