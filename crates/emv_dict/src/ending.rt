ghost use Rattle.std.specs.Prelude.{◌≡◌, ◌/◌, ◌*◌, ◌↔◌, Some, None, IfSome, false};
ghost use Rattle.emv_dict.specs.declared.ending.Ending.TheVariants.{Declined};
ghost use Rattle.emv_dict.specs.Kinds.{kind_byte, kind_of, is_above as is_higher};

use ber_tlv::Tag;

/// The kinds of application cryptogram (EMV 4.3 Book 3 section 6.5.5).
#[derive(Clone, Copy, PartialEq, Eq, Hash, Debug, Default)]
pub enum Kind {
    /// The transaction is declined.
    #[default]
    Aac,
    /// The transaction is approved.
    Tc,
    /// The issuer is to decide.
    Arqc,
}

impl Kind {
    /// The kind as the reference control parameter P1 of GENERATE AC and as the two high bits of the
    /// cryptogram information data (EMV 4.3 Book 3 sections 6.5.5.2 and 6.5.5.4).
    pub fn byte(self) -> u8
        ensures byte { result ≡ kind_byte self }
        ensures read_again { kind_of result ≡ Some self }
    {
        match self {
            Kind::Aac => 0x00,
            Kind::Tc => 0x40,
            Kind::Arqc => 0x80,
        }
    }

    /// The kind that the two high bits of a byte name, or `None` where both are set.
    pub fn of(byte: u8) -> Option<Kind>
        ensures kind { result ≡ kind_of byte }
        ensures bits { IfSome result (λ kind. kind_byte kind ≡ byte / 64 * 64) }
        ensures both { (result ≡ None) ↔ (byte / 64 ≡ 3) }
    {
        match byte / 64 {
            0 => Some(Kind::Aac),
            1 => Some(Kind::Tc),
            2 => Some(Kind::Arqc),
            _ => None,
        }
    }

    /// Whether this kind is above the other in the order TC, ARQC, AAC: a card that is asked for a
    /// kind may answer it or one below (EMV 4.3 Book 3 section 10.8).
    pub fn is_above(self, asked: Kind) -> bool
        ensures { result ≡ is_higher self asked }
    {
        match self {
            Kind::Aac => false,
            Kind::Arqc => asked == Kind::Aac,
            Kind::Tc => asked != Kind::Tc,
        }
    }
}

/// The steps of a payment, in their order (EMV 4.3 Book 3 section 8).
#[derive(Clone, Copy, PartialEq, Eq, Hash, Debug, Default)]
pub enum Step {
    /// The card is powered up.
    #[default]
    Power,
    /// Application selection (Book 1 section 12).
    Select,
    /// Initiate application processing (Book 3 section 10.1).
    Initiate,
    /// Read application data (Book 3 section 10.2).
    Read,
    /// Cardholder verification (Book 3 section 10.5).
    Verify,
    /// Terminal risk management (Book 3 section 10.6).
    Risk,
    /// The first GENERATE AC (Book 3 sections 10.7 and 10.8).
    First,
    /// Issuer authentication (Book 3 section 10.9).
    Authenticate,
    /// The second GENERATE AC (Book 3 section 10.11).
    Second,
    /// Issuer scripts (Book 3 section 10.10).
    Script,
}

/// Why a terminal ended a payment before its decision.
#[derive(Clone, Copy, PartialEq, Eq, Hash, Debug, Default)]
pub enum Cause {
    /// No application of the card is left to be selected.
    #[default]
    NoCandidate,
    /// The card is blocked.
    CardBlocked,
    /// An answer is too short or too long to be one.
    Answer,
    /// The card's answer has these status bytes.
    Status(u16),
    /// The answer's data isn't of the form it must have. The place is that of the first fault of its
    /// items, counted in bytes from the first of the data, or 0 where its items have none.
    Coding(usize),
    /// The card gives this object twice.
    Repeated(Tag),
    /// A mandatory object isn't there.
    Missing(Tag),
    /// This object has a wrong length or value.
    Value(Tag),
    /// A group of the application file locator is wrong, counted from 1; 0 for its length.
    Afl(u8),
    /// This object list can't be read or filled.
    Dol(Tag),
    /// The card gives more objects than a terminal keeps.
    TooMuch,
    /// A cryptogram of a kind that the card may not answer, by its cryptogram information data.
    Kind(u8),
}

/// How a payment ended.
#[derive(Clone, Copy, PartialEq, Eq, Hash, Debug)]
pub enum Ending {
    /// Approved, online where the issuer's reply was read.
    Approved { online: bool },
    /// Declined, online where the issuer's reply was read.
    Declined { online: bool },
    /// The terminal ended it in this step, for this cause.
    Terminated(Step, Cause),
    /// The card was gone in this step.
    CutOff(Step),
}

/// A payment that was declined offline, the ending that moves no money.
impl Default for Ending {
    ghost is_default = { λ ending. ending ≡ Declined false };

    fn default() -> Ending {
        Ending::Declined { online: false }
    }
}
