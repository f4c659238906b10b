ghost use Rattle.std.specs.Prelude.{◌≡◌};
ghost use Rattle.issuer_host.specs.Code.{code_bytes, is_approved};

/// The host's decision, an Authorisation Response Code (8A). The codes but 00 are this project's own
/// choice among those of ISO 8583.
#[derive(Clone, Copy, PartialEq, Eq, Debug)]
pub enum Code {
    /// 00.
    Approved,
    /// 05: declined, for no reason of its own.
    Declined,
    /// 14: no account has the account number.
    UnknownAccount,
    /// 51: the amount is above the balance.
    NoFunds,
    /// 54: the application has expired.
    Expired,
    /// 55: the PIN is not the account's.
    WrongPin,
}

impl Code {
    /// The two characters of the code.
    pub fn bytes(self) -> [u8; 2]
        ensures { result ≡ code_bytes self }
    {
        match self {
            Code::Approved => *b"00",
            Code::Declined => *b"05",
            Code::UnknownAccount => *b"14",
            Code::NoFunds => *b"51",
            Code::Expired => *b"54",
            Code::WrongPin => *b"55",
        }
    }

    /// Whether the code is 00.
    pub fn is_approved(self) -> bool
        ensures { result ≡ is_approved self }
    {
        match self {
            Code::Approved => true,
            _ => false,
        }
    }
}
