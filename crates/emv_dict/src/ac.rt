//! An application cryptogram (EMV 4.3 Book 3 section 6.5.5.4).
use crate::ending::Kind;
use arrayvec::ArrayVec;
use std::marker::Model;

/// An application cryptogram as the card gives it. Contracts see the issuer application data as a list.
#[derive(Drop)]
pub struct Ac {
    /// The kind.
    pub kind: Kind,
    /// The application transaction counter (9F36).
    pub counter: u16,
    /// The cryptogram (9F26).
    pub cryptogram: [u8; 8],
    /// The issuer application data (9F10), at most 32 bytes, none where they are absent.
    pub iad: ArrayVec<u8, 32>,
}

impl Model for Ac {
    ghost use Rattle.emv_dict.specs.Views.{AcData};

    ghost Value = { AcData };

    ghost view = { λ ac. record { kind = ac.kind; counter = ac.counter; cryptogram = ac.cryptogram; iad = ac.iad.items } };
}
