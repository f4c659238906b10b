ghost use Rattle.std.specs.Prelude.{◌≡◌, length};
ghost use Rattle.restrictions.specs.Usage as spec;

use emv_dict::Purchase;

/// The application usage control, object 9F07 (EMV 4.3 Book 3 Annex C2).
#[derive(Clone, Copy)]
pub(crate) struct Usage(pub(crate) [u8; 2]);

impl Usage {
    /// The control that two bytes are.
    pub(crate) fn read(bytes: &[u8]) -> Usage
        requires { length bytes.now ≡ 2 }
        ensures { result.0 ≡ bytes.now }
    {
        match bytes {
            [first, second] => Usage([*first, *second]),
            _ => unreachable!(),
        }
    }

    /// Whether the card may be used at terminals other than cash machines.
    pub(crate) fn allows_terminal(self) -> bool
        ensures { result ≡ spec.allows_terminal self.0 }
    {
        self.0[0] & 0x01 != 0
    }

    /// Whether it may be used for a purchase of this type, in the issuer's country or in another.
    #[tactic(auto, unfolding(crate::specs::Usage::allows_trade))]
    pub(crate) fn allows_trade(self, domestic: bool, purchase: &Purchase) -> bool
        ensures { result ≡ spec.allows_trade self.0 domestic purchase.now }
    {
        let services = purchase.services;
        match purchase.trade {
            1 => self.allows_cash(domestic),
            9 => self.allows_bought(domestic, services) && self.allows_cashback(domestic),
            _ => self.allows_bought(domestic, services),
        }
    }

    fn allows_cash(self, domestic: bool) -> bool
        ensures { result ≡ spec.allows_cash self.0 domestic }
    {
        self.0[0] & (if domestic { 0x80 } else { 0x40 }) != 0
    }

    /// Whether goods, or services, may be bought.
    fn allows_bought(self, domestic: bool, services: bool) -> bool
        ensures { result ≡ spec.allows_bought self.0 domestic services }
    {
        let bit = match (services, domestic) {
            (false, true) => 0x20,
            (false, false) => 0x10,
            (true, true) => 0x08,
            (true, false) => 0x04,
        };
        self.0[0] & bit != 0
    }

    fn allows_cashback(self, domestic: bool) -> bool
        ensures { result ≡ spec.allows_cashback self.0 domestic }
    {
        self.0[1] & (if domestic { 0x80 } else { 0x40 }) != 0
    }
}
