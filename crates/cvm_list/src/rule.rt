ghost use Rattle.std.specs.Prelude.{◌≡◌, ◌+◌, ◌*◌, ◌≤◌, ◌++◌, length};
ghost use Rattle.cvm_list.specs.Begun.{holding};
ghost use Rattle.cvm_list.specs.Rules as spec;

use arrayvec::ArrayVec;

/// Rules of a list: at most so many as an answer of a card has room for.
pub type Rules = ArrayVec<Rule, 123>;

/// A rule of a cardholder verification method list (EMV 4.3 Book 3 Annex C3).
#[derive(Clone, Copy, PartialEq, Eq, Debug, Default)]
pub struct Rule {
    /// The method, b6 to b1; b7 says that the next rule is applied where it is unsuccessful.
    pub method: u8,
    /// The number of the condition.
    pub condition: u8,
}

/// A cardholder verification method (EMV 4.3 Book 3 Annex C3).
#[derive(Clone, Copy, PartialEq, Eq, Debug)]
pub enum Method {
    /// Verification fails.
    Fail,
    /// A PIN that the card verifies in plain.
    PlainPin,
    /// A PIN that goes enciphered to the issuer.
    OnlinePin,
    /// A PIN that the card verifies in plain, and a signature.
    PlainPinAndSignature,
    /// A PIN that the card verifies enciphered.
    EncipheredPin,
    /// A PIN that the card verifies enciphered, and a signature.
    EncipheredPinAndSignature,
    /// A signature on paper.
    Signature,
    /// No verification is needed.
    NoCvm,
    /// Any other code.
    Unrecognised,
}

/// What the conditions of rules are tried on.
#[derive(Clone, Copy, PartialEq, Eq, Debug)]
pub struct Situation {
    /// The terminal's type.
    pub kind: u8,
    /// The second byte of the terminal capabilities.
    pub caps: u8,
    /// The transaction type.
    pub trade: u8,
    /// Whether the purchase is in the currency of the list's amounts.
    pub in_currency: bool,
    /// The amount of the purchase.
    pub amount: u64,
    /// The list's first amount, X.
    pub x: u32,
    /// Its second amount, Y.
    pub y: u32,
}

/// The method of a rule.
#[tactic(auto, unfolding(crate::specs::Rules::method_of))]
pub(crate) fn method_of(rule: Rule) -> Method
    ensures { result ≡ spec.method_of rule }
{
    match rule.method % 64 {
        0x00 => Method::Fail,
        0x01 => Method::PlainPin,
        0x02 => Method::OnlinePin,
        0x03 => Method::PlainPinAndSignature,
        0x04 => Method::EncipheredPin,
        0x05 => Method::EncipheredPinAndSignature,
        0x1e => Method::Signature,
        0x1f => Method::NoCvm,
        _ => Method::Unrecognised,
    }
}

/// Whether a terminal with this second byte of its capabilities supports the method.
#[tactic(auto, unfolding(crate::specs::Rules::supports))]
pub(crate) fn supports(caps: u8, method: Method) -> bool
    ensures { result ≡ spec.supports caps method }
{
    match method {
        Method::Fail => true,
        Method::PlainPin => caps & 0x80 != 0,
        Method::OnlinePin => caps & 0x40 != 0,
        Method::PlainPinAndSignature => caps & 0x80 != 0 && caps & 0x20 != 0,
        Method::Signature => caps & 0x20 != 0,
        Method::NoCvm => caps & 0x08 != 0,
        Method::EncipheredPin | Method::EncipheredPinAndSignature | Method::Unrecognised => false,
    }
}

/// Whether the next rule is applied where this one is unsuccessful.
pub(crate) fn goes_on(rule: Rule) -> bool
    ensures { result ≡ spec.applies_succeeding rule }
{
    rule.method & 0x40 != 0
}

/// Whether the condition of a rule holds.
#[tactic(auto, unfolding(crate::specs::Rules::holds))]
fn holds(s: &Situation, rule: Rule) -> bool
    ensures { result ≡ spec.holds s.now rule }
{
    match rule.condition {
        0x00 => true,
        0x01 => is_unattended_cash(s),
        0x02 => !(is_unattended_cash(s) || is_manual_cash(s) || s.trade == 9),
        0x03 => supports(s.caps, method_of(rule)),
        0x04 => is_manual_cash(s),
        0x05 => s.trade == 9,
        0x06 => s.in_currency && s.amount < u64::from(s.x),
        0x07 => s.in_currency && u64::from(s.x) < s.amount,
        0x08 => s.in_currency && s.amount < u64::from(s.y),
        0x09 => s.in_currency && u64::from(s.y) < s.amount,
        _ => false,
    }
}

/// Cash at an unattended terminal.
fn is_unattended_cash(s: &Situation) -> bool
    ensures { result ≡ spec.is_unattended_cash s.now }
{
    s.trade == 1 && 24 <= s.kind && s.kind <= 26
}

/// Cash at an attended terminal.
fn is_manual_cash(s: &Situation) -> bool
    ensures { result ≡ spec.is_manual_cash s.now }
{
    s.trade == 1 && 21 <= s.kind && s.kind <= 23
}

/// Appends the rules among these bytes whose condition holds.
#[tactic(auto, unfolding(crate::specs::Rules::rules_of, crate::specs::Begun::holding))]
pub(crate) fn keep_holding(s: &Situation, bytes: &[u8], kept: &mut Rules)
    requires { 2 * length kept.old.items + length bytes.now ≤ 247 }
    ensures { kept.new.items ≡ kept.old.items ++ holding s.now (spec.rules_of bytes.now) }
{
    if let [method, condition, others @ ..] = bytes {
        let rule = Rule {
            method: *method,
            condition: *condition,
        };
        if holds(s, rule) {
            kept.push(rule);
        }
        keep_holding(s, others, kept);
    }
}
