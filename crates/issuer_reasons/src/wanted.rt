//! What is to be approved.
ghost use Rattle.issuer_reasons.specs.Wanted as spec;
ghost use Rattle.report_lines.specs.Pieces.{Tells};

use report_lines::WordLines;
use value_words::tell_code;

/// The amount and the currency in the data of GENERATE AC, the currency as the number of its two bytes.
#[derive(Clone, Copy, PartialEq, Eq, Debug)]
pub struct Wanted {
    pub amount: u64,
    pub currency: u64,
}

/// Tells a currency: its three digits, or its bytes where it has other ones.
pub fn tell_currency(out: &mut WordLines, currency: u64)
    ensures { Tells out.old out.new (spec.currency_words currency) }
{
    let bytes = ((currency % 65536) as u16).to_be_bytes();
    if !tell_code(out, &bytes) {
        out.hex(&bytes);
    }
}
