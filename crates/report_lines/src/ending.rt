//! How a payment ended, as an end line tells it.

ghost use Rattle.std.specs.Prelude.{◌≡◌, not, option_map};
ghost use Rattle.report_lines.specs.Reading as spec;

use crate::parts::split_word;

/// How a payment ended.
#[derive(Clone, Copy)]
pub enum Ending<'a> {
    Approved,
    Declined,
    /// The terminal ended it in a step, for a cause; the cause's tag, status, place or number.
    Terminated {
        step: &'a [u8],
        cause: &'a [u8],
        detail: &'a [u8],
    },
    /// The card was gone in a step.
    Cut(&'a [u8]),
}

/// The fields of an end line, each as the line has it.
#[derive(Clone, Copy)]
pub struct EndFields<'a> {
    /// Terminal verification results.
    pub tvr: &'a [u8],
    /// Transaction status information.
    pub tsi: &'a [u8],
    /// Cardholder verification method results.
    pub cvm: &'a [u8],
    /// The authorisation response code.
    pub arc: &'a [u8],
    /// The results of the scripts.
    pub scripts: &'a [u8],
}

/// An ending, and what stands behind it.
#[tactic(auto, unfolding(crate::specs::Reading::ending_in))]
pub fn read_ending(text: &[u8]) -> Option<(Ending<'_>, &[u8])>
    ensures { option_map (λ r. (spec.seen_ending r.0, r.1.now)) result ≡ spec.ending_in text.now }
{
    let (word, rest) = split_word(text);
    let (step, behind) = split_word(rest);
    if word == b"approved".as_slice() {
        Some((Ending::Approved, behind))
    } else if word == b"declined".as_slice() {
        Some((Ending::Declined, behind))
    } else if word == b"cut".as_slice() {
        Some((Ending::Cut(step), behind))
    } else if word == b"terminated".as_slice() {
        Some(read_terminated(rest))
    } else {
        None
    }
}

/// Whether a cause has a word of its own behind it.
fn has_detail(cause: &[u8]) -> bool
    ensures { result ≡ not (spec.stands_alone cause.now) }
{
    cause != b"no-candidate".as_slice()
        && cause != b"card-blocked".as_slice()
        && cause != b"answer".as_slice()
        && cause != b"too-much".as_slice()
}

/// The step and the cause in which a terminal ended a payment, and what stands behind them.
fn read_terminated(text: &[u8]) -> (Ending<'_>, &[u8])
    ensures { (spec.seen_ending result.0, result.1.now) ≡ spec.terminated_in text.now }
{
    let (step, rest) = split_word(text);
    let (cause, rest) = split_word(rest);
    if !has_detail(cause) {
        let ending = Ending::Terminated {
            step,
            cause,
            detail: &[],
        };
        return (ending, rest);
    }
    let (detail, rest) = split_word(rest);
    let ending = Ending::Terminated {
        step,
        cause,
        detail,
    };
    (ending, rest)
}

/// The value of a field that is named so, and what stands behind it.
fn field<'a>(text: &'a [u8], name: &[u8]) -> Option<(&'a [u8], &'a [u8])>
    ensures { option_map (λ r. (r.0.now, r.1.now)) result ≡ spec.field_in name.now text.now }
{
    let (word, rest) = split_word(text);
    Some((word.strip_prefix(name)?, rest))
}

/// The fields of an end line.
#[tactic(auto, unfolding(crate::specs::Reading::fields_in))]
pub(crate) fn read_fields(text: &[u8]) -> Option<EndFields<'_>>
    ensures { option_map spec.seen_fields result ≡ spec.fields_in text.now }
{
    let (tvr, rest) = field(text, b"tvr=")?;
    let (tsi, rest) = field(rest, b"tsi=")?;
    let (cvm, rest) = field(rest, b"cvm=")?;
    let (arc, rest) = field(rest, b"arc=")?;
    let (_, rest) = field(rest, b"atc=")?;
    let (_, rest) = field(rest, b"ac=")?;
    let (scripts, _) = field(rest, b"scripts=")?;
    Some(EndFields {
        tvr,
        tsi,
        cvm,
        arc,
        scripts,
    })
}
