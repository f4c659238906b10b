//! Lines of a lane or of the audit that tell enough by themselves, in words.
ghost use Rattle.std.specs.Prelude.{◌≡◌, [], option_map, unwrap_or};
ghost use Rattle.narrator.specs.Words as spec;
ghost use Rattle.report_lines.specs.Reading.{seen_what};
ghost use Rattle.report_lines.specs.Pieces.{Tells};

use crate::phrases::{CARD_GONE, NO_REPLY, POWER_CANNED, POWER_TORN, PURCHASE_LOST};
use report_lines::{What, WordLines};

/// The phrase of a line of a lane or of the audit that tells enough by itself.
fn phrase_of(what: &What<'_>) -> Option<&'static [u8]>
    ensures { option_map (λ phrase. phrase.now) result ≡ spec.phrase_of (seen_what what.now) }
{
    match what {
        What::PowerTorn(_) => Some(POWER_TORN),
        What::PowerCanned(_) => Some(POWER_CANNED),
        What::Gone => Some(CARD_GONE),
        What::NoReply => Some(NO_REPLY),
        What::Lost(_) => Some(PURCHASE_LOST),
        _ => None,
    }
}

/// Tells a line of a lane or of the audit that tells enough by itself.
pub(crate) fn tell_alone(out: &mut WordLines, what: &What<'_>)
    ensures { Tells out.old out.new (unwrap_or (spec.of_talk (seen_what what.now)) []) }
{
    if let Some(phrase) = phrase_of(what) {
        out.line(1);
        out.text(phrase);
    }
}
