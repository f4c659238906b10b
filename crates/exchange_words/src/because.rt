//! Why a kind of cryptogram was asked for, and where that stands (EMV 4.3 Book 3 section 10.7).
ghost use Rattle.std.specs.Prelude.{◌≡◌};
ghost use Rattle.exchange_words.specs.Because as spec;
ghost use Rattle.report_lines.specs.Pieces.{Tells};

use report_lines::{ANALYSIS, DENIAL, ONLINE, REPLY, UNABLE, WordLines};
use value_words::{Reason, tell_reason};

/// The reference of the reason for a kind of cryptogram; `second` says that it was the second question.
fn reason_reference(reason: Reason, second: bool) -> &'static [u8]
    ensures { result.now ≡ spec.reason_reference reason second }
{
    match reason {
        Reason::Issuer => REPLY,
        Reason::Denied(_) => DENIAL,
        Reason::TerminalDenial(_) => ANALYSIS,
        Reason::UnableDefault(_)
        | Reason::UnableOnlineOnly
        | Reason::UnableTerminal
        | Reason::UnableNone => UNABLE,
        Reason::NoResults | Reason::Unexplained if second => UNABLE,
        Reason::NoResults | Reason::Unexplained => ANALYSIS,
        _ => ONLINE,
    }
}

/// Tells a reason, and where it stands. `code` is the issuer's response code, `second` whether it was the second
/// question.
pub fn tell_cited_reason(out: &mut WordLines, reason: Reason, second: bool, code: [u8; 2])
    ensures { Tells out.old out.new (spec.cited_reason reason second code) }
{
    tell_reason(out, reason, second, code);
    out.reference(reason_reference(reason, second));
}
