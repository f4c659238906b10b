//! The text of an end, as a report's line tells it behind the purchase's number.
ghost use Rattle.std.specs.Prelude.{◌≡◌, ◌≤◌, ◌+◌, ◌++◌, option_map};
ghost use Rattle.arrayvec.specs.ArrayVec.{array_vec_len};
ghost use Rattle.trace_check.specs.Dialogues as spec;

use auth_message::Message;
use emv_dict::Ac;
use kernel::{Capture, EndRecord};
use report_text::{EndParts, Text, end_parts};

/// The counter and the cryptogram of the card's last one.
fn last_of(last: &Option<Ac>) -> Option<(u16, [u8; 8])>
    ensures { result ≡ option_map (λ ac. (ac.counter, ac.cryptogram)) last.now }
{
    match last {
        Some(ac) => Some((ac.counter, ac.cryptogram)),
        None => None,
    }
}

/// Nobody settles what a dialogue captured that is only looked at.
fn let_go(capture: Option<Capture>) {
    if let Some(capture) = capture {
        let mut message = Message::new();
        capture.into_message(&mut message);
    }
}

/// The text of an end, behind what is there: at most 1,000 bytes, for which there is room. What the dialogue
/// captured is let go.
pub fn add_end_text(end: EndRecord, out: &mut Text)
    requires { array_vec_len out.old + 1000 ≤ 8192 }
    ensures text { out.new.items ≡ out.old.items ++ spec.end_text end }
    ensures len { array_vec_len out.new ≤ array_vec_len out.old + 1000 }
{
    let EndRecord {
        ending,
        tvr,
        tsi,
        cvm,
        pan: _,
        code,
        last,
        scripts,
        capture,
    } = end;
    let_go(capture);
    let parts = EndParts {
        ending,
        tvr,
        tsi,
        cvm,
        arc: code,
        atc_ac: last_of(&last),
        scripts,
    };
    end_parts(out, &parts);
}
