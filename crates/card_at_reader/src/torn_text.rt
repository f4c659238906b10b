//! A planned tear in the words of the line that plans it.
ghost use Rattle.std.specs.Prelude.{◌≡◌, ◌+◌, ◌≤◌, ◌++◌};
ghost use Rattle.arrayvec.specs.ArrayVec.{array_vec_len};
ghost use Rattle.card_at_reader.specs.TornText as spec;

use emv_ports::{Tear, TearAt};
use report_text::Text;
use report_text::pieces::{append, number};

/// The place in a commit.
fn place(out: &mut Text, at: TearAt)
    requires { array_vec_len out.old + 50 ≤ 8192 }
    ensures text { out.new.items ≡ out.old.items ++ spec.place_text at }
    ensures len { array_vec_len out.new ≤ array_vec_len out.old + 50 }
{
    match at {
        TearAt::Before(write) => {
            append(out, b" before ");
            number(out, u64::from(write));
        }
        TearAt::Within(write) => {
            append(out, b" within ");
            number(out, u64::from(write));
        }
        TearAt::Release => append(out, b" release"),
    }
}

/// The line of the tear that fired last, if one did, in place of what the text held.
pub(crate) fn tell_torn(out: &mut Text, torn: Option<Tear>)
    ensures { out.new.items ≡ spec.torn_answer torn }
{
    out.clear();
    match torn {
        None => append(out, b"?\n"),
        Some(tear) => {
            append(out, b"torn ");
            number(out, u64::from(tear.commit));
            place(out, tear.at);
            append(out, b"\n");
        }
    }
}
