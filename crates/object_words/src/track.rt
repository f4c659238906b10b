//! Track 2 equivalent data (EMV 4.3 Book 3 Annex A, tag 57).
ghost use Rattle.std.specs.Prelude.{◌≡◌, ◌+◌, ◌*◌, ◌≤◌, length, is_some};
ghost use Rattle.object_words.specs.Tracks as spec;
ghost use Rattle.value_words.specs.Plain.{or_nothing};
ghost use Rattle.report_lines.specs.Pieces.{Tells};

use emv_dict::nibble_at;
use report_lines::WordLines;

/// The place behind the decimal digits that stand from this place on.
fn digits_end(value: &[u8], from: usize) -> usize
    requires { from ≤ 2 * length value.now }
    ensures place { result ≡ spec.digits_end value.now from }
    ensures within { result ≤ 2 * length value.now }
{
    for place in from..2 * value.len() {
        if nibble_at(value, place) > 9 {
            return place;
        }
    }
    2 * value.len()
}

/// Whether this half byte stands at a place.
fn has_half(value: &[u8], place: usize, half: u8) -> bool
    ensures { result ≡ spec.has_half value.now place half }
{
    place < 2 * value.len() && nibble_at(value, place) == half
}

/// Whether nothing stands from a place on, or F alone.
fn ends_at(value: &[u8], place: usize) -> bool
    requires { place ≤ 2 * length value.now }
    ensures { result ≡ spec.ends_at value.now place }
{
    place == 2 * value.len() || (place + 1 == 2 * value.len() && has_half(value, place, 15))
}

/// Whether there is an account number of so many digits, and digits behind the separator that end before this
/// place.
fn is_track(value: &[u8], pan: usize, end: usize) -> bool
    requires pan { pan ≤ 2 * length value.now }
    requires end { end ≤ 2 * length value.now }
    ensures { result ≡ spec.is_track value.now pan end }
{
    1 <= pan && pan <= 19 && pan + 8 <= end && ends_at(value, end)
}

/// Tells so many digits from a place on.
fn tell_digits_at(out: &mut WordLines, value: &[u8], from: usize, count: usize)
    requires { from + count ≤ 2 * length value.now }
    ensures { Tells out.old out.new (spec.half_digits value.now from count) }
{
    for place in from..from + count {
        out.number(u64::from(nibble_at(value, place)));
    }
}

/// Tells so many digits from a place on, behind these words.
fn tell_part(out: &mut WordLines, words: &[u8], value: &[u8], from: usize, count: usize)
    requires { from + count ≤ 2 * length value.now }
    ensures { Tells out.old out.new (spec.part_words words.now value.now from count) }
{
    out.text(words);
    tell_digits_at(out, value, from, count);
}

/// Tells the discretionary digits, where there are some.
fn tell_discretionary(out: &mut WordLines, value: &[u8], from: usize, count: usize)
    requires { from + count ≤ 2 * length value.now }
    ensures { Tells out.old out.new (spec.discretionary_words value.now from count) }
{
    if count != 0 {
        tell_part(out, b", discretionary data ", value, from, count);
    }
}

/// Tells what stands behind an account number of so many digits.
fn tell_behind(out: &mut WordLines, value: &[u8], pan: usize, end: usize)
    requires some { pan + 8 ≤ end }
    requires end { end ≤ 2 * length value.now }
    ensures { Tells out.old out.new (spec.behind_pan value.now pan end) }
{
    tell_part(out, b", expires ", value, pan + 1, 2);
    tell_part(out, b"-", value, pan + 3, 2);
    tell_part(out, b", service code ", value, pan + 5, 3);
    tell_discretionary(out, value, pan + 8, end - (pan + 8));
}

/// Tells the parts of track 2 with an account number of so many digits before the separator; whether it is
/// one.
fn tell_parts(out: &mut WordLines, value: &[u8], pan: usize) -> bool
    requires { pan + 1 ≤ 2 * length value.now }
    ensures words { Tells out.old out.new (or_nothing (spec.separated_track value.now pan)) }
    ensures told { result ≡ is_some (spec.separated_track value.now pan) }
{
    let end = digits_end(value, pan + 1);
    if !is_track(value, pan, end) {
        return false;
    }
    tell_part(out, b"PAN ", value, 0, pan);
    tell_behind(out, value, pan, end);
    true
}

/// Tells track 2 in its parts; whether it is one.
pub(crate) fn tell_track(out: &mut WordLines, value: &[u8]) -> bool
    ensures words { Tells out.old out.new (or_nothing (spec.track_words value.now)) }
    ensures told { result ≡ is_some (spec.track_words value.now) }
{
    let pan = digits_end(value, 0);
    if has_half(value, pan, 13) {
        tell_parts(out, value, pan)
    } else {
        false
    }
}
