//! The rules of an application's keys.
ghost use Rattle.std.specs.Prelude.{◌≡◌, ◌==◌, ◌&&◌, ◌≤◌, ◌↔◌, List, ℕ, length, IsTrue, IfSome};
ghost use Rattle.std.specs.List.{list_all, list_any};
ghost use Rattle.emv_dict.specs.Digits.{least_pin, most_pin};
ghost use Rattle.pin_block.specs.Block.{IsPin, block_of};
ghost use Rattle.card_files.specs.AppRules as spec;

use crate::app::RecordImage;
use crate::files::is_file;
use card_state::AppState;
use emv_dict::{Digits, MOST_AMOUNT, is_code};
use pin_block::{plain_block, read_plain};

/// The most bytes of an image's application file locator: 62 entries of four bytes.
pub const MOST_AFL: usize = 248;

/// The most records of an application.
pub const MOST_RECORDS: usize = 64;

/// Whether the bytes are an application's name: 5 to 16 of them (EMV 4.3 Book 1 section 12.2.1).
pub fn is_name(bytes: &[u8]) -> bool
    ensures { result ≡ spec.is_name bytes.now }
{
    5 <= bytes.len() && bytes.len() <= 16
}

/// Whether each byte is a printable character of ASCII, from 20 to 7E.
pub fn is_printable_text(text: &[u8]) -> bool
    ensures { result ≡ list_all spec.is_printable text.now }
{
    text.iter().all(|c| 32 <= *c && *c <= 126)
}

/// Whether the bytes are an application label: 1 to 16 printable characters of ASCII.
pub fn is_label(text: &[u8]) -> bool
    ensures { result ≡ spec.is_label text.now }
{
    (!text.is_empty() && text.len() <= 16) && is_printable_text(text)
}

/// Whether the bytes may be an image's application file locator: at most 248 of them.
pub fn is_afl(bytes: &[u8]) -> bool
    ensures { result ≡ spec.is_afl bytes.now }
{
    bytes.len() <= MOST_AFL
}

/// Whether the number names a format of a command's answer: 1 or 2.
pub fn is_format(number: u8) -> bool
    ensures { result ≡ spec.is_format number }
{
    number == 1 || number == 2
}

/// Whether a file's identifier is 1 to 30, the record's number 1 to 255, and its size 1 to 256 bytes.
pub fn is_record(image: &RecordImage) -> bool
    ensures { result ≡ spec.is_record image.now }
{
    (1 <= image.sfi && image.sfi <= 30)
        && 1 <= image.number
        && (!image.bytes.is_empty() && image.bytes.len() <= 256)
}

/// Whether the two records have one number in one file.
pub fn is_pair(first: &RecordImage, second: &RecordImage) -> bool
    ensures { result ≡ spec.is_pair first.now second.now }
{
    first.sfi == second.sfi && first.number == second.number
}

/// Whether any of these records has the number of this one in its file.
pub fn is_among(image: &RecordImage, images: &[RecordImage]) -> bool
    ensures { result ≡ list_any (spec.is_pair image.now) images.now }
{
    images.iter().any(|other| is_pair(image, other))
}

/// Whether any two records have one number in one file.
pub fn has_twins(images: &[RecordImage]) -> bool
    ensures { result ≡ spec.has_twins images.now }
{
    match images {
        [] => false,
        [first, rest @ ..] => is_among(first, rest) || has_twins(rest),
    }
}

fn each_record(images: &[RecordImage]) -> bool
    ensures { result ≡ list_all spec.is_record images.now }
{
    images.iter().all(is_record)
}

/// Whether these may be an application's records: at most 64, each in its limits, and no two of one
/// number in one file.
pub fn are_records(images: &[RecordImage]) -> bool
    ensures { result ≡ spec.are_records images.now }
{
    images.len() <= MOST_RECORDS && (each_record(images) && !has_twins(images))
}

/// Whether the sum has at most 12 decimal digits.
pub fn is_sum_limit(sum: u64) -> bool
    ensures { result ≡ spec.is_sum_limit sum }
{
    sum <= MOST_AMOUNT
}

/// Whether the bytes are a reference PIN: a plain block of format 2, or eight zero bytes for none.
pub fn is_reference_pin(block: [u8; 8]) -> bool
    ensures { result ≡ spec.is_reference_pin block }
{
    block == [0; 8] || is_plain_block(block)
}

/// The reference PIN of an image: the plain block of format 2 of a PIN, or eight zero bytes for none.
pub fn reference_pin(pin: &Option<Digits>) -> [u8; 8]
    requires { IfSome pin.now (λ digits. (least_pin ≤ length digits) × (length digits ≤ most_pin)) }
    ensures value { result ≡ spec.reference_pin pin.now }
    ensures rule { IsTrue (spec.is_reference_pin result) }
{
    match pin {
        Some(pin) => plain_block(pin),
        None => [0; 8],
    }
}

/// Whether the bytes are a plain PIN block of format 2 with 4 to 12 digits.
pub fn is_plain_block(block: [u8; 8]) -> bool
    ensures value { result ≡ spec.is_plain_block block }
    ensures pin { IsTrue result ↔ ((pin : List ℕ) × IsPin pin × (block_of 2 pin ≡ block)) }
{
    read_plain(block).is_some()
}

/// Whether this may be a PIN try limit: at most 15.
pub fn is_tries(limit: u8) -> bool
    ensures { result ≡ spec.is_tries limit }
{
    limit <= 15
}

/// The most rows of a transaction log.
pub const MOST_ROWS: u8 = 10;

/// Whether a transaction log may have so many rows at most: up to 10.
pub fn is_log_size(rows: u8) -> bool
    ensures { result ≡ spec.is_log_size rows }
{
    rows <= MOST_ROWS
}

/// Whether this may be the file of a transaction log of so many rows: its identifier is 11 to 30, and
/// with a log none of these records is in it.
pub fn is_log_file(log: u8, sfi: u8, images: &[RecordImage]) -> bool
    ensures { result ≡ spec.is_log_file log sfi images.now }
{
    (11 <= sfi && sfi <= 30) && (log == 0 || !is_file(images, sfi))
}

/// Whether this is no second currency, or one of three digits that is not the first.
pub fn is_second_code(first: [u8; 2], second: Option<[u8; 2]>) -> bool
    ensures { result ≡ spec.is_second_code first second }
{
    match second {
        Some(code) => is_code(code) && code != first,
        None => true,
    }
}

/// Whether nothing is counted or logged in the state yet, no issuer authentication has failed, and its
/// PIN tries are the limit.
pub fn is_unused(state: &AppState, tries: u8) -> bool
    ensures { result ≡ spec.is_unused tries state.now }
{
    state.count == 0
        && (state.sum == 0
            && (state.sum_two == 0
                && (state.log.is_empty() && (!state.auth_failed && state.tries == tries))))
}

/// Whether the state may be an application's before its first decision: it is unused, and its second
/// limit and the most rows of its log are these.
pub fn is_opening(state: &AppState, tries: u8, limit_two: u64, log: u8) -> bool
    ensures { result ≡ spec.is_opening tries limit_two log state.now }
{
    is_unused(state, tries) && (state.limit_two == limit_two && state.log_max == log)
}
