//! The records of an application's files.
ghost use Rattle.std.specs.Prelude.{◌≡◌, ◌==◌, ◌&&◌, option_map, ◌≤◌, length, IsTrue, IfSome};
ghost use Rattle.std.specs.List.{list_any, list_all};
ghost use Rattle.card_files.specs.AppRules.{is_record};
ghost use Rattle.card_files.specs.Files as spec;
ghost use Rattle.card_files.specs.Files.{has_record_of};

use crate::app::RecordImage;

/// The bytes of the record of a file with this number.
pub(crate) fn record_in(records: &[RecordImage], sfi: u8, number: u8) -> Option<&[u8]>
    requires { IsTrue (list_all is_record records.now) }
    ensures exact { option_map (λ bytes. bytes.now) result ≡ spec.record_in sfi number records.now }
    ensures size { IfSome result (λ bytes. (1 ≤ length bytes.now) × (length bytes.now ≤ 256)) }
{
    match records {
        [] => None,
        [first, rest @ ..] => {
            if first.sfi == sfi && first.number == number {
                return Some(first.bytes.as_slice());
            }
            record_in(rest, sfi, number)
        }
    }
}

/// Whether any record of the file is there.
pub(crate) fn is_file(records: &[RecordImage], sfi: u8) -> bool
    ensures { result ≡ has_record_of sfi records.now }
{
    records.iter().any(|r| r.sfi == sfi)
}
