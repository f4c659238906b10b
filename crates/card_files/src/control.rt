//! The file control information of an application, and what stands in a payment system directory.
ghost use Rattle.std.specs.Prelude.{◌≡◌, ◌+◌, ◌<◌, ◌≤◌, [], ◌∷◌, ◌++◌, length, IsTrue, IfSome, option_map};
ghost use Rattle.arrayvec.specs.ArrayVec.{array_vec_len};
ghost use Rattle.ber_tlv.specs.Tag.{is_readable};
ghost use Rattle.ber_tlv.specs.Written.{written};
ghost use Rattle.card_files.specs.Control.{written_some, value_of_byte, log_entry, proprietary as proprietary_of, fci_bytes};
ghost use Rattle.card_files.specs.Directory.{directory_fci, directory_record_bytes};
ghost use Rattle.card_files.specs.Lists.{leaves_room};

use crate::app::AppImage;
use arrayvec::ArrayVec;
use ber_tlv::{Tag, write_item};

/// The name of the payment system directory (EMV 4.3 Book 1 section 12.2.2).
pub const DIRECTORY_NAME: [u8; 14] = *b"1PAY.SYS.DDF01";

/// Appends a data object of a tag of one byte, for which there is room.
#[tactic(auto, unfolding(ber_tlv::specs::Written::written))]
fn put<const N: usize>(out: &mut ArrayVec<u8, N>, tag: Tag, value: &[u8])
    requires one_byte { tag.0 < 256 }
    requires readable { IsTrue (is_readable tag.0) }
    requires short { length value.now < 256 }
    requires room { array_vec_len out.old + 3 + length value.now ≤ N }
    ensures items { out.new.items ≡ out.old.items ++ written tag.0 value.now }
    ensures len { array_vec_len out.new ≤ array_vec_len out.old + 3 + length value.now }
{
    if write_item(out, tag, value).is_err() {
        unreachable!();
    }
}

/// Appends a short data object of a tag of one byte, for which there is room.
#[tactic(auto, unfolding(ber_tlv::specs::Written::written))]
fn put_short<const N: usize>(out: &mut ArrayVec<u8, N>, tag: Tag, value: &[u8])
    requires one_byte { tag.0 < 256 }
    requires readable { IsTrue (is_readable tag.0) }
    requires short { length value.now < 128 }
    requires room { array_vec_len out.old + 2 + length value.now ≤ N }
    ensures items { out.new.items ≡ out.old.items ++ written tag.0 value.now }
    ensures len { array_vec_len out.new ≡ array_vec_len out.old + 2 + length value.now }
{
    if write_item(out, tag, value).is_err() {
        unreachable!();
    }
}

/// Appends the application priority indicator, where there is one.
fn put_priority<const N: usize>(out: &mut ArrayVec<u8, N>, priority: Option<u8>)
    requires { array_vec_len out.old + 3 ≤ N }
    ensures items { out.new.items ≡ out.old.items ++ written_some 0x87 (value_of_byte priority) }
    ensures len { array_vec_len out.new ≤ array_vec_len out.old + 3 }
{
    if let Some(priority) = priority {
        put_short(out, Tag(0x87), &[priority]);
    }
}

/// Appends the processing options object list, where there is one.
#[tactic(auto, unfolding(ber_tlv::specs::Written::written))]
fn put_pdol(out: &mut ArrayVec<u8, 240>, pdol: &Option<Vec<u8>>)
    requires room { array_vec_len out.old ≤ 21 }
    requires short { IfSome (option_map (λ list. list.items) pdol.now) (λ list. length list ≤ 200) }
    ensures items { out.new.items ≡ out.old.items ++ written_some 0x9F38 (option_map (λ list. list.items) pdol.now) }
    ensures len { array_vec_len out.new ≤ 225 }
    ensures shorter { IfSome (option_map (λ list. list.items) pdol.now) (λ list. length list < 200) → array_vec_len out.new ≤ 224 }
{
    if let Some(pdol) = pdol {
        if write_item(out, Tag(0x9f38), pdol).is_err() {
            unreachable!();
        }
    }
}

/// The entry of a transaction log: its file, and the most of its records.
#[tactic(auto, unfolding(ber_tlv::specs::Written::written))]
fn entry_of_log(sfi: u8, log: u8) -> ArrayVec<u8, 5>
    ensures items { result.items ≡ written 0x9F4D (sfi ∷ log ∷ []) }
    ensures len { array_vec_len result ≡ 5 }
{
    let mut entry = ArrayVec::new();
    if write_item(&mut entry, Tag(0x9f4d), &[sfi, log]).is_err() {
        unreachable!();
    }
    entry
}

/// Appends the entry of the transaction log, where there is a log.
#[tactic(auto, unfolding(ber_tlv::specs::Written::written))]
fn put_log(out: &mut ArrayVec<u8, 240>, app: &AppImage)
    requires { array_vec_len out.old ≤ 225 }
    ensures items { out.new.items ≡ out.old.items ++ written_some 0xBF0C (log_entry app.now) }
    ensures len { array_vec_len out.new ≤ array_vec_len out.old + 8 }
    ensures none { app.now.log ≡ 0 → array_vec_len out.new ≡ array_vec_len out.old }
{
    if app.log == 0 {
        return;
    }
    let entry = entry_of_log(app.log_sfi, app.log);
    if write_item(out, Tag(0xbf0c), entry.as_slice()).is_err() {
        unreachable!();
    }
}

/// The proprietary template's value.
#[tactic(auto, unfolding(crate::specs::Control::proprietary))]
fn proprietary(app: &AppImage) -> ArrayVec<u8, 240>
    requires label { length app.now.label ≤ 16 }
    requires pdol { IfSome app.now.pdol (λ list. length list ≤ 200) }
    requires room { IsTrue (leaves_room app.now.log app.now.pdol) }
    ensures items { result.items ≡ proprietary_of app.now }
    ensures len { array_vec_len result ≤ 232 }
{
    let mut out = ArrayVec::new();
    put_short(&mut out, Tag(0x50), &app.label);
    put_priority(&mut out, app.priority);
    put_pdol(&mut out, &app.pdol);
    put_log(&mut out, app);
    out
}

/// Replaces `out` by the file control information.
#[tactic(auto, unfolding(crate::specs::Control::fci_bytes))]
pub(crate) fn write_fci(app: &AppImage, out: &mut ArrayVec<u8, 256>)
    requires label { length app.now.label ≤ 16 }
    requires pdol { IfSome app.now.pdol (λ list. length list ≤ 200) }
    requires room { IsTrue (leaves_room app.now.log app.now.pdol) }
    ensures { out.new.items ≡ fci_bytes app.now }
{
    let value = proprietary(app);
    let mut template: ArrayVec<u8, 253> = ArrayVec::new();
    put_short(&mut template, Tag(0x84), app.name.as_slice());
    put(&mut template, Tag(0xa5), value.as_slice());
    out.clear();
    put(out, Tag(0x6f), template.as_slice());
}

/// Replaces `out` by the file control information of a directory of this file.
#[tactic(auto, unfolding(crate::specs::Directory::directory_fci))]
pub(crate) fn write_directory_fci(sfi: u8, out: &mut ArrayVec<u8, 256>)
    ensures { out.new.items ≡ directory_fci sfi }
{
    let mut own: ArrayVec<u8, 3> = ArrayVec::new();
    put_short(&mut own, Tag(0x88), &[sfi]);
    let mut template: ArrayVec<u8, 21> = ArrayVec::new();
    put_short(&mut template, Tag(0x84), &DIRECTORY_NAME);
    put_short(&mut template, Tag(0xa5), own.as_slice());
    out.clear();
    put_short(out, Tag(0x6f), template.as_slice());
}

/// Replaces `out` by the directory's record of an application.
#[tactic(auto, unfolding(crate::specs::Directory::directory_record_bytes))]
pub(crate) fn write_entry(app: &AppImage, out: &mut ArrayVec<u8, 256>)
    requires { length app.now.label ≤ 16 }
    ensures { out.new.items ≡ directory_record_bytes app.now }
{
    let mut entry: ArrayVec<u8, 39> = ArrayVec::new();
    put_short(&mut entry, Tag(0x4f), app.name.as_slice());
    put_short(&mut entry, Tag(0x50), &app.label);
    put_priority(&mut entry, app.priority);
    let mut template: ArrayVec<u8, 41> = ArrayVec::new();
    put_short(&mut template, Tag(0x61), entry.as_slice());
    out.clear();
    put_short(out, Tag(0x70), template.as_slice());
}
