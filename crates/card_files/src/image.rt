ghost use Rattle.std.specs.Prelude.{◌≡◌, [], List, ℕ, IsTrue, ◌<◌, ◌≤◌, ◌-◌, ◌↔◌, false, length, slice_get, is_some, IfOk, IsOk, IfSome, None, MatchResult, Some, option_map, option_copied};
ghost use Rattle.std.specs.List.{All};
ghost use Rattle.card_state.specs.Encoding.{HasShortLogs};
ghost use Rattle.card_state.specs.Totals.{totals};
ghost use Rattle.card_files.specs.Control.{fci_bytes, IsFci};
ghost use Rattle.card_files.specs.Faults.{image_fault};
ghost use Rattle.card_files.specs.Files as spec;
ghost use Rattle.card_files.specs.Files.{record_of, HasRecord, opening_of};
ghost use Rattle.card_files.specs.Directory.{directory_named, directory_record, directory_fci as fci_of_directory, IsDirectoryFci, IsDirectoryRecord};
ghost use Rattle.card_files.specs.ImageRules.{KeepsRules, AreApps, IsDirectoryFile, AreInSight, IsImage};
ghost use Rattle.card_files.specs.SeenFault.{seen_fault};

use crate::app::AppImage;
use crate::control::{DIRECTORY_NAME, write_directory_fci, write_entry, write_fci};
use crate::fault::{ImageFault, first_fault};
use crate::files::{is_file, record_in};
use arrayvec::ArrayVec;
use card_state::CardState;
use std::marker::Model;

/// The image of a card: 1 to 4 applications in the order in which SELECT tries them, each in its rules
/// and with a name of its own; the form of the card's state before its first decision; and, where the
/// card has a payment system directory, the directory's file. Contracts see these three.
#[derive(Drop)]
pub struct Image {
    apps: Vec<AppImage>,
    version: u8,
    directory: Option<u8>,
}

impl Model for Image {
    ghost use Rattle.card_files.specs.Views.{ImageData};
    ghost use Rattle.card_files.specs.ImageRules.{IsImage};

    ghost Value = { ImageData };

    ghost view = { λ image. record { apps = image.apps.items; version = image.version; directory = image.directory } };

    ghost invariant = { λ image. IsImage (record { apps = image.apps.items; version = image.version; directory = image.directory }) };
}

impl Image {
    /// The image of these applications, with a state of this form and a payment system directory in
    /// this file, or the first fault. `Count` comes exactly where they aren't 1 to 4 applications. Else
    /// `Field` comes, application by application, with the first key against its rule, in the order
    /// `name`, `label`, `pdol`, `afl`, `gpo_format`, `ac_format`, `cdol1`, `cdol2`, `record`, `pan`,
    /// `sequence`, `currency`, `sum_limit`, `pin`, `tries`, `currency_two`, `limit_two`, `log`,
    /// `log_sfi`, `opening`. Where no application has such a key, `SameName` comes for the first one
    /// whose name an earlier one has, and then, with a directory, `Field` with the key `pse` for the
    /// first one whose name begins with the directory's. No memory is taken.
    pub fn new(apps: Vec<AppImage>, version: u8, pse: Option<u8>) -> Result<Image, ImageFault>
        requires version { (1 ≤ version) × (version ≤ 2) }
        requires file { IsDirectoryFile pse }
        ensures exact { MatchResult result
            (λ image. (image ≡ record { apps = apps.items; version = version; directory = pse }) × (image_fault apps.items pse ≡ None))
            (λ fault. image_fault apps.items pse ≡ Some (seen_fault fault)) }
        ensures image { IfOk result IsImage }
        ensures all { AreApps apps.items → AreInSight pse apps.items → IsOk result }
    {
        match first_fault(&apps, pse) {
            Some(fault) => Err(fault),
            None => Ok(Image {
                apps,
                version,
                directory: pse,
            }),
        }
    }

    /// The applications, in order.
    pub fn apps(&self) -> &[AppImage]
        ensures apps { result.now ≡ self.now.apps }
        ensures faultless { image_fault self.now.apps self.now.directory ≡ None }
        ensures image { IsImage self.now }
        ensures count { length result.now ≡ length self.now.apps }
        ensures some { 1 ≤ length result.now }
        ensures few { length result.now ≤ 4 }
        ensures rules { All KeepsRules result.now }
    {
        &self.apps
    }

    /// The form of the card's state before its first decision, 1 or 2.
    pub fn version(&self) -> u8
        ensures version { result ≡ self.now.version }
        ensures known { (1 ≤ result) × (result ≤ 2) }
    {
        self.version
    }

    /// The short file identifier of the payment system directory, from 1 to 10, where the card has one
    /// (EMV 4.3 Book 1 section 12.2.3).
    pub fn pse(&self) -> Option<u8>
        ensures directory { result ≡ self.now.directory }
        ensures file { IsDirectoryFile result }
        ensures sight { AreInSight result self.now.apps }
    {
        self.directory
    }

    /// The file of the directory, where the card has one and this is the directory's name.
    pub fn directory_named(&self, name: &[u8]) -> Option<u8>
        ensures { result ≡ directory_named self.now name.now }
    {
        if name == DIRECTORY_NAME.as_slice() {
            self.pse()
        } else {
            None
        }
    }

    /// The application of this number, where there is one.
    fn find(&self, app: u8) -> Option<&AppImage>
        ensures found { option_map (λ image. image.now) result ≡ slice_get self.now.apps app }
        ensures rules { IfSome result (λ image. KeepsRules image.now) }
    {
        self.apps().get(usize::from(app))
    }

    /// The bytes of the record of this number in a file of an application; `None` where there is no
    /// such application, file or number.
    pub fn record(&self, app: u8, sfi: u8, number: u8) -> Option<&[u8]>
        ensures exact { option_map (λ bytes. bytes.now) result ≡ record_of self.now.apps app sfi number }
        ensures held { IfSome result (λ bytes. HasRecord self.now.apps app sfi number bytes.now) }
        ensures only { (bytes : List ℕ) → HasRecord self.now.apps app sfi number bytes
            → option_map (λ found. found.now) result ≡ Some bytes }
        ensures size { IfSome result (λ bytes. (1 ≤ length bytes.now) × (length bytes.now ≤ 256)) }
    {
        match self.find(app) {
            Some(image) => record_in(&image.records, sfi, number),
            None => None,
        }
    }

    /// Whether an application has a file of this identifier.
    pub fn has_file(&self, app: u8, sfi: u8) -> bool
        ensures value { result ≡ spec.has_file self.now.apps app sfi }
        ensures some { IsTrue result
            ↔ ((number : ℕ) × (bytes : List ℕ) × HasRecord self.now.apps app sfi number bytes) }
    {
        match self.find(app) {
            Some(image) => is_file(&image.records, sfi),
            None => false,
        }
    }

    /// Replaces `out` by the file control information of an application (EMV 4.3 Book 1 section
    /// 11.3.4).
    pub fn fci(&self, app: u8, out: &mut ArrayVec<u8, 256>)
        requires { app < length self.now.apps }
        ensures bytes { IfSome (slice_get self.now.apps app) (λ image. out.new.items ≡ fci_bytes image) }
        ensures read { IfSome (slice_get self.now.apps app) (λ image. IsFci image out.new.items) }
    {
        write_fci(&self.apps()[usize::from(app)], out);
    }

    /// Replaces `out` by the directory's record of this number: the entry of an application, the first
    /// one being number 1 (EMV 4.3 Book 1 section 12.2.3). Gives whether there is one; else `out` stays.
    pub fn directory_record(&self, number: u8, out: &mut ArrayVec<u8, 256>) -> bool
        requires { 1 ≤ number }
        ensures there { result ≡ is_some (directory_record self.now.apps number) }
        ensures bytes { IsTrue result → directory_record self.now.apps number ≡ Some out.new.items }
        ensures read { IsTrue result → IfSome (slice_get self.now.apps (number - 1)) (λ image. IsDirectoryRecord image out.new.items) }
        ensures none { result ≡ false → out.new.items ≡ out.old.items }
    {
        match self.find(number - 1) {
            Some(app) => {
                write_entry(app, out);
                true
            }
            None => false,
        }
    }

    /// Replaces `out` by the state of the card before its first decision.
    pub fn opening(&self, out: &mut CardState)
        ensures value { out.new ≡ opening_of self.now }
        ensures totals { totals out.new [] ≡ out.new }
        ensures short { HasShortLogs out.new }
    {
        out.blocked = false;
        out.apps.clear();
        for image in self.apps() {
            out.apps.push(image.opening.copy());
        }
    }
}

/// Replaces `out` by the file control information of a payment system directory in this file (EMV 4.3
/// Book 1 section 12.2.2).
pub fn directory_fci(sfi: u8, out: &mut ArrayVec<u8, 256>)
    ensures bytes { out.new.items ≡ fci_of_directory sfi }
    ensures read { IsDirectoryFci sfi out.new.items }
{
    write_directory_fci(sfi, out);
}
