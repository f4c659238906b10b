use card_state::AppState;
use emv_dict::{Digits, Name};
use std::marker::Model;
use triple_des::Key16;

/// A record of a file of a card (EMV 4.3 Book 3 section 5.3). Contracts see it with a list of its bytes.
#[derive(Drop)]
pub struct RecordImage {
    /// The short file identifier, from 1 to 30.
    pub sfi: u8,
    /// The record number, from 1 to 255.
    pub number: u8,
    /// The record's bytes, from 1 to 256.
    pub bytes: Vec<u8>,
}

impl Model for RecordImage {
    ghost use Rattle.card_files.specs.Views.{RecordData};

    ghost Value = { RecordData };

    ghost view = { λ r. record { sfi = r.sfi; number = r.number; bytes = r.bytes.items } };
}

/// An application as it stands on a card before its first transaction. Contracts see it with lists in
/// place of vectors.
#[derive(Drop)]
pub struct AppImage {
    /// The application's name on the card, the DF name, object 84: 5 to 16 bytes.
    pub name: Name,
    /// The application label, object 50: 1 to 16 printable characters of ASCII.
    pub label: Vec<u8>,
    /// The application priority indicator, object 87.
    pub priority: Option<u8>,
    /// The processing options data object list, object 9F38: at most 200 bytes that want at most 252.
    pub pdol: Option<Vec<u8>>,
    /// The application interchange profile, object 82 (EMV 4.3 Book 3 Annex C1).
    pub aip: [u8; 2],
    /// The application file locator, object 94: at most 248 bytes.
    pub afl: Vec<u8>,
    /// The format of the answer to GET PROCESSING OPTIONS, 1 or 2 (EMV 4.3 Book 3 section 6.5.8.4).
    pub gpo_format: u8,
    /// The format of the answer to GENERATE AC, 1 or 2 (EMV 4.3 Book 3 section 6.5.5.4).
    pub ac_format: u8,
    /// The object list of the first GENERATE AC, object 8C: at most 252 bytes that want at most 252.
    pub cdol1: Vec<u8>,
    /// The object list of the second GENERATE AC, object 8D: at most 252 bytes that want at most 252.
    pub cdol2: Vec<u8>,
    /// At most 64 records, no two of one number in one file.
    pub records: Vec<RecordImage>,
    /// The primary account number: 13 to 19 digits.
    pub pan: Digits,
    /// The account number's sequence number, object 5F34: the byte of its two decimal digits.
    pub sequence: u8,
    /// The currency in which the card counts offline amounts: a zero and three decimal digits.
    pub currency: [u8; 2],
    /// The state before the first decision. Its count and its sums are 0, its log is empty, no issuer
    /// authentication has failed, its tries are `tries`, its second limit is `limit_two` and the most
    /// rows of its log are `log`.
    pub opening: AppState,
    /// The PIN try limit, at most 15.
    pub tries: u8,
    /// The master key for application cryptograms (EMV 4.3 Book 2 section 8.1).
    pub ac_key: Key16,
    /// A second currency in which the card counts offline amounts: another one than the first.
    pub currency_two: Option<[u8; 2]>,
    /// The greatest sum of offline amounts in the second currency, in its least unit.
    pub limit_two: u64,
    /// The most rows of the transaction log, at most 10; 0 for none (EMV 4.3 Book 3 Annex D).
    pub log: u8,
    /// The short file identifier of the log, from 11 to 30. With a log no record has it.
    pub log_sfi: u8,
    /// The master key for the codes of script commands (EMV 4.3 Book 2 section 9.2).
    pub mac_key: Key16,
    /// The master key for enciphered data of script commands (EMV 4.3 Book 2 section 9.3).
    pub enc_key: Key16,
}

impl Model for AppImage {
    ghost use Rattle.std.specs.Prelude.{option_map};
    ghost use Rattle.card_files.specs.Views.{AppData};

    ghost Value = { AppData };

    ghost view = { λ a. record {
      name = a.name;
      label = a.label.items;
      priority = a.priority;
      pdol = option_map (λ list. list.items) a.pdol;
      aip = a.aip;
      afl = a.afl.items;
      gpo_format = a.gpo_format;
      ac_format = a.ac_format;
      cdol1 = a.cdol1.items;
      cdol2 = a.cdol2.items;
      records = a.records.items;
      pan = a.pan;
      sequence = a.sequence;
      currency = a.currency;
      opening = a.opening;
      tries = a.tries;
      ac_key = a.ac_key;
      currency_two = a.currency_two;
      limit_two = a.limit_two;
      log = a.log;
      log_sfi = a.log_sfi;
      mac_key = a.mac_key;
      enc_key = a.enc_key;
    } };
}
