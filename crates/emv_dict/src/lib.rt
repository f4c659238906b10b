//! The data dictionary of EMV 4.3 Book 3 Annex A as far as a contact payment uses it, the
//! terminal's flags of Annex C, and the plain types that the terminal, the card and the issuer share.
#![tactic(auto)]

pub mod ac;
pub mod bcd;
pub mod date;
pub mod dictionary;
pub mod digits;
pub mod ending;
pub mod judged;
pub mod name;
pub mod nibble;
pub mod pan;
pub mod purchase;
pub mod tsi;
pub mod tvr;
pub mod verified;

pub use ac::Ac;
pub use bcd::{
    MOST_AMOUNT, amount_bytes, amount_of, has_digits, is_code, two_digit_number, two_digits,
};
pub use date::Date;
pub use dictionary::{Format, Origin, Row, tag_row};
pub use digits::{Digits, is_pin_length};
pub use ending::{Cause, Ending, Kind, Step};
pub use judged::Judged;
pub use name::Name;
pub use nibble::nibble_at;
pub use pan::{LEAST_PAN, MOST_PAN, PanFault, is_pan_length, pan_digits, pan_field};
pub use purchase::{AidRow, Logged, Purchase, Settings};
pub use tsi::Tsi;
pub use tvr::Tvr;
pub use verified::Verified;
