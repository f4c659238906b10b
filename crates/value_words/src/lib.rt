//! Names of data objects, bits and codes in the words of EMV 4.3, each written here once; and what is told by
//! them: numbers, digits, characters, lists and the fields that they make of data, statuses, and why a
//! terminal asked for a kind of cryptogram (Book 3 section 10.7).
#![tactic(auto)]

pub mod asking;
pub mod bits;
pub mod codes;
pub mod fields;
pub mod laws;
pub mod lists;
pub mod look_up;
pub mod names;
pub mod phrases;
pub mod plain;
pub mod reason;
pub mod status;
pub mod told;

pub use asking::{Asking, CardCodes, Reach, Row, reach_of};
pub use bits::{
    ADDITIONAL_BITS, CAPABILITY_BITS, INTERCHANGE_BITS, RESULT_BITS, STATUS_BITS, UPDATE_BITS,
    USAGE_BITS,
};
pub use codes::{
    ANSWERS, CAUSES, CONDITIONS, CRYPTOGRAMS, FIELDS, MESSAGE_TYPES, METHODS, OUTCOMES, REFUSALS,
    RESPONSES, SCRIPT_COMMANDS, STATUSES, STEPS, TERMINAL_TYPES, TRADES,
};
pub use fields::{Fields, fits, has_field, next_entry, next_field, value_in};
pub use laws::{references_are_whole, tables_are_whole};
pub use lists::{tell_list, tell_locator, tell_method_result, tell_methods, tell_performed_rule};
pub use look_up::name_of;
pub use names::{Form, NAMES};
pub use plain::{
    all_digits, digits_in, number_in, tell_amount, tell_code, tell_date, tell_digits, tell_hex,
    tell_log_entry, tell_number, tell_priority, tell_text, tell_time,
};
pub use reason::{Reason, found_of, reason_of};
pub use status::{tell_status, tell_status_line};
pub use told::{has_bit, tell_bits, tell_reason};
