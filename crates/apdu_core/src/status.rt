//! The status words SW1 SW2 by their meaning, each as one number (ISO/IEC 7816-4 section 5.1.3; EMV
//! 4.3 Book 3 section 6.3.5 and the tables of its section 6.5).
ghost use Rattle.std.specs.Prelude.{◌≡◌, ◌+◌, ◌≤◌, ◌<◌, Some, IfSome, IfNone, ℕ, ◌≢◌};
ghost use Rattle.apdu_core.specs.Status as spec;

/// Normal processing.
pub const NO_ERROR: u16 = 0x9000;

/// The selected file is invalidated: a blocked application is selected.
pub const FILE_INVALIDATED: u16 = 0x6283;

/// The authentication failed.
pub const AUTHENTICATION_FAILED: u16 = 0x6300;

/// The length is wrong.
pub const WRONG_LENGTH: u16 = 0x6700;

/// The authentication method is blocked.
pub const AUTHENTICATION_BLOCKED: u16 = 0x6983;

/// The referenced data are invalidated.
pub const DATA_INVALIDATED: u16 = 0x6984;

/// The conditions of use are not satisfied.
pub const CONDITIONS_NOT_SATISFIED: u16 = 0x6985;

/// The data objects of secure messaging are incorrect.
pub const WRONG_SECURE_MESSAGING: u16 = 0x6988;

/// The function is not supported: a blocked card.
pub const FUNCTION_NOT_SUPPORTED: u16 = 0x6a81;

/// The file is not found.
pub const FILE_NOT_FOUND: u16 = 0x6a82;

/// The record is not found.
pub const RECORD_NOT_FOUND: u16 = 0x6a83;

/// The parameters P1 P2 are wrong.
pub const WRONG_PARAMETERS: u16 = 0x6a86;

/// The referenced data are not found.
pub const DATA_NOT_FOUND: u16 = 0x6a88;

/// The instruction is not supported.
pub const INSTRUCTION_NOT_SUPPORTED: u16 = 0x6d00;

/// The class is not supported.
pub const CLASS_NOT_SUPPORTED: u16 = 0x6e00;

/// The constants are the numbers that contracts name.
pub fn status_words()
    ensures no_error { NO_ERROR ≡ spec.no_error }
    ensures file_invalidated { FILE_INVALIDATED ≡ spec.file_invalidated }
    ensures authentication_failed { AUTHENTICATION_FAILED ≡ spec.authentication_failed }
    ensures wrong_length { WRONG_LENGTH ≡ spec.wrong_length }
    ensures authentication_blocked { AUTHENTICATION_BLOCKED ≡ spec.authentication_blocked }
    ensures data_invalidated { DATA_INVALIDATED ≡ spec.data_invalidated }
    ensures conditions_not_satisfied { CONDITIONS_NOT_SATISFIED ≡ spec.conditions_not_satisfied }
    ensures wrong_secure_messaging { WRONG_SECURE_MESSAGING ≡ spec.wrong_secure_messaging }
    ensures function_not_supported { FUNCTION_NOT_SUPPORTED ≡ spec.function_not_supported }
    ensures file_not_found { FILE_NOT_FOUND ≡ spec.file_not_found }
    ensures record_not_found { RECORD_NOT_FOUND ≡ spec.record_not_found }
    ensures wrong_parameters { WRONG_PARAMETERS ≡ spec.wrong_parameters }
    ensures data_not_found { DATA_NOT_FOUND ≡ spec.data_not_found }
    ensures instruction_not_supported { INSTRUCTION_NOT_SUPPORTED ≡ spec.instruction_not_supported }
    ensures class_not_supported { CLASS_NOT_SUPPORTED ≡ spec.class_not_supported }
{}

/// The status that gives a counter from 0 to 15, as of the tries that are left: 63Cx.
pub fn counter(left: u8) -> u16
    requires { left ≤ 15 }
    ensures status { result ≡ spec.counter_status left }
    ensures read_again { spec.status_counter result ≡ Some left }
{
    0x63c0 + u16::from(left)
}

/// The counter that a status gives: x of 63Cx, `None` at any other status.
pub fn counter_in(status: u16) -> Option<u8>
    ensures exact { result ≡ spec.status_counter status }
    ensures given { IfSome result (λ left. (left ≤ 15) × (status ≡ spec.counter_status left)) }
    ensures other { IfNone result ((left : ℕ) → left ≤ 15 → status ≢ spec.counter_status left) }
{
    if status / 16 == 0x63c {
        Some((status % 16) as u8)
    } else {
        None
    }
}

/// Whether a status is a warning: its first byte is 62 or 63.
pub fn is_warning(status: u16) -> bool
    ensures { result ≡ spec.is_warning status }
{
    status / 256 == 0x62 || status / 256 == 0x63
}
