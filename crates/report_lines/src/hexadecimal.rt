//! Bytes in hexadecimal.
ghost use Rattle.std.specs.Prelude.{◌≡◌, Ok, IfOk, IfSome, option_map};
ghost use Rattle.report_lines.specs.Bytes.{hex_in, bytes_told, is_lower as no_capitals};

use hex::FromHexError;
use std::alloc::{AllocError, Global};

/// Whether each character is a digit or a lower-case letter.
fn is_lower(text: &[u8]) -> bool
    ensures { result ≡ no_capitals text.now }
{
    text.iter().all(|byte| *byte < b'A' || *byte > b'F')
}

/// The bytes that a text writes in lower-case hexadecimal, `-` for none; `None` where it writes none.
#[tactic(auto, unfolding(crate::specs::Bytes::hex_in, crate::specs::Bytes::bytes_told))]
pub fn bytes_of(alloc: Global, text: &[u8]) -> Result<Option<Vec<u8>>, AllocError>
    ensures bytes { IfOk result (λ found. IfSome found (λ bytes. hex_in text.now ≡ Ok bytes.items)) }
    ensures exact { IfOk result (λ found. option_map (λ bytes. bytes.items) found ≡ bytes_told text.now) }
{
    if text == b"-".as_slice() {
        return Ok(Some(Vec::new(alloc)));
    }
    if text.is_empty() || !is_lower(text) {
        return Ok(None);
    }
    match hex::decode(alloc, text) {
        Ok(bytes) => Ok(Some(bytes)),
        Err(FromHexError::OutOfMemory) => Err(AllocError),
        Err(_) => Ok(None),
    }
}
