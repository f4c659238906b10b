//! The fields before field 55.
ghost use Rattle.std.specs.Prelude.{◌≡◌, Ok, Err, MatchResult};
ghost use Rattle.iso_message.specs.Front.{account_field_at, processing_at, numbers_at, acceptor_at, request_bitmap_at, pin_at, request_front_at, present_front_at, reversal_front_at, tied as tied_numbers};

use crate::bits::{present_bits, request_bits, reversal_bits};
use crate::digits::{are_numerals, digits_of, one_byte, six_bytes, two_bytes};
use crate::fault::IsoFault;
use crate::numeral::{counter, reference};
use crate::reader::Reader;
use emv_dict::{Digits, is_pan_length};

/// The amount of field 4, and fields 11 and 37 as they stand in the message.
#[derive(Clone, Copy)]
pub struct Numbers {
    pub t9f02: [u8; 6],
    pub audit: [u8; 6],
    pub reference: [u8; 12],
}

/// The terminal of field 41 and the currency of field 49.
#[derive(Clone, Copy)]
pub struct Acceptor {
    pub t9f1c: [u8; 8],
    pub t5f2a: [u8; 2],
}

/// The fields of a request before field 55.
#[derive(Drop)]
pub struct RequestFront {
    pub pan: Digits,
    pub t9c: [u8; 1],
    pub numbers: Numbers,
    pub acceptor: Acceptor,
    pub tdf11: Option<[u8; 8]>,
}

/// The fields of a presentment before field 55.
#[derive(Drop)]
pub struct PresentFront {
    pub pan: Digits,
    pub t9c: [u8; 1],
    pub numbers: Numbers,
    pub t8a: [u8; 2],
    pub acceptor: Acceptor,
}

/// The fields of a reversal before field 55.
#[derive(Drop)]
pub struct ReversalFront {
    pub pan: Digits,
    pub numbers: Numbers,
    pub t8a: [u8; 2],
    pub acceptor: Acceptor,
}

/// The account number of field 2.
#[tactic(auto, unfolding(crate::specs::Front::account_field_at))]
fn read_account(reader: &mut Reader) -> Result<Digits, IsoFault>
    ensures { MatchResult result (λ v. account_field_at reader.old ≡ Ok (v, reader.new)) (λ fault. account_field_at reader.old ≡ Err fault) }
{
    let characters = reader.counted::<2>(2)?;
    if !are_numerals(characters) {
        return Err(IsoFault::Field(2));
    }
    if !is_pan_length(characters.len()) {
        return Err(IsoFault::Field(2));
    }
    Ok(digits_of(characters))
}

/// The transaction type of field 3.
#[tactic(auto, unfolding(crate::specs::Front::processing_at))]
fn read_processing(reader: &mut Reader) -> Result<[u8; 1], IsoFault>
    ensures { MatchResult result (λ v. processing_at reader.old ≡ Ok (v, reader.new)) (λ fault. processing_at reader.old ≡ Err fault) }
{
    let characters: [u8; 6] = reader.digits(3)?;
    if &characters[2..] != b"0000".as_slice() {
        return Err(IsoFault::Field(3));
    }
    Ok(one_byte(&characters[..2]))
}

/// Fields 4, 11 and 37.
#[tactic(auto, unfolding(crate::specs::Front::numbers_at))]
fn read_numbers(reader: &mut Reader) -> Result<Numbers, IsoFault>
    ensures { MatchResult result (λ v. numbers_at reader.old ≡ Ok (v, reader.new)) (λ fault. numbers_at reader.old ≡ Err fault) }
{
    let amount: [u8; 12] = reader.digits(4)?;
    let audit: [u8; 6] = reader.digits(11)?;
    let reference: [u8; 12] = reader.array()?;
    Ok(Numbers {
        t9f02: six_bytes(&amount),
        audit,
        reference,
    })
}

/// Fields 41 and 49.
#[tactic(auto, unfolding(crate::specs::Front::acceptor_at))]
fn read_acceptor(reader: &mut Reader) -> Result<Acceptor, IsoFault>
    ensures { MatchResult result (λ v. acceptor_at reader.old ≡ Ok (v, reader.new)) (λ fault. acceptor_at reader.old ≡ Err fault) }
{
    let t9f1c: [u8; 8] = reader.array()?;
    let currency: [u8; 3] = reader.digits(49)?;
    Ok(Acceptor {
        t9f1c,
        t5f2a: two_bytes(&currency),
    })
}

/// Whether the bitmap of a request names the block of a PIN.
#[tactic(auto, unfolding(crate::specs::Front::request_bitmap_at))]
fn read_request_bitmap(reader: &mut Reader) -> Result<bool, IsoFault>
    ensures { MatchResult result (λ v. request_bitmap_at reader.old ≡ Ok (v, reader.new)) (λ fault. request_bitmap_at reader.old ≡ Err fault) }
{
    let bits: [u8; 8] = reader.array()?;
    if bits == request_bits(true) {
        Ok(true)
    } else if bits == request_bits(false) {
        Ok(false)
    } else {
        Err(IsoFault::Bitmap)
    }
}

/// The block of field 52 where the bitmap names it.
#[tactic(auto, unfolding(crate::specs::Front::pin_at))]
fn read_pin(reader: &mut Reader, named: bool) -> Result<Option<[u8; 8]>, IsoFault>
    ensures { MatchResult result (λ v. pin_at named reader.old ≡ Ok (v, reader.new)) (λ fault. pin_at named reader.old ≡ Err fault) }
{
    if !named {
        return Ok(None);
    }
    let block: [u8; 8] = reader.array()?;
    Ok(Some(block))
}

/// Reads the bitmap of a request and its fields before field 55.
#[tactic(auto, unfolding(crate::specs::Front::request_front_at))]
pub fn request_front(reader: &mut Reader) -> Result<RequestFront, IsoFault>
    ensures { MatchResult result (λ v. request_front_at reader.old ≡ Ok (v, reader.new)) (λ fault. request_front_at reader.old ≡ Err fault) }
{
    let named = read_request_bitmap(reader)?;
    let pan = read_account(reader)?;
    let t9c = read_processing(reader)?;
    let numbers = read_numbers(reader)?;
    let acceptor = read_acceptor(reader)?;
    let tdf11 = read_pin(reader, named)?;
    Ok(RequestFront {
        pan,
        t9c,
        numbers,
        acceptor,
        tdf11,
    })
}

/// The same of a presentment.
#[tactic(auto, unfolding(crate::specs::Front::present_front_at))]
pub fn present_front(reader: &mut Reader) -> Result<PresentFront, IsoFault>
    ensures { MatchResult result (λ v. present_front_at reader.old ≡ Ok (v, reader.new)) (λ fault. present_front_at reader.old ≡ Err fault) }
{
    reader.bits(present_bits())?;
    let pan = read_account(reader)?;
    let t9c = read_processing(reader)?;
    let numbers = read_numbers(reader)?;
    let t8a: [u8; 2] = reader.array()?;
    let acceptor = read_acceptor(reader)?;
    Ok(PresentFront {
        pan,
        t9c,
        numbers,
        t8a,
        acceptor,
    })
}

/// The same of a reversal.
#[tactic(auto, unfolding(crate::specs::Front::reversal_front_at))]
pub fn reversal_front(reader: &mut Reader) -> Result<ReversalFront, IsoFault>
    ensures { MatchResult result (λ v. reversal_front_at reader.old ≡ Ok (v, reader.new)) (λ fault. reversal_front_at reader.old ≡ Err fault) }
{
    reader.bits(reversal_bits())?;
    let pan = read_account(reader)?;
    let numbers = read_numbers(reader)?;
    let t8a: [u8; 2] = reader.array()?;
    let acceptor = read_acceptor(reader)?;
    Ok(ReversalFront {
        pan,
        numbers,
        t8a,
        acceptor,
    })
}

/// That fields 11 and 37 are those of the counter.
#[tactic(auto, unfolding(crate::specs::Front::tied))]
pub fn tied(numbers: &Numbers, t9f36: [u8; 2]) -> Result<(), IsoFault>
    ensures { result ≡ tied_numbers numbers.now t9f36 }
{
    if numbers.audit != counter(t9f36) {
        return Err(IsoFault::Field(11));
    }
    if numbers.reference != reference(t9f36) {
        return Err(IsoFault::Field(37));
    }
    Ok(())
}
