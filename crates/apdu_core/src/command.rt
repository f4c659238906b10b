ghost use Rattle.std.specs.Prelude.{MatchResult, MatchOption, Some, None, ◌≡◌, ℕ, List, ◌∷◌, ◌++◌, ◌+◌, ◌↔◌, ◌<◌, ◌≤◌, length, IfOk, IsErrOf, IsSomeAnd, IfSome, IsOkAnd};
ghost use Rattle.std.specs.declared.option.Option.{Option};
ghost use Rattle.apdu_core.specs.Command.{CommandData, command_bytes, record_command, command_of, field_of, tail_bytes, tail_of};
ghost use Rattle.apdu_core.specs.Seen.{seen_command};

use arrayvec::ArrayVec;
use ber_tlv::append;

/// The bytes of a command: at most a header, a length, 255 data bytes and an expected length.
pub type Out = ArrayVec<u8, 261>;

/// A command of the terminal (ISO/IEC 7816-4 section 5.1).
#[derive(Clone, Copy, PartialEq, Eq, Debug)]
pub struct Command<'a> {
    /// CLA.
    pub class: u8,
    /// INS.
    pub ins: u8,
    pub p1: u8,
    pub p2: u8,
    /// The data field, of at most 255 bytes; empty where there is none.
    pub body: &'a [u8],
    /// The expected length Le, where the command has one. 00 asks for up to 256 bytes.
    pub expects: Option<u8>,
}

/// Why bytes are no command or no response.
#[derive(Clone, Copy, PartialEq, Eq, Debug)]
pub enum ApduFault {
    /// There are fewer bytes than a header, or than a status.
    Short,
    /// The number of bytes is not the one that the length byte Lc gives, Lc is 0, or a response
    /// is too long.
    LengthMismatch,
}

/// Reads a command from all of `bytes`: a header of four bytes, then nothing, an expected length,
/// or a data field behind its length Lc with or without an expected length.
#[tactic(auto, unfolding(crate::specs::Command::command_of))]
pub fn read_command(bytes: &[u8]) -> Result<Command<'_>, ApduFault>
    ensures exact { MatchResult result (λ command. command_of bytes.now ≡ Some (seen_command command)) (λ _. command_of bytes.now ≡ None) }
    ensures spelled { IfOk result (λ command. command_bytes (seen_command command) ≡ bytes.now) }
    ensures known { (command : CommandData) → command_bytes command ≡ bytes.now → IsOkAnd result (λ found. seen_command found ≡ command) }
    ensures short { IsErrOf result ApduFault.Short ↔ (length bytes.now < 4) }
    ensures mismatch { IsErrOf result ApduFault.LengthMismatch → 4 ≤ length bytes.now }
{
    let [class, ins, p1, p2, tail @ ..] = bytes else {
        return Err(ApduFault::Short);
    };
    match read_tail(tail) {
        None => Err(ApduFault::LengthMismatch),
        Some((body, expects)) => Ok(Command {
            class: *class,
            ins: *ins,
            p1: *p1,
            p2: *p2,
            body,
            expects,
        }),
    }
}

/// What follows a header: the data field and the expected length.
fn read_tail(tail: &[u8]) -> Option<(&[u8], Option<u8>)>
    ensures exact { MatchOption result (tail_of tail.now ≡ None) (λ found. tail_of tail.now ≡ Some (found.0.now, found.1)) }
    ensures spelled { IfSome result (λ found. tail_bytes found.0.now found.1 ≡ tail.now) }
    ensures known { (body : List ℕ) (expects : Option ℕ) → tail_bytes body expects ≡ tail.now → IsSomeAnd result (λ found. (found.0.now ≡ body) × (found.1 ≡ expects)) }
{
    match tail {
        [] => Some((&[], None)),
        [expected] => Some((&[], Some(*expected))),
        [count, field @ ..] => read_field(*count, field),
    }
}

/// A data field of `count` bytes, and one more byte where there is an expected length.
fn read_field(count: u8, field: &[u8]) -> Option<(&[u8], Option<u8>)>
    requires { 0 < length field.now }
    ensures exact { MatchOption result (field_of count field.now ≡ None) (λ found. field_of count field.now ≡ Some (found.0.now, found.1)) }
    ensures spelled { IfSome result (λ found. tail_bytes found.0.now found.1 ≡ count ∷ field.now) }
    ensures known { (body : List ℕ) (expects : Option ℕ) → tail_bytes body expects ≡ count ∷ field.now → IsSomeAnd result (λ found. (found.0.now ≡ body) × (found.1 ≡ expects)) }
{
    let count = usize::from(count);
    if count == 0 {
        return None;
    }
    if field.len() == count {
        return Some((field, None));
    }
    if field.len() == count + 1 {
        return Some((&field[..count], Some(field[count])));
    }
    None
}

/// Writes a command's bytes to `out`, in place of what it held.
pub fn write_command(command: &Command<'_>, out: &mut Out)
    requires { length command.now.body.now ≤ 255 }
    ensures { out.new.items ≡ command_bytes (seen_command command.now) }
{
    out.clear();
    out.push(command.class);
    out.push(command.ins);
    out.push(command.p1);
    out.push(command.p2);
    if !command.body.is_empty() {
        out.push(command.body.len() as u8);
        append(out, command.body);
    }
    if let Some(expected) = command.expects {
        out.push(expected);
    }
}

/// Writes READ RECORD of a record, by its number, of the file with this short file identifier to `out`,
/// in place of what it held (EMV 4.3 Book 3 section 6.5.11).
pub fn write_record_command(sfi: u8, number: u8, out: &mut Out)
    requires { sfi < 32 }
    ensures { out.new.items ≡ record_command sfi number }
{
    let command = Command {
        class: 0x00,
        ins: 0xb2,
        p1: number,
        p2: sfi * 8 + 4,
        body: &[],
        expects: Some(0),
    };
    write_command(&command, out);
}
