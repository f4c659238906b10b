//! Accounts as the tests write them.
ghost use Rattle.std.specs.Prelude.{◌≡◌, ◌≤◌, length, nat_le, IfOk, IfSome, IsTrue};
ghost use Rattle.std.specs.List.{All};
ghost use Rattle.emv_dict.specs.Digits.{HasPinLength};
ghost use Rattle.emv_dict.specs.Pan.{HasPanLength};
ghost use Rattle.emv_dict.specs.Settings.{is_code};
ghost use Rattle.script_words.specs.MadeLength.{all_made_length};
ghost use Rattle.script_words.specs.Script.{IsScript};
ghost use Rattle.script_words.specs.Spelling.{IsWord};
ghost use Rattle.issuer_host.specs.Account.{IsAccount};

use emv_dict::{Digits, MOST_AMOUNT, is_pan_length, is_pin_length};
use issuer_host::{Account, HostKeys, Method, Ordered, Script, is_status};
use script_words::{made_length, read_order};
use std::alloc::Global;
use std::process::Abort;
use std::test::Fail;
use triple_des::Key16;

#[derive(Clone, Copy)]
pub enum Currency {
    Dollar,
    Euro,
    AustralianDollar,
}

/// A script.
#[derive(Clone, Copy)]
pub struct Planned {
    /// Whether it runs before the final GENERATE AC.
    pub before: bool,
    pub id: Option<[u8; 4]>,
    /// The words that order its commands.
    pub commands: &'static [&'static str],
}

/// An account.
#[derive(Clone, Copy)]
pub struct Opening {
    /// Its number, as a text of digits.
    pub pan: &'static str,
    pub currency: Currency,
    /// In the currency's least unit.
    pub balance: u64,
    pub blocked: bool,
    pub pin: Option<&'static str>,
    pub scripts: &'static [Planned],
}

/// The keys of the issuer.
pub(crate) fn issuer_keys() -> HostKeys {
    HostKeys {
        ac: key(0x0123_4567_89ab_cdef_fedc_ba98_7654_3210),
        mac: key(0x2345_6789_abcd_ef01_dcba_9876_5432_10fe),
        enc: key(0x4567_89ab_cdef_0123_ba98_7654_3210_fedc),
        pin: key(0x6789_abcd_ef01_2345_9876_5432_10fe_dcba),
    }
}

fn key(number: u128) -> Key16 {
    Key16::new(number.to_be_bytes())
}

/// The bytes of a hexadecimal text.
pub(crate) fn bytes_of(alloc: Global, text: &str) -> Result<Vec<u8>, Fail> {
    Ok(hex::decode(alloc, text).ok().ok_or("hexadecimal digits")?)
}

/// The digits of a text.
fn digits_of(text: &str) -> Digits {
    let mut digits = Digits::empty();
    for letter in text.as_bytes() {
        if letter.is_ascii_digit() && digits.len() < 19 {
            digits.push(*letter - b'0');
        }
    }
    digits
}

/// An account number.
pub fn account_number(rt: &impl Abort, text: &str) -> Digits
    ensures { HasPanLength result }
{
    let digits = digits_of(text);
    assert!(rt; is_pan_length(digits.len()));
    digits
}

fn pin_of(rt: &impl Abort, text: Option<&str>) -> Option<Digits>
    ensures { IfSome result HasPinLength }
{
    let digits = digits_of(text?);
    assert!(rt; is_pin_length(digits.len()));
    Some(digits)
}

fn code_of(currency: Currency) -> [u8; 2]
    ensures { IsTrue (is_code result) }
{
    match currency {
        Currency::Dollar => [0x08, 0x40],
        Currency::Euro => [0x09, 0x78],
        Currency::AustralianDollar => [0x00, 0x36],
    }
}

fn commands_of(alloc: Global, texts: &[&str]) -> Result<Vec<Ordered>, Fail>
    ensures { IfOk result (λ commands. All (λ order. IsWord order.word) commands.items) }
{
    let mut commands = Vec::new(alloc);
    for text in texts {
        commands.push(read_order(text.as_bytes()).ok_or("a command")?)?;
    }
    Ok(commands)
}

/// An identifier has four bytes.
fn identifier_of(id: Option<[u8; 4]>) -> Option<[u8; 4]>
    ensures { IfSome result (λ id. length id ≡ 4) }
{
    let bytes = id?;
    let mut copy = [0; 4];
    copy.copy_from_slice(&bytes);
    Some(copy)
}

fn script_of(rt: &impl Abort, alloc: Global, planned: &Planned) -> Result<Script, Fail>
    ensures { IfOk result IsScript }
{
    let commands = commands_of(alloc, planned.commands)?;
    assert!(rt; 1 <= commands.len() && commands.len() <= 16);
    Ok(Script {
        before: planned.before,
        id: identifier_of(planned.id),
        commands,
    })
}

fn scripts_of(rt: &impl Abort, alloc: Global, planned: &[Planned]) -> Result<Vec<Script>, Fail>
    ensures { IfOk result (λ scripts. All IsScript scripts.items) }
{
    let mut scripts = Vec::new(alloc);
    for script in planned {
        scripts.push(script_of(rt, alloc, script)?)?;
    }
    Ok(scripts)
}

/// Whether the scripts get at most `room` bytes.
fn fit(scripts: &[Script], room: usize) -> bool
    requires { All IsScript scripts.now }
    ensures { result ≡ nat_le (all_made_length scripts.now) room }
{
    match scripts {
        [] => true,
        [first, rest @ ..] => {
            let length = made_length(first);
            length <= room && fit(rest, room - length)
        }
    }
}

fn account_of(
    rt: &impl Abort,
    alloc: Global,
    opening: &Opening,
    arpc: Method,
    status: u8,
) -> Result<Account, Fail>
    ensures { IfOk result IsAccount }
{
    let scripts = scripts_of(rt, alloc, opening.scripts)?;
    assert!(rt; opening.balance <= MOST_AMOUNT);
    assert!(rt; scripts.len() <= 8 && fit(&scripts, 1024));
    assert!(rt; is_status(status));
    Ok(Account {
        pan: account_number(rt, opening.pan),
        currency: code_of(opening.currency),
        balance: opening.balance,
        blocked: opening.blocked,
        pin: pin_of(rt, opening.pin),
        scripts,
        arpc,
        status,
    })
}

/// The accounts of a host, with the method and the status that all of them have.
pub fn accounts_of(
    rt: &impl Abort,
    alloc: Global,
    openings: &[Opening],
    arpc: Method,
    status: u8,
) -> Result<Vec<Account>, Fail>
    ensures { IfOk result (λ accounts. All IsAccount accounts.items) }
{
    let mut accounts = Vec::new(alloc);
    for opening in openings {
        let account = account_of(rt, alloc, opening, arpc, status)?;
        accounts.push(account)?;
    }
    Ok(accounts)
}
