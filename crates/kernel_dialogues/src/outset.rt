//! The terminal and the purchase of a dialogue, by what differs from the base.
ghost use Rattle.std.specs.Prelude.{◌≤◌, IfOk};
ghost use Rattle.std.specs.List.{All};
ghost use Rattle.emv_dict.specs.Digits.{HasPinLength};
ghost use Rattle.emv_dict.specs.Pan.{HasPanLength};
ghost use Rattle.emv_dict.specs.Settings.{IsSettings, IsAidRow, IsPurchase, most_amount};

use arrayvec::ArrayVec;
use emv_dict::{
    AidRow, Date, Digits, Logged, Name, Purchase, Settings, is_code, is_pan_length, is_pin_length,
};
use std::alloc::{AllocError, AllocFailed, Global};

/// Where a dialogue isn't as its line says.
#[derive(Drop, Clone, Copy, PartialEq, Eq, Debug)]
pub enum Difference {
    /// The line can't be read.
    Line,
    /// What the terminal does next, behind so many replies.
    Deed(u64),
    /// The end record.
    End,
    /// What is captured.
    Capture,
    /// The account number of the end record.
    Account,
    /// The tally.
    Tally,
    /// There is no memory left.
    Memory,
}

impl From<AllocError> for Difference {
    fn from(_: AllocError) -> Difference {
        Difference::Memory
    }
}

impl<T: Drop> From<AllocFailed<T>> for Difference {
    fn from(_: AllocFailed<T>) -> Difference {
        Difference::Memory
    }
}

/// A terminal and a purchase.
#[derive(Clone, Copy)]
pub struct Outset<'t> {
    kind: u8,
    caps: [u8; 3],
    /// The names of the terminal's applications, with `+` where partial names are supported.
    aids: &'t str,
    /// The data of the applications: those of each one between `/`, the last ones for all behind.
    version: &'t str,
    denial: &'t str,
    online: &'t str,
    fallback: &'t str,
    floor: &'t str,
    threshold: &'t str,
    target: &'t str,
    most_target: &'t str,
    exceptions: &'t str,
    /// Whether the terminal begins with the card's directory.
    pse: bool,
    amount: u64,
    other: u64,
    currency: [u8; 2],
    trade: u8,
    services: bool,
    date: [u8; 3],
    word: u32,
    pins: &'t str,
    forced: bool,
    confirm: bool,
    /// The amounts of earlier purchases with the base account number, and behind `@` the number of the call
    /// with which they are handed in.
    log: &'t str,
    /// The card's account number.
    pub pan: &'t str,
}

/// The base account number.
const PAN: &str = "4761739001010010";

/// The base terminal and purchase.
const BASE: Outset<'static> = Outset {
    kind: 22,
    caps: [0xe0, 0xb8, 0xc8],
    aids: "a0000000031010",
    version: "0096",
    denial: "0010000000",
    online: "7068bc9800",
    fallback: "7068bcf800",
    floor: "10000",
    threshold: "5000",
    target: "10",
    most_target: "50",
    exceptions: "",
    pse: false,
    amount: 2_500,
    other: 0,
    currency: [0x08, 0x40],
    trade: 0x00,
    services: false,
    date: [0x24, 0x06, 0x15],
    word: 49,
    pins: "1234",
    forced: false,
    confirm: true,
    log: "",
    pan: PAN,
};

/// The value of a hexadecimal digit.
fn digit_of(letter: u8) -> u8
    ensures { result ≤ 15 }
{
    match letter {
        b'0'..=b'9' => letter - b'0',
        b'a'..=b'f' => letter - b'a' + 10,
        _ => 0,
    }
}

/// Puts the bytes of a hexadecimal text, at most so many as fit, in place of what `bytes` held.
pub(crate) fn put_bytes<const N: usize>(bytes: &mut ArrayVec<u8, N>, text: &str) {
    let letters = text.as_bytes();
    bytes.clear();
    for place in 0..letters.len() / 2 {
        let byte = digit_of(letters[2 * place]) * 16 + digit_of(letters[2 * place + 1]);
        let _ = bytes.try_push(byte);
    }
}

fn number_of(text: &str) -> u64 {
    text.parse::<u64>().unwrap_or(0)
}

fn byte_of(text: &str) -> u8 {
    text.parse::<u8>().unwrap_or(0)
}

/// The last five bytes of a hexadecimal number.
fn five_of(text: &str) -> [u8; 5] {
    let [_, _, _, first, second, third, fourth, fifth] = u64::from_str_radix(text, 16)
        .unwrap_or(0)
        .to_be_bytes();
    [first, second, third, fourth, fifth]
}

fn three_of(text: &str) -> [u8; 3] {
    let [_, _, first, second, third] = five_of(text);
    [first, second, third]
}

fn two_of(text: &str) -> [u8; 2] {
    let [_, first, second] = three_of(text);
    [first, second]
}

impl<'t> Outset<'t> {
    /// The base with these differences, words as `kind=23`.
    pub(crate) fn read(words: &'t str) -> Outset<'t> {
        let mut outset = BASE;
        for word in words.split(" ") {
            let (key, value) = word.split_once('=').unwrap_or((word, ""));
            outset.set_terminal(key, value);
            outset.set_purchase(key, value);
        }
        outset
    }

    fn set_terminal(&mut self, key: &str, value: &'t str) {
        match key {
            "kind" => self.kind = byte_of(value),
            "caps" => self.caps = three_of(value),
            "aids" => self.aids = value,
            "version" => self.version = value,
            "denial" => self.denial = value,
            "online" => self.online = value,
            "default" => self.fallback = value,
            "floor" => self.floor = value,
            "threshold" => self.threshold = value,
            "target" => self.target = value,
            "max" => self.most_target = value,
            "exceptions" => self.exceptions = value,
            "pse" => self.pse = true,
            _ => {}
        }
    }

    fn set_purchase(&mut self, key: &str, value: &'t str) {
        match key {
            "amount" => self.amount = number_of(value),
            "other" => self.other = number_of(value),
            "currency" => self.currency = two_of(value),
            "trade" => self.trade = byte_of(value),
            "services" => self.services = true,
            "date" => self.date = three_of(value),
            "word" => self.word = value.parse::<u32>().unwrap_or(0),
            "pins" => self.pins = value,
            "forced" => self.forced = true,
            "unconfirmed" => self.confirm = false,
            "log" => self.log = value,
            "pan" => self.pan = value,
            _ => {}
        }
    }

    /// The terminal's settings.
    pub fn settings(&self, alloc: Global) -> Result<Settings, Difference>
        ensures { IfOk result IsSettings }
    {
        let exceptions = account_numbers(alloc, self.exceptions)?;
        let aids = self.rows(alloc)?;
        if self.kind < 21
            || self.kind > 26
            || aids.is_empty()
            || aids.len() > 16
            || exceptions.len() > 100
        {
            return Err(Difference::Line);
        }
        Ok(Settings {
            kind: self.kind,
            country: [0x08, 0x40],
            caps: self.caps,
            id: *b"TERM0001",
            pin_key: 0x6789_abcd_ef01_2345_9876_5432_10fe_dcbau128.to_be_bytes(),
            exceptions,
            aids,
            pse: self.pse,
        })
    }

    fn rows(&self, alloc: Global) -> Result<Vec<AidRow>, Difference>
        ensures { IfOk result (λ rows. All IsAidRow rows.items) }
    {
        let mut rows = Vec::new(alloc);
        for word in self.aids.split("/") {
            let row = self.row(word, rows.len())?;
            rows.push(row)?;
        }
        Ok(rows)
    }

    /// The application with this number, counted from 0.
    fn row(&self, word: &str, number: usize) -> Result<AidRow, Difference>
        ensures { IfOk result IsAidRow }
    {
        let mut bytes: ArrayVec<u8, 16> = ArrayVec::new();
        put_bytes(&mut bytes, word);
        let Some(name) = Name::new(&bytes) else {
            return Err(Difference::Line);
        };
        let floor = number_of(own(self.floor, number));
        let threshold = number_of(own(self.threshold, number));
        let target = byte_of(own(self.target, number));
        let most_target = byte_of(own(self.most_target, number));
        if name.as_slice().len() < 5
            || floor > 999_999_999_999
            || threshold > floor
            || target > most_target
            || most_target > 99
        {
            return Err(Difference::Line);
        }
        Ok(AidRow {
            name,
            partial: word.ends_with("+"),
            version: two_of(own(self.version, number)),
            denial: five_of(own(self.denial, number)),
            online: five_of(own(self.online, number)),
            fallback: five_of(own(self.fallback, number)),
            floor,
            threshold,
            target,
            max_target: most_target,
        })
    }

    /// The purchase.
    pub fn purchase(&self, alloc: Global) -> Result<Purchase, Difference>
        ensures { IfOk result IsPurchase }
    {
        let pins = pins_of(alloc, self.pins)?;
        if self.amount > 999_999_999_999
            || self.other > self.amount
            || !is_code(self.currency)
            || !(self.trade == 0 || self.trade == 1 || self.trade == 9)
            || Date::read(self.date).is_none()
            || pins.len() > 15
        {
            return Err(Difference::Line);
        }
        Ok(Purchase {
            amount: self.amount,
            other: self.other,
            currency: self.currency,
            trade: self.trade,
            services: self.services,
            date: self.date,
            time: [0x12, 0x00, 0x00],
            number: [1, 2, 3, 4],
            word: self.word,
            pins,
            forced: self.forced,
            confirm: self.confirm,
        })
    }

    /// The terminal's log.
    pub fn log(&self, alloc: Global) -> Result<Vec<Logged>, Difference>
        ensures { IfOk result (λ log. All (λ logged. logged.amount ≤ most_amount) log.items) }
    {
        let (amounts, _) = self.log.split_once('@').unwrap_or((self.log, ""));
        log_of(alloc, amounts)
    }

    /// The number of the call with which the log is handed in, 0 where it is with each.
    pub(crate) fn call(&self) -> u64 {
        let (_, call) = self.log.split_once('@').unwrap_or(("", ""));
        number_of(call)
    }
}

/// What is handed in with the other calls: a log by which each purchase is above each floor limit.
pub fn other_log(alloc: Global) -> Result<Vec<Logged>, Difference>
    ensures { IfOk result (λ log. All (λ logged. logged.amount ≤ most_amount) log.items) }
{
    log_of(alloc, "999999999999")
}

/// A log with these amounts.
fn log_of(alloc: Global, amounts: &str) -> Result<Vec<Logged>, Difference>
    ensures { IfOk result (λ log. All (λ logged. logged.amount ≤ most_amount) log.items) }
{
    let mut log = Vec::new(alloc);
    for word in amounts.split("/") {
        if word.is_empty() {
            return Ok(log);
        }
        let amount = number_of(word);
        if amount > 999_999_999_999 {
            return Err(Difference::Line);
        }
        let pan = digits_of(PAN)?;
        log.push(Logged { pan, amount })?;
    }
    Ok(log)
}

/// The word with this number, counted from 0, of those between `/`, the last one where there are fewer.
fn own(words: &str, number: usize) -> &str {
    let mut left = number;
    for word in words.split("/") {
        if left == 0 {
            return word;
        }
        left -= 1;
    }
    match words.rsplit_once('/') {
        Some((_, last)) => last,
        None => words,
    }
}

/// The digits of a decimal text.
pub(crate) fn digits_of(text: &str) -> Result<Digits, Difference> {
    let mut digits: ArrayVec<u8, 19> = ArrayVec::new();
    for letter in text.bytes() {
        let _ = digits.try_push(digit_of(letter));
    }
    match Digits::new(&digits) {
        Some(digits) => Ok(digits),
        None => Err(Difference::Line),
    }
}

fn account_numbers(alloc: Global, words: &str) -> Result<Vec<Digits>, Difference>
    ensures { IfOk result (λ numbers. All HasPanLength numbers.items) }
{
    let mut numbers = Vec::new(alloc);
    for word in words.split("/") {
        if word.is_empty() {
            return Ok(numbers);
        }
        let digits = digits_of(word)?;
        if !is_pan_length(digits.len()) {
            return Err(Difference::Line);
        }
        numbers.push(digits)?;
    }
    Ok(numbers)
}

fn pins_of(alloc: Global, words: &str) -> Result<Vec<Digits>, Difference>
    ensures { IfOk result (λ pins. All HasPinLength pins.items) }
{
    let mut pins = Vec::new(alloc);
    for word in words.split("/") {
        if word.is_empty() {
            return Ok(pins);
        }
        let digits = digits_of(word)?;
        if !is_pin_length(digits.len()) {
            return Err(Difference::Line);
        }
        pins.push(digits)?;
    }
    Ok(pins)
}
