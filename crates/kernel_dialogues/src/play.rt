//! A whole dialogue, exchange by exchange.
ghost use Rattle.std.specs.Prelude.{◌≤◌};
ghost use Rattle.std.specs.List.{All};
ghost use Rattle.emv_dict.specs.Settings.{IsPurchase, IsSettings, most_amount};

use crate::names::text_of;
use crate::outset::{Difference, Outset, digits_of, other_log, put_bytes};
use arrayvec::ArrayVec;
use auth_message::Message;
use emv_dict::{Ac, Digits, Logged, Purchase, Settings};
use kernel::{Capture, EndRecord, Kernel, Next, Tally};
use report_text::{EndParts, Line, Text, write_line};
use std::alloc::Global;

/// Room that is made once for all dialogues.
#[derive(Drop)]
pub struct DialogueBuffers {
    bytes: Message,
    captured: Message,
    text: Text,
}

impl DialogueBuffers {
    /// Empty room.
    pub(crate) fn new() -> DialogueBuffers {
        DialogueBuffers {
            bytes: Message::new(),
            captured: Message::new(),
            text: Text::new(),
        }
    }
}

/// The terminal's log, and the one that is handed in with other calls.
#[derive(Drop)]
struct Logs<'l> {
    own: &'l [Logged],
    other: &'l [Logged],
    /// The number, from 1, of the call with which the first one is handed in, 0 where it is with each.
    call: u64,
    ghost own_small: { All (λ logged. logged.amount ≤ most_amount) own.now },
    ghost other_small: { All (λ logged. logged.amount ≤ most_amount) other.now },
}

impl<'l> Logs<'l> {
    /// The log that is handed in with this call.
    fn with(&self, call: u64) -> &'l [Logged]
        ensures { All (λ logged. logged.amount ≤ most_amount) result.now }
    {
        if self.call == 0 || self.call == call {
            self.own
        } else {
            self.other
        }
    }
}

/// The line of a dialogue in its parts.
#[derive(Clone, Copy)]
struct Parts<'t> {
    outset: Outset<'t>,
    exchanges: &'t str,
    end: &'t str,
    capture: &'t str,
}

/// Plays the dialogue of a line: its name, the words by which the terminal and the purchase differ from the
/// base, `: `, the commands and the messages with their replies between ` > `, ` = `, the end as a report
/// prints it, and behind ` | ` what is captured. Bytes are hexadecimal digits or a name, and `-` stands for
/// none. A host's exchange begins with `host`; a card can be `gone`, and a silent host says `none`.
/// Behind it the dialogue is played `again` times more in the same terminal.
pub(crate) fn play(
    alloc: Global,
    line: &str,
    again: u32,
    room: &mut DialogueBuffers,
) -> Result<(), Difference> {
    let parts = parts_of(line)?;
    let settings = parts.outset.settings(alloc)?;
    let purchase = parts.outset.purchase(alloc)?;
    let own = parts.outset.log(alloc)?;
    let other = other_log(alloc)?;
    let logs = Logs {
        own: own.as_slice(),
        other: other.as_slice(),
        call: parts.outset.call(),
    };
    go_through(&settings, &purchase, &logs, &parts, again, room)
}

/// Goes through a dialogue, and so often again in the same terminal.
fn go_through(
    settings: &Settings,
    purchase: &Purchase,
    logs: &Logs<'_>,
    parts: &Parts<'_>,
    again: u32,
    room: &mut DialogueBuffers,
) -> Result<(), Difference>
    requires settings { IsSettings settings.now }
    requires purchase { IsPurchase purchase.now }
{
    let mut kernel = Kernel::begin(settings, purchase);
    play_out(&mut kernel, logs, parts, room)?;
    for _ in 0..again {
        kernel.begin_again(settings, purchase);
        play_out(&mut kernel, logs, parts, room)?;
    }
    Ok(())
}

/// Goes through the dialogue that has begun, and compares its end.
fn play_out(
    kernel: &mut Kernel<'_>,
    logs: &Logs<'_>,
    parts: &Parts<'_>,
    room: &mut DialogueBuffers,
) -> Result<(), Difference> {
    let replies = exchange_all(kernel, parts.exchanges, logs, &mut room.bytes)?;
    match kernel.next() {
        Next::Ended if !kernel.is_spent() => {}
        _ => return Err(Difference::Deed(replies)),
    }
    let mut tally = Tally::new();
    let ended = kernel.end(&mut tally);
    compare(ended, parts, room)?;
    if tally.counts() == counts_of(parts.end, replies) {
        Ok(())
    } else {
        Err(Difference::Tally)
    }
}

fn parts_of(line: &str) -> Result<Parts<'_>, Difference> {
    let Some((outset, rest)) = line.split_once(": ") else {
        return Err(Difference::Line);
    };
    let Some((exchanges, rest)) = rest.split_once(" = ") else {
        return Err(Difference::Line);
    };
    let (end, capture) = rest.split_once(" | ").unwrap_or((rest, ""));
    Ok(Parts {
        outset: Outset::read(outset),
        exchanges,
        end,
        capture,
    })
}

/// Goes through all exchanges, and counts them.
fn exchange_all(
    kernel: &mut Kernel<'_>,
    exchanges: &str,
    logs: &Logs<'_>,
    bytes: &mut Message,
) -> Result<u64, Difference> {
    let mut count = 0u64;
    for word in exchanges.split(" > ") {
        for exchange in text_of(word).split(" > ") {
            let call = count.saturating_add(1);
            if !is_taken(kernel, exchange, logs.with(call), bytes) {
                return Err(Difference::Deed(count));
            }
            count = call;
        }
    }
    Ok(count)
}

/// Whether the terminal does next what an exchange says; then it has taken the reply.
fn is_taken(kernel: &mut Kernel<'_>, exchange: &str, log: &[Logged], bytes: &mut Message) -> bool
    requires { All (λ logged. logged.amount ≤ most_amount) log.now }
{
    let message = exchange.strip_prefix("host ");
    let (deed, reply) = message
        .unwrap_or(exchange)
        .split_once(' ')
        .unwrap_or((exchange, ""));
    put_bytes(bytes, text_of(deed));
    if kernel.bytes() != bytes.as_slice() {
        return false;
    }
    put_bytes(bytes, text_of(reply));
    match (kernel.next(), message) {
        (Next::ToCard, None) if reply == "gone" => kernel.take_gone(),
        (Next::ToCard, None) => kernel.take_card(bytes, log),
        (Next::ToHost, Some(_)) if reply == "none" => kernel.take_host(None),
        (Next::ToHost, Some(_)) => kernel.take_host(Some(bytes)),
        _ => return false,
    }
    true
}

/// Compares the end record.
fn compare(
    ended: EndRecord,
    parts: &Parts<'_>,
    room: &mut DialogueBuffers,
) -> Result<(), Difference> {
    let EndRecord {
        ending,
        tvr,
        tsi,
        cvm,
        pan,
        code,
        last,
        scripts,
        capture,
    } = ended;
    if !is_captured(capture, parts.capture, room) {
        return Err(Difference::Capture);
    }
    if !is_account(&pan, parts) {
        return Err(Difference::Account);
    }
    let end = EndParts {
        ending,
        tvr,
        tsi,
        cvm,
        arc: code,
        atc_ac: counter_and_cryptogram(&last),
        scripts,
    };
    if is_end(end, parts.end, &mut room.text) {
        Ok(())
    } else {
        Err(Difference::End)
    }
}

/// Whether the card's account number is there, exactly where reading is finished.
fn is_account(pan: &Option<Digits>, parts: &Parts<'_>) -> bool {
    match (pan, digits_of(parts.outset.pan)) {
        (Some(pan), Ok(digits)) => has_read(parts.end) && pan.as_slice() == digits.as_slice(),
        (None, Ok(_)) => !has_read(parts.end),
        (_, Err(_)) => false,
    }
}

/// Whether reading is finished: the first bit of the terminal verification results tells it.
fn has_read(end: &str) -> bool {
    let (_, results) = end.split_once(" tvr=").unwrap_or(("", ""));
    matches!(results.as_bytes().first(), Some(b'8'..=b'9' | b'a'..=b'f'))
}

fn counter_and_cryptogram(last: &Option<Ac>) -> Option<(u16, [u8; 8])> {
    match last {
        Some(ac) => {
            let cryptogram = ac.cryptogram;
            Some((ac.counter, cryptogram))
        }
        None => None,
    }
}

/// Whether this is what is captured, nothing where there is none.
fn is_captured(capture: Option<Capture>, text: &str, room: &mut DialogueBuffers) -> bool {
    room.captured.clear();
    if let Some(capture) = capture {
        capture.into_message(&mut room.captured);
    }
    put_bytes(&mut room.bytes, text_of(text));
    room.captured.as_slice() == room.bytes.as_slice()
}

/// Whether a report prints the end so.
fn is_end(parts: EndParts, end: &str, text: &mut Text) -> bool {
    let line = Line::End {
        lane: 0,
        number: 1,
        parts,
    };
    write_line(&line, text);
    text.as_slice().trim_ascii_end().strip_prefix(b"L0 end 1 ") == Some(end.as_bytes())
}

/// The tally of one dialogue with this end.
fn counts_of(end: &str, replies: u64) -> [u64; 4] {
    if end.starts_with("approved ") {
        [1, 0, 0, replies]
    } else if end.starts_with("declined ") {
        [0, 1, 0, replies]
    } else {
        [0, 0, 1, replies]
    }
}
