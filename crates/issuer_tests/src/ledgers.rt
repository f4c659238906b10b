//! What a ledger holds, books and releases.
use emv_dict::{Digits, MOST_AMOUNT};
use host_ledger::{EntryState, Key, Ledger, LedgerFault};
use std::alloc::Global;
use std::process::Abort;
use std::test::Fail;

const PAN: [u8; 16] = [4, 7, 6, 1, 7, 3, 9, 0, 0, 1, 0, 1, 0, 0, 1, 0];

const OTHER: [u8; 13] = [4, 7, 6, 1, 7, 3, 9, 0, 0, 1, 0, 1, 0];

/// No account has this number.
const NONE: [u8; 1] = [1];

fn digits(pan: &[u8]) -> Result<Digits, Fail> {
    Ok(Digits::new(pan).ok_or("digits")?)
}

/// A ledger with 25.00 on the first account and 0.10 on the other.
fn ledger(alloc: Global) -> Result<Ledger, Fail> {
    let accounts = vec![in alloc; (digits(&PAN)?, 2500), (digits(&OTHER)?, 10)]?;
    Ok(Ledger::new(alloc, accounts).ok().ok_or("memory")?)
}

/// What is asked of a ledger.
#[derive(Clone, Copy)]
enum Call {
    Hold,
    Book,
    Release,
}

/// What is asked; the account number, the sequence number and the counter of the transaction, and the amount;
/// the answer in a word, with the balance or the amount that it names; and both balances behind it.
type Row = (
    Call,
    (&'static [u8], u8, u16),
    u64,
    (&'static str, i128),
    [i128; 2],
);

/// It holds what is there. A card of the same account with another sequence number has transactions of
/// its own.
const HOLDS: [Row; 7] = [
    (
        Call::Hold,
        (&PAN, 1, 11),
        3000,
        ("no funds", 2500),
        [2500, 10],
    ),
    (Call::Hold, (&PAN, 1, 11), 2500, ("done", 0), [0, 10]),
    (Call::Hold, (&PAN, 1, 11), 2500, ("held", 2500), [0, 10]),
    (Call::Hold, (&PAN, 1, 12), 1, ("no funds", 0), [0, 10]),
    (Call::Hold, (&NONE, 1, 11), 1, ("unknown", 0), [0, 10]),
    (Call::Hold, (&OTHER, 1, 11), 10, ("done", 0), [0, 0]),
    (Call::Hold, (&OTHER, 2, 11), 0, ("done", 0), [0, 0]),
];

/// It books once.
const BOOKS: [Row; 3] = [
    (Call::Hold, (&PAN, 1, 11), 2000, ("done", 0), [500, 10]),
    (Call::Book, (&PAN, 1, 11), 1500, ("done", 0), [1000, 10]),
    (
        Call::Release,
        (&PAN, 1, 11),
        1500,
        ("booked", 1500),
        [1000, 10],
    ),
];

/// It releases once.
const RELEASES: [Row; 3] = [
    (Call::Hold, (&PAN, 1, 12), 1000, ("done", 0), [1500, 10]),
    (Call::Release, (&PAN, 1, 12), 1000, ("done", 0), [2500, 10]),
    (
        Call::Book,
        (&PAN, 1, 12),
        1000,
        ("released", 1000),
        [2500, 10],
    ),
];

/// It books and releases what was not held.
const UNHELD: [Row; 3] = [
    (Call::Book, (&PAN, 1, 13), 4000, ("done", 0), [-1500, 10]),
    (Call::Release, (&PAN, 1, 14), 4000, ("done", 0), [-1500, 10]),
    (
        Call::Hold,
        (&PAN, 1, 14),
        1,
        ("released", 4000),
        [-1500, 10],
    ),
];

/// An answer in a word, with the balance or the amount that it names.
fn told(answer: Result<(), LedgerFault>, key: &Key) -> (&'static str, i128) {
    match answer {
        Ok(()) => ("done", 0),
        Err(LedgerFault::NoFunds(balance)) => ("no funds", balance),
        Err(LedgerFault::UnknownAccount) => ("unknown", 0),
        Err(LedgerFault::AlreadyBooked(entry)) => {
            let word = match entry.state {
                EntryState::Held => "held",
                EntryState::Booked => "booked",
                EntryState::Released => "released",
            };
            let word = if entry.key == *key { word } else { "another" };
            (word, i128::from(entry.amount))
        }
        Err(_) => ("memory", 0),
    }
}

/// Asks the ledger, and compares the answer and the balances.
fn play(rt: &impl Abort, ledger: &mut Ledger, row: Row) -> Result<(), Fail> {
    let (call, (pan, sequence, counter), amount, (word, number), [first, other]) = row;
    let key = Key {
        pan: digits(pan)?,
        sequence,
        counter,
    };
    assert!(rt; amount <= MOST_AMOUNT);
    let answer = match call {
        Call::Hold => ledger.hold(&key, amount),
        Call::Book => ledger.book(&key, amount),
        Call::Release => ledger.release(&key, amount),
    };
    let (found, of) = told(answer, &key);
    let is_kept = ledger.balance(&digits(&PAN)?) == Some(first)
        && ledger.balance(&digits(&OTHER)?) == Some(other)
        && ledger.balance(&digits(&NONE)?).is_none();
    assert!(rt;
        found == word && of == number && is_kept,
        "{counter} {amount}: {word} {number}"
    );
    Ok(())
}

#[test]
fn a_ledger_holds_books_and_releases_once(rt: HostRuntime) -> Result<(), Fail> {
    for rows in [HOLDS.as_slice(), &BOOKS, &RELEASES, &UNHELD] {
        let mut ledger = ledger(rt.alloc())?;
        for row in rows {
            play(&rt, &mut ledger, *row)?;
        }
    }
    Ok(())
}

#[test]
fn opens_each_account_number_once(rt: HostRuntime) -> Result<(), Fail> {
    let alloc = rt.alloc();
    let accounts = vec![in alloc;
        (digits(&OTHER)?, 1),
        (digits(&PAN)?, 2),
        (digits(&OTHER)?, 3),
        (digits(&PAN)?, 4),
    ]?;
    assert!(rt; matches!(Ledger::new(alloc, accounts), Err(LedgerFault::SamePan(2))));
    Ok(())
}
