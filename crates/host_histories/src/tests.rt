mod faults;
mod fixture;
mod method_two;
mod payments;
mod refusals;
mod scripts;
mod table;

use auth_message::Message;
use faults::FAULTS;
use fixture::{account_number, accounts_of, bytes_of, issuer_keys};
use issuer_host::{Host, Method};
use method_two::HISTORIES_BY_METHOD_TWO;
use payments::PAYMENTS;
use refusals::REFUSALS;
use scripts::SCRIPTS;
use std::alloc::Global;
use std::process::Abort;
use std::test::Fail;
use table::{History, Turn};

/// The message of a turn and its reply.
fn said(turns: &[Turn], turn: &Turn) -> Option<(&'static str, &'static str)> {
    match turn {
        Turn::Says(message, reply) => Some((*message, *reply)),
        Turn::Again(place) => match turns.get(*place) {
            Some(Turn::Says(message, reply)) => Some((*message, *reply)),
            _ => None,
        },
    }
}

/// Lets the host answer a message, both as hexadecimal texts, and compares the reply.
fn answer(
    rt: &impl Abort,
    alloc: Global,
    host: &mut Host,
    message: &str,
    reply: &str,
) -> Result<(), Fail> {
    let bytes = bytes_of(alloc, message)?;
    let wanted = bytes_of(alloc, reply)?;
    assert!(rt; bytes.len() <= 2048);
    let mut out = Message::new();
    host.answer(&bytes, &mut out)?;
    assert!(rt; out.as_slice() == wanted.as_slice(), "to {message}");
    Ok(())
}

/// Lets the host answer the messages of a history.
fn answer_all(rt: &impl Abort, alloc: Global, host: &mut Host, turns: &[Turn]) -> Result<(), Fail> {
    for turn in turns {
        let (message, reply) = said(turns, turn).ok_or("a turn")?;
        answer(rt, alloc, host, message, reply)?;
    }
    Ok(())
}

/// Compares the balances that are left.
fn compare(rt: &impl Abort, host: &Host, balances: &[(&str, i128)]) {
    for (pan, balance) in balances {
        let found = host.balance(&account_number(rt, pan));
        assert!(rt; found == Some(*balance), "of {pan}");
    }
}

/// A host that has had no message, whose accounts have a method and a status, gets a history.
fn hold(
    rt: &impl Abort,
    alloc: Global,
    history: &History,
    arpc: Method,
    status: u8,
) -> Result<(), Fail> {
    let accounts = accounts_of(rt, alloc, history.accounts, arpc, status)?;
    let mut host = Host::new(alloc, issuer_keys(), &accounts)
        .ok()
        .ok_or("a host")?;
    answer_all(rt, alloc, &mut host, history.turns)?;
    compare(rt, &host, history.balances);
    Ok(())
}

/// Gives each history to a host of its own, whose accounts authenticate the issuer by method 1.
fn hold_each(rt: &impl Abort, alloc: Global, histories: &[History]) -> Result<(), Fail> {
    for history in histories {
        hold(rt, alloc, history, Method::One, 0)?;
    }
    Ok(())
}

#[test]
fn replies_are_those_of_independent_implementations(rt: HostRuntime) -> Result<(), Fail> {
    hold_each(&rt, rt.alloc(), &PAYMENTS)?;
    hold_each(&rt, rt.alloc(), &REFUSALS)?;
    hold_each(&rt, rt.alloc(), &FAULTS)?;
    hold_each(&rt, rt.alloc(), &SCRIPTS)
}

#[test]
fn replies_by_method_two_are_those_of_an_independent_implementation(
    rt: HostRuntime,
) -> Result<(), Fail> {
    for row in &HISTORIES_BY_METHOD_TWO {
        hold(&rt, rt.alloc(), &row.history, Method::Two, row.status)?;
    }
    Ok(())
}
