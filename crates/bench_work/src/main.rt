//! The work that `bench/des` and `bench/host` time. `bench_work des COUNT` enciphers a block of zeros so many
//! times over, `bench_work keys COUNT` does so under the block itself as the key, and `bench_work mac COUNT`
//! takes the code of so many blocks of zeros; each prints the last block. `bench_work make ACCOUNTS ROUNDS`
//! makes so many requests for each of so many accounts, at most 1,000, and prints the last one, and
//! `bench_work answer ACCOUNTS ROUNDS` lets a host answer all of them, and prints the last reply. Without such
//! words it does a little of each, but for the requests.
#![tactic(auto)]

mod ciphers;
mod messages;

use auth_message::Message;
use std::alloc::{AllocError, Global};
use std::{env, io};
use triple_des::{Des, Key16};

/// A key, and the same key in both halves.
const KEY: u64 = 0x1334_5779_9bbc_dff1;

const KEY_TWICE: u128 = 0x1334_5779_9bbc_dff1_1334_5779_9bbc_dff1;

/// What is done, so many times.
#[derive(Clone, Copy)]
enum Work {
    Enciphered(u32),
    Keyed(u32),
    Coded(u32),
    Made(u16, u16),
    Answered(u16, u16),
}

/// A little of each work.
const EACH: [Work; 4] = [
    Work::Enciphered(1000),
    Work::Keyed(1000),
    Work::Coded(1000),
    Work::Answered(10, 3),
];

/// The number that a word writes, else 0.
fn number(word: Option<&String>) -> u32 {
    match word {
        Some(word) => word.parse::<u32>().unwrap_or(0),
        None => 0,
    }
}

/// The same, at most 65,535.
fn short_number(word: Option<&String>) -> u16 {
    number(word).min(0xffff) as u16
}

/// The work that the words name.
fn named(words: &[String]) -> Option<Work> {
    let (count, rounds) = (words.get(1), words.get(2));
    match words.first()?.as_str() {
        "des" => Some(Work::Enciphered(number(count))),
        "keys" => Some(Work::Keyed(number(count))),
        "mac" => Some(Work::Coded(number(count))),
        "make" => Some(Work::Made(short_number(count), short_number(rounds))),
        "answer" => Some(Work::Answered(short_number(count), short_number(rounds))),
        _ => None,
    }
}

/// The last message, in hexadecimal, where a host answers or where it doesn't.
fn last_message(
    alloc: Global,
    count: u16,
    rounds: u16,
    answers: bool,
) -> Result<String, AllocError> {
    let mut out = Message::new();
    let count = count.min(messages::MOST_ACCOUNTS);
    if answers {
        messages::answer(alloc, count, rounds, &mut out)?;
    } else {
        messages::make(alloc, count, rounds, &mut out)?;
    }
    hex::encode(alloc, out.as_slice())
}

/// What the work gives last, in hexadecimal.
fn done(alloc: Global, work: Work) -> Result<String, AllocError> {
    let block = match work {
        Work::Enciphered(count) => ciphers::enciphered_over(&Des::new(KEY.to_be_bytes()), count),
        Work::Keyed(count) => ciphers::keyed_over(count),
        Work::Coded(count) => {
            ciphers::code_of_zeros(alloc, &Key16::new(KEY_TWICE.to_be_bytes()), count)?
        }
        Work::Made(count, rounds) => return last_message(alloc, count, rounds, false),
        Work::Answered(count, rounds) => return last_message(alloc, count, rounds, true),
    };
    hex::encode(alloc, &block)
}

fn main(rt: HostRuntime) -> io::Result<()> {
    let mut words = Vec::new(rt.alloc());
    for word in env::args(&rt)?.skip(1) {
        words.push(word)?;
    }
    match named(&words) {
        Some(work) => println!(rt; "{}", done(rt.alloc(), work)?)?,
        None => {
            for work in EACH {
                println!(rt; "{}", done(rt.alloc(), work)?)?;
            }
        }
    }
    Ok(())
}
