//! The words of the command line.
ghost use Rattle.std.specs.Prelude.{◌≡◌, ◌<◌, ◌≤◌, ◌∷◌, length, map, string_bytes, true, false, Some, None, option_map, IfSome, IfOk, IfErr, OnOk};
ghost use Rattle.report_lines.specs.Reading.{lane_in};
ghost use Rattle.explain.specs.Grammar.{bytes_in_hex, app_name_of, sized_number, action_code, reach_in, partial_in, terminal_row_in, terminal_of, app_place_in, currency_in, second_currency_in, limits_in, card_app_of, account_number_of, known_account_of, option_alone, option_with_argument, manner_of_words, RefusesWords};
ghost use Rattle.exchange_words.specs.Lanes.{kept_if_short};
ghost use Rattle.explain.specs.Taking as spec;
ghost use Rattle.explain.specs.Taking.{options_behind, with_option};
ghost use Rattle.explain.specs.ToldLines.{manner_in};

use arrayvec::ArrayVec;
use exchange_words::keep;
use issuer_reasons::Account;
use narrator::{Filter, Terminal};
use purchase_reasons::{CardApp, Limits};
use report_lines::{number_of, split_at_comma};
use std::alloc::Global;
use value_words::{Reach, Row, number_in, reach_of};

/// What the words ask for.
#[derive(Drop)]
pub struct Options {
    pub filter: Filter,
    pub terminals: Vec<Terminal>,
    pub card_apps: Vec<CardApp>,
    pub accounts: Vec<Account>,
}

/// One option of the command line.
#[derive(Drop)]
pub enum OptionGiven {
    /// `--brief`
    Brief,
    /// `--ends`
    Ends,
    /// `--why`
    Why,
    /// `--books`
    Books,
    /// `--lane N`
    Lane(u8),
    /// `--purchase N`
    Purchase(u64),
    /// `--terminal T`
    OneTerminal(Terminal),
    /// `--card T`
    OneApp(CardApp),
    /// `--account T`
    OneAccount(Account),
}

/// Why there are no options.
#[derive(Clone, Copy, PartialEq, Eq, Debug)]
pub enum NoOptions {
    /// The words are not in the grammar.
    Words,
    /// There was no memory.
    OutOfMemory,
}

/// Up to 16 bytes in hexadecimal.
fn read_bytes(text: &[u8]) -> Option<ArrayVec<u8, 16>>
    ensures some { IfSome result (λ bytes. bytes_in_hex text.now ≡ Some bytes.items) }
    ensures few { IfSome result (λ bytes. length bytes.items ≤ 16) }
    ensures none { result ≡ None → IfSome (bytes_in_hex text.now) (λ bytes. 16 < length bytes) }
{
    let mut bytes = ArrayVec::from([0u8; 16]);
    bytes.truncate(text.len() / 2);
    match hex::decode_to_slice(text, bytes.as_mut_slice()) {
        Ok(()) => Some(bytes),
        Err(_) => None,
    }
}

/// The name of an application: 5 to 16 bytes.
fn read_name(text: &[u8]) -> Option<ArrayVec<u8, 16>>
    ensures { option_map (λ name. name.items) result ≡ app_name_of text.now }
{
    let name = read_bytes(text)?;
    if name.len() >= 5 { Some(name) } else { None }
}

/// So many bytes as one number, 16 at most.
fn read_number(text: &[u8], count: usize) -> Option<u64>
    requires { count ≤ 16 }
    ensures { result ≡ sized_number count text.now }
{
    let bytes = read_bytes(text)?;
    if bytes.len() == count {
        Some(number_in(bytes.as_slice()))
    } else {
        None
    }
}

/// An action code: five bytes as one number.
fn read_code(text: &[u8]) -> Option<u64>
    ensures { result ≡ action_code text.now }
{
    read_number(text, 5)
}

/// Where a terminal of this kind may decide.
fn read_reach(text: &[u8]) -> Option<Reach>
    ensures { result ≡ reach_in text.now }
{
    let kind = number_of(text)?;
    if kind > 99 {
        return None;
    }
    reach_of(kind as u8)
}

/// What a terminal has for an application: its kind, and `DENIAL,ONLINE,DEFAULT`.
#[tactic(auto, unfolding(crate::specs::Grammar::terminal_row_in))]
fn read_row(kind: &[u8], codes: &[u8]) -> Option<Row>
    ensures { result ≡ terminal_row_in kind.now codes.now }
{
    let (denial, rest) = split_at_comma(codes);
    let (online, default) = split_at_comma(rest);
    Some(Row {
        reach: read_reach(kind)?,
        denial: read_code(denial)?,
        online: read_code(online)?,
        default: read_code(default)?,
    })
}

/// The number of a lane, from 0 to 15.
fn read_lane(text: &[u8]) -> Option<u8>
    ensures { result ≡ lane_in text.now }
{
    let number = number_of(text)?;
    if number < 16 {
        Some(number as u8)
    } else {
        None
    }
}

/// Whether longer names are meant too, by `1` or `0`.
fn read_partial(text: &[u8]) -> Option<bool>
    ensures { result ≡ partial_in text.now }
{
    let number = number_of(text)?;
    if number <= 1 { Some(number == 1) } else { None }
}

/// What a lane's terminal has for an application: `LANE,KIND,AID,PARTIAL,DENIAL,ONLINE,DEFAULT`.
#[tactic(auto, unfolding(crate::specs::Grammar::terminal_of))]
fn read_terminal(text: &[u8]) -> Option<Terminal>
    ensures { result ≡ terminal_of text.now }
{
    let (lane, rest) = split_at_comma(text);
    let (kind, rest) = split_at_comma(rest);
    let (name, rest) = split_at_comma(rest);
    let (partial, codes) = split_at_comma(rest);
    Some(Terminal {
        lane: read_lane(lane)?,
        name: read_name(name)?,
        partial: read_partial(partial)?,
        row: read_row(kind, codes)?,
    })
}

/// The name of a card: up to 16 characters.
fn read_card(text: &[u8]) -> ArrayVec<u8, 16>
    ensures { result.items ≡ kept_if_short 16 text.now }
{
    let mut card = ArrayVec::new();
    keep(&mut card, text);
    card
}

/// The place of an application on its card, from 0 to 3.
fn read_place(text: &[u8]) -> Option<u8>
    ensures { result ≡ app_place_in text.now }
{
    let number = number_of(text)?;
    if number <= 3 {
        Some(number as u8)
    } else {
        None
    }
}

/// A currency: two bytes as one number.
fn read_currency(text: &[u8]) -> Option<u64>
    ensures { result ≡ currency_in text.now }
{
    read_number(text, 2)
}

/// The second currency, `-` where there is none.
fn read_second(text: &[u8]) -> Option<Option<u64>>
    ensures { result ≡ second_currency_in text.now }
{
    if text == b"-".as_slice() {
        return Some(None);
    }
    Some(Some(read_currency(text)?))
}

/// An application's limits: `COUNT,SUM,CURRENCY,SUM,CURRENCY`, those of the second currency last.
#[tactic(auto, unfolding(crate::specs::Grammar::limits_in))]
fn read_limits(text: &[u8]) -> Option<Limits>
    ensures { result ≡ limits_in text.now }
{
    let (count, rest) = split_at_comma(text);
    let (sum, rest) = split_at_comma(rest);
    let (currency, rest) = split_at_comma(rest);
    let (second_sum, second_currency) = split_at_comma(rest);
    Some(Limits {
        count: number_of(count)?,
        sum: number_of(sum)?,
        currency: read_currency(currency)?,
        second_sum: number_of(second_sum)?,
        second_currency: read_second(second_currency)?,
    })
}

/// What a card has for an application: `CARD,PLACE,AID,COUNT,SUM,CURRENCY,SUM,CURRENCY`.
#[tactic(auto, unfolding(crate::specs::Grammar::card_app_of))]
fn read_app(text: &[u8]) -> Option<CardApp>
    ensures { result ≡ card_app_of text.now }
{
    let (card, rest) = split_at_comma(text);
    let (place, rest) = split_at_comma(rest);
    let (name, limits) = split_at_comma(rest);
    Some(CardApp {
        card: read_card(card),
        place: read_place(place)?,
        name: read_name(name)?,
        limits: read_limits(limits)?,
    })
}

/// An account number in hexadecimal, as object 5A has it.
fn read_pan(text: &[u8]) -> Option<ArrayVec<u8, 10>>
    ensures { option_map (λ pan. pan.items) result ≡ account_number_of text.now }
{
    let bytes = read_bytes(text)?;
    if bytes.len() > 10 {
        return None;
    }
    let mut pan = ArrayVec::new();
    keep(&mut pan, bytes.as_slice());
    Some(pan)
}

/// What an account has: `PAN,BALANCE,BLOCKED,CURRENCY`.
#[tactic(auto, unfolding(crate::specs::Grammar::known_account_of))]
fn read_account(text: &[u8]) -> Option<Account>
    ensures { result ≡ known_account_of text.now }
{
    let (pan, rest) = split_at_comma(text);
    let (balance, rest) = split_at_comma(rest);
    let (blocked, currency) = split_at_comma(rest);
    Some(Account {
        pan: read_pan(pan)?,
        balance: number_of(balance)?,
        blocked: read_partial(blocked)?,
        currency: read_currency(currency)?,
    })
}

/// The option of a word that stands alone.
#[tactic(auto, unfolding(crate::specs::Grammar::option_alone))]
fn read_alone(word: &String) -> Option<OptionGiven>
    ensures { result ≡ option_alone (string_bytes word.now) }
{
    match word.as_str() {
        "--brief" => Some(OptionGiven::Brief),
        "--ends" => Some(OptionGiven::Ends),
        "--why" => Some(OptionGiven::Why),
        "--books" => Some(OptionGiven::Books),
        _ => None,
    }
}

/// The option of a word and its argument.
#[tactic(auto, unfolding(crate::specs::Grammar::option_with_argument))]
fn read_with(word: &String, argument: &[u8]) -> Option<OptionGiven>
    ensures { result ≡ option_with_argument (string_bytes word.now) argument.now }
{
    match word.as_str() {
        "--lane" => Some(OptionGiven::Lane(read_lane(argument)?)),
        "--purchase" => Some(OptionGiven::Purchase(number_of(argument)?)),
        "--terminal" => Some(OptionGiven::OneTerminal(read_terminal(argument)?)),
        "--card" => Some(OptionGiven::OneApp(read_app(argument)?)),
        "--account" => Some(OptionGiven::OneAccount(read_account(argument)?)),
        _ => None,
    }
}

/// Takes a filter that stands alone, once.
fn take_flag(flag: &mut bool) -> Result<(), NoOptions>
    ensures ok { OnOk result ((flag.old ≡ false) × (flag.new ≡ true)) }
    ensures err { IfErr result (λ no. (no ≡ NoOptions.Words) × (flag.old ≡ true)) }
{
    if *flag {
        return Err(NoOptions::Words);
    }
    *flag = true;
    Ok(())
}

/// Takes one option more: each but `--terminal`, `--card` and `--account` once.
fn take(options: &mut Options, given: OptionGiven) -> Result<(), NoOptions>
    ensures ok { OnOk result (with_option (manner_in options.old) given ≡ Some (manner_in options.new)) }
    ensures err { IfErr result (λ no. RefusesWords no (with_option (manner_in options.old) given)) }
{
    match given {
        OptionGiven::Brief => take_flag(&mut options.filter.brief),
        OptionGiven::Ends => take_flag(&mut options.filter.ends),
        OptionGiven::Why => take_flag(&mut options.filter.why),
        OptionGiven::Books => take_flag(&mut options.filter.books),
        OptionGiven::Lane(lane) => {
            if options.filter.lane.is_some() {
                return Err(NoOptions::Words);
            }
            options.filter.lane = Some(lane);
            Ok(())
        }
        OptionGiven::Purchase(purchase) => {
            if options.filter.purchase.is_some() {
                return Err(NoOptions::Words);
            }
            options.filter.purchase = Some(purchase);
            Ok(())
        }
        OptionGiven::OneTerminal(terminal) => match options.terminals.push(terminal) {
            Ok(()) => Ok(()),
            Err(_) => Err(NoOptions::OutOfMemory),
        },
        OptionGiven::OneApp(app) => match options.card_apps.push(app) {
            Ok(()) => Ok(()),
            Err(_) => Err(NoOptions::OutOfMemory),
        },
        OptionGiven::OneAccount(account) => match options.accounts.push(account) {
            Ok(()) => Ok(()),
            Err(_) => Err(NoOptions::OutOfMemory),
        },
    }
}

/// Takes the first of these words and its argument, and gives the words behind.
fn take_with<'a>(
    options: &mut Options,
    word: &String,
    rest: &'a [String],
) -> Result<&'a [String], NoOptions>
    ensures ok { option_alone (string_bytes word.now) ≡ None
        → IfOk result (λ behind. options_behind (manner_in options.old) (string_bytes word.now ∷ map string_bytes rest.now)
        ≡ options_behind (manner_in options.new) (map string_bytes behind.now)) }
    ensures err { option_alone (string_bytes word.now) ≡ None
        → IfErr result (λ no. RefusesWords no (options_behind (manner_in options.old) (string_bytes word.now ∷ map string_bytes rest.now))) }
    ensures fewer { IfOk result (λ behind. length behind.now ≤ length rest.now) }
{
    match rest {
        [argument, behind @ ..] => match read_with(word, argument.as_bytes()) {
            Some(given) => match take(options, given) {
                Ok(()) => Ok(behind),
                Err(no) => Err(no),
            },
            None => Err(NoOptions::Words),
        },
        [] => Err(NoOptions::Words),
    }
}

/// Takes one word, or one with its argument, and gives the words behind.
fn take_option<'a>(
    options: &mut Options,
    word: &String,
    rest: &'a [String],
) -> Result<&'a [String], NoOptions>
    ensures ok { IfOk result (λ behind. options_behind (manner_in options.old) (string_bytes word.now ∷ map string_bytes rest.now)
        ≡ options_behind (manner_in options.new) (map string_bytes behind.now)) }
    ensures err { IfErr result (λ no. RefusesWords no (options_behind (manner_in options.old) (string_bytes word.now ∷ map string_bytes rest.now))) }
    ensures fewer { IfOk result (λ behind. length behind.now ≤ length rest.now) }
{
    match read_alone(word) {
        Some(given) => match take(options, given) {
            Ok(()) => Ok(rest),
            Err(no) => Err(no),
        },
        None => take_with(options, word, rest),
    }
}

/// Takes all words.
fn take_options(options: Options, words: &[String]) -> Result<Options, NoOptions>
    ensures ok { IfOk result (λ all. options_behind (manner_in options) (map string_bytes words.now) ≡ Some (manner_in all)) }
    ensures err { IfErr result (λ no. RefusesWords no (options_behind (manner_in options) (map string_bytes words.now))) }
{
    let mut options = options;
    let mut left = words;
    while let [word, rest @ ..] = left {
        left = take_option(&mut options, word, rest)?;
    }
    Ok(options)
}

/// Reads `[--brief] [--ends] [--why] [--books] [--lane N] [--purchase N] [--terminal T]... [--card T]...
/// [--account T]...`, in any order.
#[tactic(auto, unfolding(crate::specs::Grammar::manner_of_words, crate::specs::Taking::options_behind))]
pub fn read_options(alloc: Global, words: &[String]) -> Result<Options, NoOptions>
    // They are what the words ask for.
    ensures ok { IfOk result (λ options. manner_of_words (map string_bytes words.now) ≡ Some (manner_in options)) }
    // The words are not in the grammar, or there was no memory.
    ensures err { IfErr result (λ no. RefusesWords no (manner_of_words (map string_bytes words.now))) }
{
    let options = Options {
        filter: Filter {
            brief: false,
            why: false,
            books: false,
            ends: false,
            lane: None,
            purchase: None,
        },
        terminals: Vec::new(alloc),
        card_apps: Vec::new(alloc),
        accounts: Vec::new(alloc),
    };
    take_options(options, words)
}
