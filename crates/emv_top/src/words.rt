//! The words of the command line.
ghost use Rattle.std.specs.Prelude.{◌≡◌, ◌≤◌, ◌==◌, ◌&&◌, not, slice_index, codes, map, string_bytes, IfSome};
ghost use Rattle.std.specs.Str.{bytes_eq};
ghost use Rattle.emv_top.specs.Words.{HasFewPurchases, counted_subcommand, lone_subcommand, spelled_count, subcommand_of, usage_line};

/// What the program is asked to make of a scenario.
#[derive(Clone, Copy, PartialEq, Eq, Debug)]
pub enum Task {
    /// Read the card of the first lane's first purchase, and print what it gives.
    Read,
    /// Make all purchases of a scenario, and print each exchange and each end.
    Replay,
}

/// What the program is asked to do.
#[derive(Clone, Copy, PartialEq, Eq, Debug)]
pub enum Subcommand {
    /// Read a scenario, and make of it what the task says.
    Play(Task),
    /// Replay the generated scenario of so many purchases, and sum it up.
    Generate(u32),
    /// Read a trace, and check it.
    Check,
}

fn is_dashes(word: &String) -> bool
    ensures { result ≡ bytes_eq (string_bytes word.now) (codes "--") }
{
    word.as_str() == "--"
}

/// What a word alone asks for.
fn lone_subcommand(word: &String) -> Option<Subcommand>
    ensures exact { result ≡ lone_subcommand (string_bytes word.now) }
    ensures fits { IfSome result HasFewPurchases }
{
    match word.as_str() {
        "read" => Some(Subcommand::Play(Task::Read)),
        "replay" => Some(Subcommand::Play(Task::Replay)),
        "check" => Some(Subcommand::Check),
        _ => None,
    }
}

/// What a word and a count behind it ask for.
fn counted_subcommand(word: &String, count: &String) -> Option<Subcommand>
    ensures exact { result ≡ counted_subcommand (string_bytes word.now) (string_bytes count.now) }
    ensures fits { IfSome result HasFewPurchases }
{
    if word.as_str() != "generate" {
        return None;
    }
    match count_in(count.as_str()) {
        Some(purchases) => Some(Subcommand::Generate(purchases)),
        None => None,
    }
}

/// What the words behind the program's name ask for, where they are in the grammar: `read`, `replay`, `check`, or
/// `generate` and a number from 1 to 10,000 in decimal digits without leading zeros, once the first word `--`, if any,
/// is taken out.
#[tactic(auto, unfolding(crate::specs::Words::subcommand_of))]
pub fn read_subcommand(words: &[String]) -> Option<Subcommand>
    ensures exact { result ≡ subcommand_of (map string_bytes words.now) }
    ensures fits { IfSome result HasFewPurchases }
{
    match words {
        [] => None,
        [word] => {
            if is_dashes(word) {
                None
            } else {
                lone_subcommand(word)
            }
        }
        [first, second] => {
            if is_dashes(first) {
                lone_subcommand(second)
            } else if is_dashes(second) {
                lone_subcommand(first)
            } else {
                counted_subcommand(first, second)
            }
        }
        [first, second, third] => {
            if is_dashes(first) {
                counted_subcommand(second, third)
            } else if is_dashes(second) {
                counted_subcommand(first, third)
            } else if is_dashes(third) {
                counted_subcommand(first, second)
            } else {
                None
            }
        }
        [_, _, _, _, ..] => None,
    }
}

/// Whether a word begins with neither a plus sign nor a zero.
fn is_plain(word: &str) -> bool
    ensures { result ≡ (not (slice_index word.now 0 == 43) && not (slice_index word.now 0 == 48)) }
{
    match word.as_bytes() {
        [first, ..] => *first != b'+' && *first != b'0',
        [] => true,
    }
}

/// The count that a word spells.
fn count_in(word: &str) -> Option<u32>
    ensures exact { result ≡ spelled_count word.now }
    ensures fits { IfSome result (λ purchases. (1 ≤ purchases) × (purchases ≤ 10000)) }
{
    if !is_plain(word) {
        return None;
    }
    match word.parse::<u32>() {
        Ok(count) => {
            if 1 <= count && count <= 10000 {
                Some(count)
            } else {
                None
            }
        }
        Err(_) => None,
    }
}

/// The line that answers words that are not in the grammar, with its newline.
#[tactic(auto, unfolding(crate::specs::Words::usage_line))]
pub fn usage() -> &'static [u8]
    ensures { result.now ≡ usage_line }
{
    b"usage: emvrun read|replay|generate N|check\n"
}
