use crate::tests::{CANNED, CARD, hold_for};
use std::process::Abort;
use std::test::Fail;

/// Each command gets the next answer, whatever it is; behind the last one the card is gone, and off. Each power-up begins
/// with the first answer.
const LINES: &str = "\
00a4040007a000000003101000
power
00a4040007a000000003101000
80CA9F3600
00
80ca9f3600
80ca9f3600
power
00
power
00
off
00
power
00
";

const ANSWERS: &str = "\
?
power canned
< 9000
< -
< 6f6a82
< gone
?
power canned
< 9000
power canned
< 9000
off
?
power canned
< 9000
";

/// There is nothing at which such a card could be pulled out, and no state.
const NONE: &str = "\
state
torn
power
pull 0 release
pull 1 before 1
state
torn
another line

power
00
";

const NONE_ANSWERS: &str = "\
?
?
power canned
?
?
?
?
?
?
power canned
< 9000
";

#[test]
fn a_card_of_canned_answers_gives_them_in_turn(rt: HostRuntime) -> Result<(), Fail> {
    let mut both = String::from_str(rt.alloc(), CARD)?;
    both.push_str(CANNED)?;
    for (lines, answers) in [(LINES, ANSWERS), (NONE, NONE_ANSWERS)] {
        hold_for(&rt, rt.alloc(), ("c2", both.as_str()), lines, answers)?;
    }
    Ok(())
}

#[test]
fn a_card_of_no_answers_is_gone_at_once(rt: HostRuntime) -> Result<(), Fail> {
    let mut both = String::from_str(rt.alloc(), CARD)?;
    both.push_str("[[card]]\nname = \"c3\"\ncanned = []\n")?;
    hold_for(
        &rt,
        rt.alloc(),
        ("c3", both.as_str()),
        "power\n00\n00\noff\n",
        "power canned\n< gone\n?\noff\n",
    )
}
