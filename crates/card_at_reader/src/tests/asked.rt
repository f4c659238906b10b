use crate::tests::{hold, hold_for};
use std::process::Abort;
use std::test::Fail;

/// A card that keeps a log and approves in two currencies, with a second application, which is blocked.
const LOGGED: &str = r#"[issuer]
ac_key = "0123456789ABCDEFFEDCBA9876543210"
mac_key = "23456789ABCDEF01DCBA9876543210FE"
enc_key = "456789ABCDEF0123BA9876543210FEDC"
pin_key = "6789ABCDEF0123459876543210FEDCBA"
[[card]]
name = "c1"
[[card.app]]
name = "A0000000031010"
label = "CREDIT"
priority = 1
aip = "1C00"
afl = "08010300"
cdol1 = "9F02069F03069F1A0295055F2A029A039C019F3704"
cdol2 = "8A029F02069F03069F1A0295055F2A029A039C019F3704"
pan = "4761739001010010"
sequence = 1
currency = "840"
counter = 10
last_online = 9
count_limit = 5
sum_limit = 20000
pin = "1234"
currency_two = "978"
limit_two = 3000
log = 5
log_sfi = 11
record = []
[[card.app]]
name = "A0000000041010"
label = "DEBIT"
aip = "1C00"
afl = "08010300"
cdol1 = "9F02069F03069F1A0295055F2A029A039C019F3704"
cdol2 = "8A029F02069F03069F1A0295055F2A029A039C019F3704"
pan = "4761739001010010"
currency = "840"
count_limit = 0
sum_limit = 0
tries = 2
blocked = true
record = []
"#;

/// The state before the first power-up, behind an approval, and behind that off.
const APPROVED: &str = "\
state
power
00a4040007a000000003101000
80a8000002830000
80ae40001d000000002500000000000000084080000000000840240615000102030400
state
off
state
power
torn
";

const APPROVED_ANSWERS: &str = "\
state 2
app 0 counter 10 last_online 9 count 0 sum 0 sum_two 0 tries 3 flags 0 blocked false card_blocked false count_limit 5 sum_limit 20000 limit_two 3000 log 5
app 1 counter 0 last_online 0 count 0 sum 0 sum_two 0 tries 2 flags 1 blocked true card_blocked false count_limit 0 sum_limit 0 limit_two 0 log 0
power 10,9,0,0,3,0,0 0,0,0,0,2,1
< 6f1e8407a0000000031010a5135006435245444954870101bf0c059f4d020b059000
< 80061c00080103009000
< 801140000b6114ff966d2fd2320140000103019000
state 2
app 0 counter 11 last_online 9 count 1 sum 2500 sum_two 0 tries 3 flags 0 blocked false card_blocked false count_limit 5 sum_limit 20000 limit_two 3000 log 5 row 0000000025000840240615000b40
app 1 counter 0 last_online 0 count 0 sum 0 sum_two 0 tries 2 flags 1 blocked true card_blocked false count_limit 0 sum_limit 0 limit_two 0 log 0
off
state 2
app 0 counter 11 last_online 9 count 1 sum 2500 sum_two 0 tries 3 flags 0 blocked false card_blocked false count_limit 5 sum_limit 20000 limit_two 3000 log 5 row 0000000025000840240615000b40
app 1 counter 0 last_online 0 count 0 sum 0 sum_two 0 tries 2 flags 1 blocked true card_blocked false count_limit 0 sum_limit 0 limit_two 0 log 0
power 11,9,1,2500,3,0,0 0,0,0,0,2,1
?
";

#[test]
fn a_card_tells_its_state(rt: HostRuntime) -> Result<(), Fail> {
    hold_for(&rt, rt.alloc(), ("c1", LOGGED), APPROVED, APPROVED_ANSWERS)
}

/// The card is pulled out as it counts a PIN try before its first write, and then as it is powered up.
const TORN: &str = "\
torn
pull 2 before 1
torn
power
torn
00a4040007a000000003101000
80a8000002830000
0020008008241234ffffffffff
torn
state
pull 000 release
power
torn
power
torn
";

const TORN_ANSWERS: &str = "\
?
pull 2 before 1
?
power 10,9,0,0,3,0
?
< 6f168407a0000000031010a50b50064352454449548701019000
< 80061c00080103009000
< torn
torn 2 before 1
state 1
app 0 counter 11 last_online 9 count 0 sum 0 sum_two 0 tries 3 flags 0 blocked false card_blocked false count_limit 5 sum_limit 20000 limit_two 0 log 0
pull 000 release
power torn
torn 0 release
power 11,9,0,0,3,0
torn 0 release
";

/// It is pulled out as it takes its counter: at the release the decision is kept.
const RELEASED: &str = "\
pull 1 release
power
00a4040007a000000003101000
80a8000002830000
torn
state
power
pull 2 within 3
power
00a4040007a000000003101000
80a8000002830000
off
torn
";

const RELEASED_ANSWERS: &str = "\
pull 1 release
power 10,9,0,0,3,0
< 6f168407a0000000031010a50b50064352454449548701019000
< torn
torn 1 release
state 1
app 0 counter 11 last_online 9 count 0 sum 0 sum_two 0 tries 3 flags 0 blocked false card_blocked false count_limit 5 sum_limit 20000 limit_two 0 log 0
power 11,9,0,0,3,0
pull 2 within 3
power 11,9,0,0,3,0
< 6f168407a0000000031010a50b50064352454449548701019000
< 80061c00080103009000
off
torn 1 release
";

#[test]
fn a_card_tells_which_plan_fired(rt: HostRuntime) -> Result<(), Fail> {
    for (lines, answers) in [(TORN, TORN_ANSWERS), (RELEASED, RELEASED_ANSWERS)] {
        hold(&rt, rt.alloc(), lines, answers)?;
    }
    Ok(())
}

/// A wrong PIN, the right one, and an approval: what was decided and why, also off, and behind the next power-up.
const DECIDED: &str = "\
decided
why
power
00a4040007a000000003101000
80a8000002830000
0020008008241111ffffffffff
0020008008241234ffffffffff
why
80ae40001d000000002500000000000000084080004000000840240615000102030400
80ae40001d000000002500000000000000084080004000000840240615000102030400
decided
why
off
decided
why
power
decided
why
";

const DECIDED_ANSWERS: &str = "\
decided 0
?
power 10,9,0,0,3,0
< 6f168407a0000000031010a50b50064352454449548701019000
< 80061c00080103009000
< 63c2
< 9000
?
< 801140000b1fe5da94e94c28660140000103019000
< 6985
decided 5
app 0 started 11
app 0 pin-try 2
app 0 pin-try 1
app 0 pin-right 3
app 0 first tc one 2500
why ac first app 0 asked tc made tc blocked false auth_failed false currency 0840 own one count 0 count_limit 5 sum 0 amount 2500 sum_limit 20000
off
decided 5
app 0 started 11
app 0 pin-try 2
app 0 pin-try 1
app 0 pin-right 3
app 0 first tc one 2500
why ac first app 0 asked tc made tc blocked false auth_failed false currency 0840 own one count 0 count_limit 5 sum 0 amount 2500 sum_limit 20000
power 11,9,1,2500,3,0
decided 0
?
";

/// A PIN try is cut before its first write, within one, and at its release.
const CUT: &str = "\
pull 2 before 1
power
00a4040007a000000003101000
80a8000002830000
0020008008241234ffffffffff
decided
pull 2 within 2
power
00a4040007a000000003101000
80a8000002830000
0020008008241234ffffffffff
decided
pull 2 release
power
00a4040007a000000003101000
80a8000002830000
0020008008241234ffffffffff
decided
";

const CUT_ANSWERS: &str = "\
pull 2 before 1
power 10,9,0,0,3,0
< 6f168407a0000000031010a50b50064352454449548701019000
< 80061c00080103009000
< torn
decided 1
app 0 started 11
pull 2 within 2
power 11,9,0,0,3,0
< 6f168407a0000000031010a50b50064352454449548701019000
< 80061c00080103009000
< torn
decided 2
app 0 started 12
app 0 pin-try 2 unsure
pull 2 release
power 12,9,0,0,3,0
< 6f168407a0000000031010a50b50064352454449548701019000
< 80061c00080103009000
< torn
decided 2
app 0 started 13
app 0 pin-try 2
";

#[test]
fn a_card_tells_what_it_decided_and_why(rt: HostRuntime) -> Result<(), Fail> {
    for (lines, answers) in [(DECIDED, DECIDED_ANSWERS), (CUT, CUT_ANSWERS)] {
        hold(&rt, rt.alloc(), lines, answers)?;
    }
    Ok(())
}
