ghost use Rattle.std.specs.Prelude.{◌≡◌, ◌++◌, ◌<◌, ◌≤◌, ◌*◌, length, position, Ok, Err, IfOk, IfSome, MatchResult};
ghost use Rattle.read_records.specs.Afl as spec;
ghost use Rattle.read_records.specs.Afl.{groups_of, places_of, most_records};

use arrayvec::ArrayVec;

/// A group of the application file locator (EMV 4.3 Book 3 section 10.2).
#[derive(Clone, Copy, PartialEq, Eq, Debug, Default)]
pub(crate) struct Group {
    /// The file: its short file identifier in the five high bits.
    pub file: u8,
    /// The first record to read.
    pub first: u8,
    /// The last one.
    pub last: u8,
    /// How many of them take part in offline data authentication.
    pub authenticated: u8,
}

/// As many groups as an answer to GET PROCESSING OPTIONS has room for.
pub(crate) type Groups = ArrayVec<Group, 63>;

/// The groups of a locator, or the number of the first bad one, from 1; 0 where the locator is empty or
/// its last group is not whole (EMV 4.3 Book 3 section 10.2).
#[tactic(auto, unfolding(crate::specs::Afl::groups_of))]
pub(crate) fn read_afl(afl: &[u8]) -> Result<Groups, u8>
    requires { length afl.now < 256 }
    ensures exact { MatchResult result
        (λ groups. groups_of afl.now ≡ Ok groups.items)
        (λ fault. groups_of afl.now ≡ Err fault) }
    ensures some { IfOk result (λ groups. 0 < length groups.items) }
    ensures few { IfOk result (λ groups. length (places_of groups.items) ≤ most_records) }
{
    if afl.is_empty() || afl.len() % 4 > 0 {
        return Err(0);
    }
    let groups = groups_in(afl);
    match first_bad(&groups) {
        None => Ok(groups),
        Some(index) => Err(index as u8 + 1),
    }
}

/// The group of four bytes.
fn group_of(file: u8, first: u8, last: u8, authenticated: u8) -> Group
    ensures exact { result ≡ record { file = file; first = first; last = last; authenticated = authenticated } }
    ensures small { result.last < 256 }
{
    Group {
        file,
        first,
        last,
        authenticated,
    }
}

/// The groups of four bytes, one behind another.
fn groups_in(afl: &[u8]) -> Groups
    requires { length afl.now < 256 }
    ensures exact { result.items ≡ spec.groups_in afl.now }
    ensures few { length (places_of result.items) ≤ 256 * length result.items }
{
    let mut groups = Groups::new();
    let mut rest = afl;
    while let [file, first, last, authenticated, behind @ ..] = rest {
        groups.push(group_of(*file, *first, *last, *authenticated));
        rest = behind;
    }
    groups
}

/// Where the first group stands that no card may give.
fn first_bad(groups: &[Group]) -> Option<usize>
    ensures first { result ≡ position spec.is_bad groups.now }
    ensures within { IfSome result (λ index. index < length groups.now) }
{
    groups.iter().position(|group| is_bad(group))
}

fn is_bad(group: &Group) -> bool
    ensures { result ≡ spec.is_bad group.now }
{
    group.file / 8 == 0
        || group.file / 8 == 31
        || group.first == 0
        || group.last < group.first
        || group.last - group.first + 1 < group.authenticated
}
