ghost use Rattle.std.specs.Prelude.{◌≡◌, ◌+◌, ◌*◌, ◌≤◌, ◌==◌, ◌&&◌, ◌⊎◌, nat_le, if◌then◌else◌, IsTrue, List, length, take, drop, IfSome, option_map};
ghost use Rattle.std.specs.Int.{from_be_bytes, w16, w64};
ghost use Rattle.card_state.specs.Allowed.{Allowed};
ghost use Rattle.card_state.specs.Decisions.{Decided};
ghost use Rattle.card_state.specs.Encoding.{encoding, encoding_one, HasShortLogs, IsCardState};
ghost use Rattle.card_state.specs.Fits.{AllFit};
ghost use Rattle.card_state.specs.Totals.{totals};
ghost use Rattle.card_state.specs.Layout as spec;
ghost use Rattle.card_state.specs.Layout.{app_in, apps_in, card_of_bytes, decoded, decoded_one, log_row_of, rows_in, rows_said, size_in};
ghost use Rattle.card_state.specs.Upgrade.{card_as_one};
ghost use Rattle.card_state.specs.declared.decoding.Version.TheVariants.{One, Two};
ghost use Rattle.card_state.specs.declared.state.CardState.{CardState as Card};

use crate::state::{AppState, CardState, LogRow};
use arrayvec::ArrayVec;

/// The versions of a state's bytes.
#[derive(Clone, Copy)]
pub enum Version {
    /// Without a second currency and without a transaction log.
    One,
    /// With them.
    Two,
}

/// The state whose encoding these bytes are, in either version, or `None` where they are the encoding of no
/// state. A state of version 1 has no second currency and no log.
pub fn decode(bytes: &[u8]) -> Option<CardState>
    ensures exact { result ≡ decoded bytes.now }
    ensures reads { (state : Card) → IsCardState state → encoding state ≡ bytes.now → result ≡ Some state }
    ensures reads_one { (state : Card) → IsCardState state → encoding_one state ≡ bytes.now
        → result ≡ Some (card_as_one state) }
    ensures bytes { IfSome result (λ state. (encoding state ≡ bytes.now)
        ⊎ ((encoding_one state ≡ bytes.now) × (card_as_one state ≡ state))) }
    // A state that was stored is read back, whatever its history: the totals of allowed decisions whose
    // numbers fit their fields.
    ensures stored { (opening : Card) (ds : List Decided) → IsCardState opening → HasShortLogs opening
        → Allowed opening ds → AllFit ds
        → encoding (totals opening ds) ≡ bytes.now → result ≡ Some (totals opening ds) }
    ensures stored_one { (opening : Card) (ds : List Decided) → IsCardState opening → HasShortLogs opening
        → Allowed opening ds → AllFit ds
        → encoding_one (totals opening ds) ≡ bytes.now → result ≡ Some (card_as_one (totals opening ds)) }
{
    read_either(bytes)
}

/// The state of these bytes, in either version.
#[tactic(auto, unfolding(crate::specs::Layout::decoded))]
fn read_either(bytes: &[u8]) -> Option<CardState>
    ensures { result ≡ decoded bytes.now }
{
    match bytes {
        [version, count, card, rest @ ..] => read_of(*version, *count, *card, rest),
        _ => None,
    }
}

/// The card of a version that is known.
fn read_of(version: u8, count: u8, card: u8, bytes: &[u8]) -> Option<CardState>
    ensures { result ≡ (if version == 1 then card_of_bytes One count card bytes.now
        else if version == 2 then card_of_bytes Two count card bytes.now else None) }
{
    if version == 1 {
        return read_card(Version::One, count, card, bytes);
    }
    if version == 2 {
        return read_card(Version::Two, count, card, bytes);
    }
    None
}

/// The state whose encoding in version 1 these bytes are, or `None` where they are that of no state.
#[tactic(auto, unfolding(crate::specs::Layout::decoded_one))]
pub fn decode_one(bytes: &[u8]) -> Option<CardState>
    ensures exact { result ≡ decoded_one bytes.now }
{
    match bytes {
        [version, count, card, rest @ ..] => read_one(*version, *count, *card, rest),
        _ => None,
    }
}

/// The card of version 1.
fn read_one(version: u8, count: u8, card: u8, bytes: &[u8]) -> Option<CardState>
    ensures { result ≡ (if version == 1 then card_of_bytes One count card bytes.now else None) }
{
    if version != 1 {
        return None;
    }
    read_card(Version::One, count, card, bytes)
}

/// The card of so many applications.
fn read_card(version: Version, count: u8, card: u8, bytes: &[u8]) -> Option<CardState>
    ensures { result ≡ card_of_bytes version count card bytes.now }
{
    if !is_head(count, card) {
        return None;
    }
    match read_apps(version, count, bytes) {
        Some(apps) => Some(CardState {
            blocked: card == 1,
            apps,
        }),
        None => None,
    }
}

/// Whether there are at most four applications, and the card is said to be blocked or not.
fn is_head(count: u8, card: u8) -> bool
    ensures exact { result ≡ (nat_le count 4 && nat_le card 1) }
    ensures few { IsTrue result → count ≤ 4 }
{
    count <= 4 && card <= 1
}

/// So many applications, and nothing behind them.
fn read_apps(version: Version, count: u8, bytes: &[u8]) -> Option<ArrayVec<AppState, 4>>
    requires { count ≤ 4 }
    ensures { option_map (λ apps. apps.items) result ≡ apps_in version count bytes.now }
{
    let mut apps = ArrayVec::new();
    let mut rest = bytes;
    for i in 0..count {
        match read_app(version, rest) {
            Some(app) => {
                rest = &rest[size_of(version, &app)..];
                apps.push(app);
            }
            None => return None,
        }
    }
    if !rest.is_empty() {
        return None;
    }
    Some(apps)
}

/// How many bytes an application has.
fn size_of(version: Version, app: &AppState) -> usize
    ensures { result ≡ size_in version app.now }
{
    match version {
        Version::One => 32,
        Version::Two => 50 + 14 * app.log.len(),
    }
}

/// The application that the bytes begin with.
fn read_app(version: Version, bytes: &[u8]) -> Option<AppState>
    ensures exact { result ≡ app_in version bytes.now }
    ensures fits { IfSome result (λ app. size_in version app ≤ length bytes.now) }
{
    match version {
        Version::One => read_first(bytes),
        Version::Two => read_second(bytes),
    }
}

/// The application of version 1 that the bytes begin with.
fn read_first(bytes: &[u8]) -> Option<AppState>
    ensures exact { result ≡ app_in One bytes.now }
    ensures fits { IfSome result (λ app. size_in One app ≤ length bytes.now) }
{
    if bytes.len() < 32 {
        return None;
    }
    if bytes[23] > 3 {
        return None;
    }
    Some(fields_one(bytes))
}

/// That of version 2.
fn read_second(bytes: &[u8]) -> Option<AppState>
    ensures exact { result ≡ app_in Two bytes.now }
    ensures fits { IfSome result (λ app. size_in Two app ≤ length bytes.now) }
{
    if bytes.len() < 50 {
        return None;
    }
    if bytes[23] > 3 {
        return None;
    }
    let more = &bytes[32..];
    if !has_rows(more) {
        return None;
    }
    Some(with_more(fields_one(bytes), more))
}

/// Whether at most ten rows are said to stand behind 18 bytes, and do.
fn has_rows(more: &[u8]) -> bool
    requires { 18 ≤ length more.now }
    ensures exact { result ≡ spec.has_rows more.now }
    ensures few { IsTrue result → rows_said more.now ≤ 10 }
    ensures whole { IsTrue result → 18 + 14 * rows_said more.now ≤ length more.now }
{
    more[17] <= 10 && 18 + 14 * usize::from(more[17]) <= more.len()
}

/// The application with the fields that version 2 has behind those of version 1.
#[tactic(auto, using(std::proofs::lemmas::List::take_rest), unfolding(crate::specs::Layout::with_more))]
fn with_more(app: AppState, more: &[u8]) -> AppState
    requires few { rows_said more.now ≤ 10 }
    requires whole { 18 + 14 * rows_said more.now ≤ length more.now }
    ensures { result ≡ spec.with_more app more.now }
{
    AppState {
        sum_two: long_at(more, 0),
        limit_two: long_at(more, 8),
        log_max: more[16],
        log: read_rows(more[17], &more[18..]),
        ..app
    }
}

/// So many rows.
fn read_rows(count: u8, bytes: &[u8]) -> ArrayVec<LogRow, 10>
    requires few { count ≤ 10 }
    requires whole { 14 * count ≤ length bytes.now }
    ensures { result.items ≡ rows_in count bytes.now }
{
    let mut rows = ArrayVec::new();
    let mut rest = bytes;
    for i in 0..count {
        rows.push(read_row(rest));
        rest = &rest[14..];
    }
    rows
}

/// The row in the first 14 bytes.
#[tactic(auto, unfolding(crate::specs::Layout::log_row_of))]
fn read_row(bytes: &[u8]) -> LogRow
    requires { 14 ≤ length bytes.now }
    ensures { result ≡ log_row_of bytes.now }
{
    let mut raw = [0; 6];
    raw.copy_from_slice(&bytes[0..6]);
    let mut currency = [0; 2];
    currency.copy_from_slice(&bytes[6..8]);
    let mut date = [0; 3];
    date.copy_from_slice(&bytes[8..11]);
    LogRow {
        raw,
        currency,
        date,
        counter: short_at(bytes, 11),
        kind: bytes[13],
    }
}

/// The fields that stand in the 32 bytes of version 1.
#[tactic(auto, unfolding(crate::specs::Layout::fields_one))]
fn fields_one(bytes: &[u8]) -> AppState
    requires { 32 ≤ length bytes.now }
    ensures { result ≡ spec.fields_one bytes.now }
{
    let mut pin = [0; 8];
    pin.copy_from_slice(&bytes[24..32]);
    AppState {
        counter: short_at(bytes, 0),
        last_online: short_at(bytes, 2),
        count: bytes[4],
        sum: long_at(bytes, 5),
        count_limit: bytes[13],
        sum_limit: long_at(bytes, 14),
        tries: bytes[22],
        blocked: bytes[23] % 2 == 1,
        auth_failed: bytes[23] / 2 == 1,
        pin,
        sum_two: 0,
        limit_two: 0,
        log_max: 0,
        log: ArrayVec::new(),
    }
}

/// The number of the two bytes at this place.
fn short_at(bytes: &[u8], at: usize) -> u16
    requires { at + 2 ≤ length bytes.now }
    ensures { result ≡ from_be_bytes w16 (take 2 (drop at bytes.now)) }
{
    let mut number = [0; 2];
    number.copy_from_slice(&bytes[at..at + 2]);
    u16::from_be_bytes(number)
}

/// The number of the eight bytes at this place.
fn long_at(bytes: &[u8], at: usize) -> u64
    requires { at + 8 ≤ length bytes.now }
    ensures { result ≡ from_be_bytes w64 (take 8 (drop at bytes.now)) }
{
    let mut number = [0; 8];
    number.copy_from_slice(&bytes[at..at + 8]);
    u64::from_be_bytes(number)
}
