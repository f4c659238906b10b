ghost use Rattle.std.specs.Prelude.{◌≡◌};

use arrayvec::ArrayVec;

/// A row of an application's transaction log (EMV 4.3 Book 3 Annex D4).
#[derive(Clone, Copy, PartialEq, Eq, Debug, Default)]
pub struct LogRow {
    /// The amount as twelve digits, object 9F02.
    pub raw: [u8; 6],
    /// The code of its currency, object 5F2A.
    pub currency: [u8; 2],
    /// The date, object 9A.
    pub date: [u8; 3],
    /// The application transaction counter, object 9F36.
    pub counter: u16,
    /// The kind of the cryptogram, as in object 9F27: `Kind::byte`.
    pub kind: u8,
}

/// The state of one application of a card.
#[derive(Drop, PartialEq, Eq, Debug, Default)]
pub struct AppState {
    /// The application transaction counter, object 9F36.
    pub counter: u16,
    /// The counter of the last transaction in which the issuer was authenticated, object 9F13.
    pub last_online: u16,
    /// How many offline approvals there were since the totals were last reset.
    pub count: u8,
    /// The sum of their amounts in the application's currency, in its least unit.
    pub sum: u64,
    /// The greatest number of offline approvals.
    pub count_limit: u8,
    /// The greatest sum of their amounts in the application's currency.
    pub sum_limit: u64,
    /// The PIN tries that are left, object 9F17.
    pub tries: u8,
    /// Whether the application is blocked.
    pub blocked: bool,
    /// Whether the last issuer authentication failed.
    pub auth_failed: bool,
    /// The reference PIN as a plain PIN block of format 2, or zeros for none.
    pub pin: [u8; 8],
    /// The sum of the offline approvals in the second currency, in its least unit.
    pub sum_two: u64,
    /// The greatest sum of their amounts in the second currency.
    pub limit_two: u64,
    /// The greatest number of rows of the transaction log.
    pub log_max: u8,
    /// The transaction log, the latest row first.
    pub log: ArrayVec<LogRow, 10>,
}

impl AppState {
    /// The same state once more, where it must stand twice.
    pub fn copy(&self) -> AppState
        ensures { result ≡ self.now }
    {
        let mut log = ArrayVec::new();
        if log.try_extend_from_slice(self.log.as_slice()).is_err() {
            unreachable!();
        }
        AppState {
            counter: self.counter,
            last_online: self.last_online,
            count: self.count,
            sum: self.sum,
            count_limit: self.count_limit,
            sum_limit: self.sum_limit,
            tries: self.tries,
            blocked: self.blocked,
            auth_failed: self.auth_failed,
            pin: self.pin,
            sum_two: self.sum_two,
            limit_two: self.limit_two,
            log_max: self.log_max,
            log,
        }
    }
}

/// The state of a card: its applications in the order of its image.
#[derive(Drop, PartialEq, Eq, Debug, Default)]
pub struct CardState {
    /// Whether the card as a whole is blocked.
    pub blocked: bool,
    /// Its applications, at most four.
    pub apps: ArrayVec<AppState, 4>,
}
