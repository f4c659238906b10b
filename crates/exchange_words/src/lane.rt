//! What the lines of a lane leave, since its card was powered up.
ghost use Rattle.std.specs.Prelude.{◌≡◌, [], length, nat_le, if◌then◌else◌};
ghost use Rattle.exchange_words.specs.Lanes as spec;

use arrayvec::ArrayVec;
use emv_dict::Kind;
use value_words::{CardCodes, Reason};

/// What is kept of a lane.
#[derive(Drop)]
pub struct LaneState {
    /// The last command.
    pub command: ArrayVec<u8, 261>,
    /// The last answer to SELECT.
    pub selected: ArrayVec<u8, 258>,
    /// The lists 9F38, 8C and 8D.
    pub pdol: ArrayVec<u8, 255>,
    pub cdol1: ArrayVec<u8, 255>,
    pub cdol2: ArrayVec<u8, 255>,
    /// The data of the first GENERATE AC.
    pub first: ArrayVec<u8, 255>,
    /// 9F0E, 9F0F and 9F0D.
    pub codes: CardCodes,
    /// 9F14 and 9F23.
    pub lower: Option<u64>,
    pub upper: Option<u64>,
    /// 9F36, from GET DATA.
    pub counter: Option<u64>,
    /// The terminal verification results that were sent last.
    pub results: Option<u64>,
    /// The kinds that were asked for and answered last.
    pub asked: Option<Kind>,
    pub answered: Option<Kind>,
    /// The issuer's response code.
    pub code: Option<[u8; 2]>,
    /// Why the last kind was asked for, and whether that was the second question.
    pub reason: Option<Reason>,
    pub second: bool,
    /// How many answers to GENERATE AC were read.
    pub cryptograms: u8,
}

/// No code was given.
const NO_CODES: CardCodes = CardCodes {
    denial: None,
    online: None,
    default: None,
};

impl LaneState {
    /// Before any line.
    pub fn new() -> LaneState
        ensures { result ≡ spec.fresh }
    {
        LaneState {
            command: ArrayVec::new(),
            selected: ArrayVec::new(),
            pdol: ArrayVec::new(),
            cdol1: ArrayVec::new(),
            cdol2: ArrayVec::new(),
            first: ArrayVec::new(),
            codes: NO_CODES,
            lower: None,
            upper: None,
            counter: None,
            results: None,
            asked: None,
            answered: None,
            code: None,
            reason: None,
            second: false,
            cryptograms: 0,
        }
    }

    /// Forgets what a card gave and was sent, as it is powered up.
    pub fn begin(&mut self)
        ensures { self.new ≡ spec.fresh }
    {
        self.command.clear();
        self.selected.clear();
        self.pdol.clear();
        self.forget_lists();
        self.counter = None;
        self.results = None;
        self.asked = None;
        self.answered = None;
        self.code = None;
        self.reason = None;
        self.second = false;
        self.cryptograms = 0;
    }

    /// Forgets what the records gave.
    fn forget_lists(&mut self)
        ensures { self.new ≡ spec.without_lists self.old }
    {
        self.cdol1.clear();
        self.cdol2.clear();
        self.first.clear();
        self.codes = NO_CODES;
        self.lower = None;
        self.upper = None;
    }
}

/// Keeps bytes in place of those that were kept, or none where there are too many.
pub fn keep<const N: usize>(kept: &mut ArrayVec<u8, N>, bytes: &[u8])
    ensures { kept.new.items ≡ (if nat_le (length bytes.now) N then bytes.now else []) }
{
    kept.clear();
    if kept.try_extend_from_slice(bytes).is_err() {
        kept.clear();
    }
}
