//! Which lines are left.
ghost use Rattle.std.specs.Prelude.{◌≡◌};
ghost use Rattle.narrator.specs.Filters as spec;
ghost use Rattle.report_lines.specs.Reading.{seen_line, seen_what, seen_whose};

use report_lines::{ReportLine, What, Whose};

/// Which lines are left, and how much is told of them. Filters go together.
#[derive(Clone, Copy, PartialEq, Eq, Debug)]
pub struct Filter {
    /// Words of objects, fields, list entries, rules and bits are left out.
    pub brief: bool,
    /// Why each purchase came out as it did is told, a line a party.
    pub why: bool,
    /// Where each reason stands is told, in the profile and in the Books.
    pub books: bool,
    /// Power, end, balance and done lines alone.
    pub ends: bool,
    /// The lines of this lane alone.
    pub lane: Option<u8>,
    /// The lines of the lanes' purchases of this number alone.
    pub purchase: Option<u64>,
}

/// Whether a line is of a lane that is asked for.
fn is_of_lane(lane: Option<u8>, whose: &Whose<'_>) -> bool
    ensures { result ≡ spec.is_of_lane lane (seen_whose whose.now) }
{
    match lane {
        None => true,
        Some(wanted) => match whose {
            Whose::Lane(number) | Whose::Settlement(number) => *number == wanted,
            Whose::Audit(_) | Whose::Report => false,
        },
    }
}

/// Whether a line is of a purchase that is asked for. `last_end` is the number of the lane's last purchase
/// that ended before the line.
fn is_of_purchase(purchase: Option<u64>, whose: &Whose<'_>, last_end: u64) -> bool
    ensures { result ≡ spec.is_of_purchase purchase (seen_whose whose.now) last_end }
{
    match purchase {
        None => true,
        Some(wanted) => match whose {
            Whose::Lane(_) => last_end < wanted && wanted - last_end == 1,
            Whose::Settlement(_) | Whose::Audit(_) | Whose::Report => false,
        },
    }
}

/// Whether a line tells a power-up, an end, a balance or how many purchases ended.
fn is_end(what: &What<'_>) -> bool
    ensures { result ≡ spec.is_left_by_ends (seen_what what.now) }
{
    match what {
        What::Power { .. } | What::PowerTorn(_) | What::PowerCanned(_) => true,
        What::End { .. } | What::Lost(_) | What::Balance | What::Done => true,
        _ => false,
    }
}

impl Filter {
    /// Whether every line is left.
    pub fn shows_all(&self) -> bool
        ensures { result ≡ spec.shows_all self.now }
    {
        !self.ends && self.lane.is_none() && self.purchase.is_none()
    }

    /// Whether a line is left. `last_end` is the number of the lane's last purchase that ended before the
    /// line, 0 where none has.
    pub fn shows(&self, line: &ReportLine<'_>, last_end: u64) -> bool
        ensures { result ≡ spec.is_left_by_filters self.now (seen_line line.now) last_end }
    {
        is_of_lane(self.lane, &line.whose)
            && is_of_purchase(self.purchase, &line.whose, last_end)
            && (!self.ends || is_end(&line.what))
    }
}
