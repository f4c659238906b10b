ghost use Rattle.std.specs.Prelude.{◌≡◌};
ghost use Rattle.emv_dict.specs.Date.{date_of, year_of, is_earlier};

use crate::bcd::{has_digits, two_digit_number};

/// A calendar date, as of the objects 9A, 5F24 and 5F25.
#[derive(Clone, Copy, PartialEq, Eq, Debug)]
pub struct Date {
    /// The year with its century.
    pub year: u16,
    /// The month, from 1 to 12.
    pub month: u8,
    /// The day, from 1 to 31.
    pub day: u8,
}

impl Date {
    /// The date of year, month and day in two decimal digits a byte, or `None` where a half byte is no
    /// digit, the month isn't 1 to 12 or the day not 1 to 31. The years 00 to 49 are 2000 to 2049, and
    /// 50 to 99 are 1950 to 1999.
    pub fn read(bytes: [u8; 3]) -> Option<Date>
        ensures { result ≡ date_of bytes }
    {
        let [year, month, day] = bytes;
        if !has_digits(year) || !has_digits(month) || !has_digits(day) {
            return None;
        }
        let month = two_digit_number(month);
        let day = two_digit_number(day);
        if month < 1 || month > 12 || day < 1 || day > 31 {
            return None;
        }
        Some(Date {
            year: full_year(two_digit_number(year)),
            month,
            day,
        })
    }

    /// Whether this is an earlier day than the other.
    pub fn is_before(&self, other: &Date) -> bool
        ensures { result ≡ is_earlier self.now other.now }
    {
        self.year < other.year
            || (self.year == other.year
                && (self.month < other.month
                    || (self.month == other.month && self.day < other.day)))
    }
}

/// The year of its last two digits.
fn full_year(digits: u8) -> u16
    ensures { result ≡ year_of digits }
{
    if digits < 50 {
        2000 + u16::from(digits)
    } else {
        1900 + u16::from(digits)
    }
}
