//! Days of the Gregorian calendar.
ghost use Rattle.std.specs.Prelude.{◌≡◌, ◌↔◌, All, IsSome, IfSome, length, nat_eq, pos, refl};
ghost use Rattle.std.specs.Ordering.{as_partial_cmp, nat_cmp};
ghost use Rattle.std.specs.Cmp.{partial_equiv_from_equiv, unsigned_po};
ghost use Rattle.std.specs.Cmp.Lexicographic.{pointwise, slice_cmp, slice_partial_cmp, lists_agrees, lists_po, nat_list_eq_equiv, nat_list_cmp_total, texts_ties};
ghost use Rattle.jiff.specs.Words.{IsDate, IsYmd};
ghost use Rattle.desk_codes.specs.Characters.{IsDigit};
ghost use Rattle.desk_codes.specs.Number.{number_of};
ghost use Rattle.desk_codes.specs.Day.{IsDay, day_number, year_of, month_of, day_of_month};

use crate::characters::{are_digits, ascii_str};
use crate::number::whole_number;
use crate::words::order_words;
use jiff::civil::Date;
use std::cmp::Ordering;
use std::marker::Model;

/// A day of the years 0000 to 9999, as eight digits YYYYMMDD (ISO 15022, format 8!n). The order of the
/// digits is the order of the calendar.
#[derive(Clone, Copy)]
pub struct Day {
    digits: [u8; 8],
}

impl Model for Day {
    ghost use Rattle.std.specs.Prelude.{List, ℕ};
    ghost use Rattle.desk_codes.specs.Day.{IsDay};

    ghost Value = { List ℕ };

    ghost view = { λ day. day.digits };

    ghost invariant = { λ day. IsDay day.digits };

    ghost inverse = { λ text. record { digits = text } };
}

impl Day {
    /// The day that eight digits name; None where they are no digits, or the calendar has no such date.
    pub fn read(text: &[u8; 8]) -> Option<Day>
        ensures found { IsSome result ↔ IsDay text.now }
        ensures value { IfSome result (λ day. day ≡ text.now) }
    {
        if !are_digits(text) {
            return None;
        }
        let _date = date_of(text)?;
        Some(Day { digits: *text })
    }

    /// Days since 1 January 1970; 1 January 0000 is -719528.
    pub fn number(self) -> i32
        ensures { result ≡ day_number self }
    {
        let date = date_of(&self.digits).unwrap();
        date.to_plain().to_unix_epoch_day()
    }

    /// The number that the eight digits write, as 20240229.
    pub fn yyyymmdd(self) -> u64
        ensures { result ≡ number_of self }
    {
        whole_number(&self.digits)
    }

    /// The eight digits that were read.
    pub fn write(self) -> [u8; 8]
        ensures digits { result ≡ self }
        ensures day { IsDay self }
    {
        self.digits
    }

    /// The eight digits.
    pub fn as_bytes(&self) -> &[u8]
        ensures { result.now ≡ self.now }
    {
        &self.digits
    }

    /// The eight digits as text.
    pub fn as_str(&self) -> &str
        ensures { result.now ≡ self.now }
    {
        ascii_str(&self.digits)
    }
}

impl PartialEq for Day {
    ghost eq = { pointwise nat_eq };

    ghost laws = { partial_equiv_from_equiv nat_list_eq_equiv };

    #[inline]
    fn eq(&self, other: &Day) -> bool {
        self.cmp(other).is_eq()
    }
}

impl Eq for Day {
    ghost laws = { nat_list_eq_equiv };
}

impl PartialOrd for Day {
    ghost partial_cmp = { slice_partial_cmp (as_partial_cmp nat_cmp) };

    ghost laws = { lists_po unsigned_po };

    #[inline]
    fn partial_cmp(&self, other: &Day) -> Option<Ordering> {
        Some(self.cmp(other))
    }
}

impl Ord for Day {
    ghost cmp = { slice_cmp nat_cmp };

    ghost total = { nat_list_cmp_total };

    ghost matches_partial_cmp = { lists_agrees (λ a b. refl) };

    ghost matches_eq = { texts_ties };

    #[inline]
    fn cmp(&self, other: &Day) -> Ordering {
        order_words(&self.digits, &other.digits)
    }
}

/// The calendar's date that eight digits name.
fn date_of(digits: &[u8; 8]) -> Option<Date>
    requires { All IsDigit digits.now }
    ensures found { IsSome result ↔ IsDate (pos (year_of digits.now)) (pos (month_of digits.now)) (pos (day_of_month digits.now)) }
    ensures value { IfSome result (IsYmd (pos (year_of digits.now)) (pos (month_of digits.now)) (pos (day_of_month digits.now))) }
{
    let year = whole_number(&digits[..4]) as i16;
    let month = whole_number(&digits[4..6]) as i8;
    let day = whole_number(&digits[6..]) as i8;
    Date::new(year, month, day).ok()
}
