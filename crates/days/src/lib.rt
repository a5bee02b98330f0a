// The years by their formula, and the walk through the months.
#![tactic(auto)]

ghost use Rattle.std.specs.Prelude.{◌≡◌, ◌≤◌, ◌<◌};
ghost use Rattle.days.specs.Sums.{sum, Place};
ghost use Rattle.days.specs.Years.{row, month_days, year_days};
ghost use Rattle.days.specs.Formula.{leap_days};

// The lengths of the months, in a common year and in a leap year.
const MONTHS: [[u8; 12]; 2] = [
    [31, 28, 31, 30, 31, 30, 31, 31, 30, 31, 30, 31],
    [31, 29, 31, 30, 31, 30, 31, 31, 30, 31, 30, 31],
];

// A year or a month, counted from 0, and the days past its start.
#[derive(Clone, Copy)]
pub struct Spot {
    pub index: u64,
    pub rest: u64,
}

// 1 in a leap year, 0 in a common year.
pub fn leap_flag(year: u64) -> usize
    ensures { result ≡ row year }
{
    if year % 400 == 0 {
        return 1;
    }
    if year % 100 == 0 {
        return 0;
    }
    if year % 4 == 0 { 1 } else { 0 }
}

// The days of a month, counted from 0.
pub fn month_days(leap: usize, month: u64) -> u64
    requires { (leap < 2) × (month < 12) }
    ensures { result ≡ month_days leap month }
{
    MONTHS[leap][month as usize] as u64
}

// The days of a year, counted from 1900.
fn year_days(k: u64) -> u64
    requires { k < 300 }
    ensures { result ≡ year_days k }
{
    if leap_flag(1900 + k) == 1 { 366 } else { 365 }
}

// The leap days of the years 1 to y: a day each fourth year, but none each hundredth, and yet one each four-hundredth.
fn leap_days(y: u64) -> u64
    ensures { result ≡ leap_days y }
{
    y / 4 - y / 100 + y / 400
}

// The days of the first n years from 1900: 365 each, and the leap days since.
pub fn days_to_year(n: u64) -> u64
    requires { n < 300 }
    ensures { result ≡ sum year_days n }
{
    365 * n + leap_days(1899 + n) - leap_days(1899)
}

// The year of a day, counted from 1900-01-01. Were all years of 366 days, it would be the first one tried; 300 years are so few
// that otherwise it is the next.
pub fn year_of(days: u64) -> Spot
    requires { days < sum year_days 300 }
    ensures { (result.index < 300) × Place year_days days result.index result.rest }
{
    let k = days / 366;
    let rest = days - days_to_year(k);
    let own = year_days(k);
    if rest < own {
        return Spot { index: k, rest };
    }
    Spot {
        index: k + 1,
        rest: rest - own,
    }
}

// The days of the first n months of a year.
pub fn days_to_month(leap: usize, n: u64) -> u64
    requires { (leap < 2) × (n ≤ 12) }
    ensures { result ≡ sum (month_days leap) n }
{
    let mut days: u64 = 0;
    for k in 0..n {
        days += month_days(leap, k);
    }
    days
}

// The month of a day of a year.
pub fn month_of(leap: usize, days: u64) -> Spot
    requires { (leap < 2) × (days < sum (month_days leap) 12) }
    ensures { (result.index < 12) × Place (month_days leap) days result.index result.rest }
{
    let mut rest = days;
    for k in 0..11 {
        let n = month_days(leap, k);
        if rest < n {
            return Spot { index: k, rest };
        }
        rest -= n;
    }
    Spot { index: 11, rest }
}
