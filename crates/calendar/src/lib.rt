#![tactic(auto)]

ghost use Rattle.std.specs.Prelude.{◌≡◌, ◌<◌, pos};
ghost use Rattle.kit.specs.Range.{Natural};
ghost use Rattle.kit.specs.Truth.{Says};
ghost use Rattle.calendar.specs.Calendar.{column_of, DateAt, Later, checked, recorded, The, told_checked, told_taken, told_when, told_found};
ghost use Rattle.calendar.specs.End.{end};
ghost use Rattle.calendar.specs.Inner.{IsDate, second_of, dated_of, Moment, clip};

// The first second after 2199.
const END: u64 = 9467107200;

// Six numbers that may be a date of the years 1900 to 2199.
#[derive(Clone, Copy)]
pub struct Epoch {
    pub year: u32,
    pub month: u32,
    pub day: u32,
    pub hour: u32,
    pub minute: u32,
    pub second: u32,
}

#[derive(Clone, Copy)]
pub enum Field {
    Year,
    Month,
    Day,
    Hour,
    Minute,
    Second,
}

impl Epoch {
    // The first field that is outside its own range; none where the six are a date.
    pub fn first_wrong(self) -> Option<Field>
        ensures { told_checked result ≡ checked self }
    {
        let year = self.year;
        let month = self.month;
        if !inside(year, 1900, 2199) {
            return Some(Field::Year);
        }
        if !inside(month, 1, 12) {
            return Some(Field::Month);
        }
        let last = days::month_days(days::leap_flag(year as u64), (month as u64) - 1);
        if !inside(self.day, 1, last) {
            return Some(Field::Day);
        }
        if !inside(self.hour, 0, 23) {
            return Some(Field::Hour);
        }
        if !inside(self.minute, 0, 59) {
            return Some(Field::Minute);
        }
        if !inside(self.second, 0, 59) {
            return Some(Field::Second);
        }
        None
    }

    // The seconds from 1900-01-01 00:00:00.
    pub fn seconds(self) -> Option<u64>
        ensures { The (DateAt self) (told_when result) }
    {
        judged(self).ok()
    }

    // The date of a second.
    pub fn at_second(t: u64) -> Option<Epoch>
        ensures { The (λ e. DateAt e t) (told_found result) }
    {
        if t < END { Some(date_of(t)) } else { None }
    }

    // The date that comes `by` seconds after this one.
    pub fn moved(self, by: i64) -> Option<Epoch>
        ensures { The (Later self by) (told_found result) }
    {
        let s = self.seconds()?;
        let t = shifted(s, by)?;
        Some(date_of(t))
    }
}

// The second of a record's six numbers, as its I6 fields have them, or the column of the first wrong one.
pub fn take(
    year: i32,
    month: i32,
    day: i32,
    hour: i32,
    minute: i32,
    second: i32,
) -> Result<u64, u64>
    ensures { told_taken result ≡ recorded year month day hour minute second }
{
    judged(Epoch {
        year: natural(year),
        month: natural(month),
        day: natural(day),
        hour: natural(hour),
        minute: natural(minute),
        second: natural(second),
    })
}

// Whether x is one of low to high.
fn inside(x: u32, low: u64, high: u64) -> bool
    ensures { Says result (Natural low high (pos x)) }
{
    let v = u64::from(x);
    low <= v && v <= high
}

// The column of a field in a record of six I6.
fn column(f: Field) -> u64
    ensures { result ≡ column_of f }
{
    match f {
        Field::Year => 1,
        Field::Month => 7,
        Field::Day => 13,
        Field::Hour => 19,
        Field::Minute => 25,
        Field::Second => 31,
    }
}

// The second of an epoch, or the column of its first wrong field.
fn judged(e: Epoch) -> Result<u64, u64>
    ensures { result ≡ dated_of e }
{
    match e.first_wrong() {
        None => Ok(second_of(e)),
        Some(f) => Err(column(f)),
    }
}

// A record's number as an epoch's: for a negative one, a number that no range holds.
fn natural(x: i32) -> u32
    ensures { result ≡ clip x }
{
    u32::try_from(x).unwrap_or(u32::MAX)
}

// The second of a date.
fn second_of(e: Epoch) -> u64
    requires { IsDate e }
    ensures { result ≡ second_of e }
{
    let year = e.year as u64;
    let years = days::days_to_year(year - 1900);
    let months = days::days_to_month(days::leap_flag(year), (e.month as u64) - 1);
    let days = years + (months + ((e.day as u64) - 1));
    let clock = (e.hour as u64) * 3600 + ((e.minute as u64) * 60 + (e.second as u64));
    days * 86400 + clock
}

// The date of a second.
fn date_of(t: u64) -> Epoch
    requires { t < end }
    ensures { DateAt result t }
{
    let year = days::year_of(t / 86400);
    let month = days::month_of(days::leap_flag(1900 + year.index), year.rest);
    let clock = t % 86400;
    Epoch {
        year: (1900 + year.index) as u32,
        month: (month.index + 1) as u32,
        day: (month.rest + 1) as u32,
        hour: (clock / 3600) as u32,
        minute: (clock % 3600 / 60) as u32,
        second: (clock % 60) as u32,
    }
}

// The second that comes `by` seconds after s.
fn shifted(s: u64, by: i64) -> Option<u64>
    requires { s < end }
    ensures { The (Moment s by) (told_when result) }
{
    if by < 0 {
        let earlier = (s as i64) + by;
        if earlier < 0 {
            return None;
        }
        return Some(earlier as u64);
    }
    let later = s + (by as u64);
    if later < END { Some(later) } else { None }
}
