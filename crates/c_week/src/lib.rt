// A week as numbers in an area of a caller in another language, and the answer of adding to it.
#![tactic(auto)]

ghost use Rattle.std.specs.Prelude.{◌≡◌, ◌+◌, ◌≤◌, length};
ghost use Rattle.kit.specs.Lists.{front};
ghost use Rattle.week.specs.Sane.{SmallWeek, SmallAnswer};
ghost use Rattle.c_week.specs.WeekNumbers.{week_numbers, range_of, tally_at, week_at};
ghost use Rattle.c_week.specs.WeekNumbers as numbers;
ghost use Rattle.c_week.specs.WeekExported.{week_short, why_number, why_place, told_number, told_week, told_place};

use week::{KmTally, TecuTally, Week, Why};
use week_tally::{Range, Tally};

// ---- The week that numbers stand for

// A range of 0 and 0 is none.
fn no_range(low: i64, high: i64) -> Option<Range>
    ensures { result ≡ range_of 0 low high }
{
    if kit::wide::between(0, 0, low) & kit::wide::between(0, 0, high) {
        return None;
    }
    Some(Range {
        smallest: 0,
        largest: 0,
    })
}

fn range_in(given: u64, low: i64, high: i64) -> Option<Range>
    ensures { result ≡ range_of given low high }
{
    if given == 0 {
        return no_range(low, high);
    }
    if kit::wide::between(-2147483648, 2147483647, low)
        & kit::wide::between(-2147483648, 2147483647, high)
    {
        return Some(Range {
            smallest: low as i32,
            largest: high as i32,
        });
    }
    None
}

fn tally_in(n: &[i64], i: usize) -> Tally
    requires { i + 5 ≤ length n.now }
    ensures { result ≡ tally_at n.now i }
{
    let given = c_given::held(n[i], u64::MAX);
    Tally {
        given,
        lacking: c_given::held(n[i + 1], u64::MAX),
        range: range_in(given, n[i + 2], n[i + 3]),
        sum: n[i + 4],
    }
}

// A week that no sets give, for numbers that are none.
fn broken() -> Week
    ensures { result ≡ numbers.broken }
{
    let t = week_tally::empty(1);
    Week {
        sets: 0,
        tec: TecuTally(t),
        rms: TecuTally(t),
        height: KmTally(t),
    }
}

pub fn week_in(n: &[i64]) -> Week
    requires { 16 ≤ length n.now }
    ensures { result ≡ week_at n.now }
{
    if n[0] < 0 {
        return broken();
    }
    Week {
        sets: c_given::held(n[0], u64::MAX),
        tec: TecuTally(tally_in(n, 1)),
        rms: TecuTally(tally_in(n, 6)),
        height: KmTally(tally_in(n, 11)),
    }
}

// ---- The answer

// Of the lengths of a call's own areas: 101, 102, or 103 for the week or the place; or 0.
pub fn too_short(header: usize, texts: usize, week: usize, place: usize) -> u64
    ensures { result ≡ week_short header texts week place }
{
    c_answers::too_short_two(header, texts, week, 16, place, 2)
}

fn put_week(out: &mut [i64], w: Week)
    requires { (16 ≤ length out.old) × SmallWeek w }
    ensures { out.new ≡ front (week_numbers w) out.old }
{
    out[0] = week_tally::count(w.sets);
    week_tally::put_row(out, 1, w.tec.0);
    week_tally::put_row(out, 6, w.rms.0);
    week_tally::put_row(out, 11, w.height.0);
}

// The number of a refusal, and what the area for the rows needs.
fn put_why(why: Why, place: &mut [u64]) -> u64
    requires { 2 ≤ length place.old }
    ensures { (result ≡ why_number why) × (place.new ≡ front (why_place why) place.old) }
{
    match why {
        Why::Full => 60,
        Why::Invalid => 31,
        Why::Short(need) => {
            place[0] = 1;
            place[1] = need;
            11
        }
    }
}

// An answer crosses: its number, and the new week or what the area for the rows needs.
pub fn put_added(answer: Result<Week, Why>, week: &mut [i64], place: &mut [u64]) -> u64
    requires { (16 ≤ length week.old) × ((2 ≤ length place.old) × SmallAnswer answer) }
    ensures { (result ≡ told_number answer)
        × ((week.new ≡ front (told_week answer) week.old)
        × (place.new ≡ front (told_place answer) place.old)) }
{
    match answer {
        Ok(w) => {
            put_week(week, w);
            0
        }
        Err(why) => put_why(why, place),
    }
}
