// A map set into the figures of a week, and as other languages have it added.
ghost use Rattle.std.specs.Prelude.{◌≡◌};
ghost use Rattle.mapset.specs.Described.{full};
ghost use Rattle.mapset.specs.Areas.{six};
ghost use Rattle.week.specs.Week.{given_as};
ghost use Rattle.week.specs.Sane.{comes, outcome};
ghost use Rattle.c_week.specs.WeekExported.{crossed, week_crossed};

use c_given::{END, LINES};
use mapset::{Header, Texts};
use week::{Week, Why};

// The new week, with the set's figures in front of the rows; or 60, 31, or 11 with the numbers that the rows need, in this order.
pub fn add(
    week: Week,
    header: Header,
    texts: Texts,
    descriptions: &[u8],
    tec: &[i32],
    rms: &[i32],
    height: &[i32],
    exponents: &[i32],
    epochs: &[u64],
    marks: &[u8],
    rows: &mut [i64],
) -> Result<Week, Why>
    ensures outcome { comes result rows.new ≡ outcome week (given_as header (full texts descriptions.now)
        (six tec.now rms.now height.now exponents.now epochs.now marks.now)
        rows.old) }
{
    week::add(
        week,
        header,
        texts,
        descriptions,
        tec,
        rms,
        height,
        exponents,
        epochs,
        marks,
        rows,
    )
}

// A map set into a week of 16 numbers: 0, with the new week and the set's rows; or 60, 31, or 11 with area 1 and its need.
#[unsafe(no_mangle)]
pub extern "C" fn ionex_week_add(
    week: &mut [i64],
    header: &[i64],
    texts: &[u8],
    tec: &[i32],
    rms: &[i32],
    height: &[i32],
    exponents: &[i32],
    epochs: &[u64],
    marks: &[u8],
    rows: &mut [i64],
    place: &mut [u64],
) -> u64
    ensures outcome { crossed result week.new rows.new place.new
        ≡ week_crossed week.old header.now texts.now
        (six tec.now rms.now height.now exponents.now epochs.now marks.now)
        rows.old place.old }
{
    let short = c_week::too_short(header.len(), texts.len(), week.len(), place.len());
    if 0 < short {
        return short;
    }
    let w = c_week::week_in(week);
    let h = c_given::header_in(header);
    let x = c_given::texts_in(texts);
    let answer = add(
        w,
        h,
        x,
        &texts[LINES..END],
        tec,
        rms,
        height,
        exponents,
        epochs,
        marks,
        rows,
    );
    c_week::put_added(answer, week, place)
}
