// The figures of up to a hundred map sets.
#![tactic(auto)]

ghost use Rattle.std.specs.Prelude.{◌≡◌, [], ◌+◌, ◌*◌, ◌≤◌, ◌<◌, length};
ghost use Rattle.kit.specs.Lists.{front};
ghost use Rattle.kit.specs.Truth.{truth};
ghost use Rattle.mapset.specs.Described.{full};
ghost use Rattle.mapset.specs.Areas.{six};
ghost use Rattle.valid.specs.Groups.{Long};
ghost use Rattle.week_set.specs.SetFigures.{set_rows, rows_need};
ghost use Rattle.week.specs.Week.{grown, given_as};
ghost use Rattle.week.specs.Sane.{fit?, fair?, sane?, Sane, comes, outcome};
ghost use Rattle.week.specs.Takes.{Takes, taken, stored};

use mapset::{Header, Texts, axes};
use week_tally::{Range, Tally};

// Figures in thousandths of a TECU. The two units are types apart, as DECISIONS.md says: one type with the unit as its parameter needs a
// field for it in every definition.
#[derive(Clone, Copy)]
pub struct TecuTally(pub Tally);

// Figures in thousandths of a kilometre.
#[derive(Clone, Copy)]
pub struct KmTally(pub Tally);

// How many sets were accepted so far, and the figures of each kind over all of them.
#[derive(Clone, Copy)]
pub struct Week {
    pub sets: u64,
    pub tec: TecuTally,
    pub rms: TecuTally,
    pub height: KmTally,
}

// The sets of a week, at most.
const MOST_SETS: u64 = 100;

// Why a set was not added: 60, 31, or 11 with the numbers that the area for the rows needs.
#[derive(Clone, Copy)]
pub enum Why {
    Full,
    Invalid,
    Short(u64),
}

// Whether there is a smallest and a largest exactly where a node has a value, and in order.
fn fits(given: u64, range: Option<Range>) -> bool
    ensures { result ≡ truth (fit? given range) }
{
    match range {
        None => given == 0,
        Some(r) => (0 < given) & (r.smallest <= r.largest),
    }
}

// Whether so many sets can have brought such figures.
fn fair(sets: u64, t: Tally) -> bool
    requires { sets < 100 }
    ensures { result ≡ truth (fair? sets t) }
{
    let most = sets * 2000000;
    if most < t.given {
        return false;
    }
    if most - t.given < t.lacking {
        return false;
    }
    (t.sum.unsigned_abs() <= t.given * 99999000) & fits(t.given, t.range)
}

// Whether the week can be added to.
fn sane(w: Week) -> bool
    requires { w.sets < 100 }
    ensures { result ≡ truth (sane? w) }
{
    fair(w.sets, w.tec.0) & (fair(w.sets, w.rms.0) & fair(w.sets, w.height.0))
}

// How many numbers the rows of a set are.
fn rows_need(maps: u32) -> u64
    ensures { result ≡ 15 * (maps + 1) }
{
    15 * (maps as u64 + 1)
}

// The figures so far with those of a kind of a set, whose rows are stored.
fn kind_into(
    t: Tally,
    kind: u64,
    header: Header,
    values: &[i32],
    exponents: &[i32],
    marks: &[u8],
    rows: &mut [i64],
) -> Tally
    requires { Takes t kind header values.now exponents.now marks.now rows.old }
    ensures { (result ≡ taken t kind header values.now exponents.now marks.now)
        × (rows.new ≡ stored kind header values.now exponents.now marks.now rows.old) }
{
    let maps = header.times.maps as usize;
    let blocks = axes::per_map(header.grid) as usize;
    let columns = axes::nodes(header.grid.longitudes) as usize;
    let first = mapset::blocks_before(ask_nodes::kind_of(kind), maps * blocks);
    let at = (kind as usize) * (5 * (maps + 1));
    let u = week_set::kind_rows(
        kind,
        blocks,
        columns,
        &marks[..maps],
        values,
        &exponents[first..],
        rows,
        at,
    );
    week_tally::join(t, u)
}

// The week with a set's figures, whose rows are stored.
fn grow(
    w: Week,
    header: Header,
    tec: &[i32],
    rms: &[i32],
    height: &[i32],
    exponents: &[i32],
    marks: &[u8],
    rows: &mut [i64],
) -> Week
    requires { (w.sets < 100) × Sane w × Long header (six tec.now rms.now height.now exponents.now [] marks.now) × (rows_need header ≤ length rows.old) }
    ensures { (result ≡ grown w header
        (six tec.now rms.now height.now exponents.now [] marks.now))
        × (rows.new ≡ front (set_rows header
        (six tec.now rms.now height.now exponents.now [] marks.now))
        rows.old) }
{
    let a = kind_into(w.tec.0, 0, header, tec, exponents, marks, rows);
    let b = kind_into(w.rms.0, 1, header, rms, exponents, marks, rows);
    let c = kind_into(w.height.0, 2, header, height, exponents, marks, rows);
    Week {
        sets: w.sets + 1,
        tec: TecuTally(a),
        rms: TecuTally(b),
        height: KmTally(c),
    }
}

// A set into a week: the new week, with the set's own figures as rows; or 60, 31 or 11, in this order, and then the rows are as before.
pub fn add(
    w: Week,
    header: Header,
    texts: Texts,
    descriptions: &[u8],
    tec: &[i32],
    rms: &[i32],
    height: &[i32],
    exponents: &[i32],
    epochs: &[u64],
    marks: &[u8],
    rows: &mut [i64],
) -> Result<Week, Why>
    ensures { comes result rows.new ≡ outcome w (given_as header (full texts descriptions.now)
        (six tec.now rms.now height.now exponents.now epochs.now marks.now)
        rows.old) }
{
    if MOST_SETS <= w.sets {
        return Err(Why::Full);
    }
    if !sane(w) {
        return Err(Why::Invalid);
    }
    if !valid::valid(
        header,
        texts,
        descriptions,
        tec,
        rms,
        height,
        exponents,
        epochs,
        marks,
    ) {
        return Err(Why::Invalid);
    }
    let need = rows_need(header.times.maps);
    let lent = rows.len() as u64;
    if lent < need {
        return Err(Why::Short(need));
    }
    Ok(grow(w, header, tec, rms, height, exponents, marks, rows))
}
