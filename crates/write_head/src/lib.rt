// The header of canonical text: the version record, the records in the order of 01's table, END OF HEADER.
#![tactic(auto)]

ghost use Rattle.std.specs.Prelude.{[], ◌∷◌, ◌*◌, ◌≤◌, ◌<◌, ◌^◌, length};
ghost use Rattle.mapset.specs.Described.{line_width, full};
ghost use Rattle.mapset.specs.Sound.{HeaderSays, VersionSays, TimesSay, SystemsSay, ModelSays};
ghost use Rattle.write_line.specs.Put.{LineRoom, Put};
ghost use Rattle.write_head_row.specs.HeadRows.{tenths_row};
ghost use Rattle.write_head.specs.Header as said;

use mapset::{Axis, Counted, Grid, Header, Model, System, Systems, Texts, Times, Version};

// The columns of a line of the description.
const LINE: usize = 60;

// ---- Records, each with where the next line starts

fn put_count(out: &mut [u8], at: usize, k: usize, n: u32) -> usize
    requires { (k < 32) × (n < 2 ^ 31) × LineRoom at (said.number_row k n ∷ []) }
    ensures { Put out.old at (said.number_row k n ∷ []) out.new result }
{
    write_line::put_number(out, at, k, n as i32)
}

fn put_tenths(out: &mut [u8], at: usize, k: usize, n: u32) -> usize
    requires { (k < 32) × (n < 2 ^ 31) × LineRoom at (tenths_row k n ∷ []) }
    ensures { Put out.old at (tenths_row k n ∷ []) out.new result }
{
    let row = write_head_row::tenths_row(k, n);
    write_line::put_line(out, at, &row)
}

fn put_axis(out: &mut [u8], at: usize, k: usize, a: Axis) -> usize
    requires { (k < 32) × LineRoom at (said.axis_row k a ∷ []) }
    ensures { Put out.old at (said.axis_row k a ∷ []) out.new result }
{
    let row = write_row::three_row(k, a.first, a.last, a.step);
    write_line::put_line(out, at, &row)
}

// # OF STATIONS or # OF SATELLITES, where it stands.
fn put_counted(out: &mut [u8], at: usize, k: usize, c: Counted) -> usize
    requires { (k < 32) × (c.count < 2 ^ 31) × LineRoom at (said.counted_rows k c) }
    ensures { Put out.old at (said.counted_rows k c) out.new result }
{
    let stands = c.stands;
    if stands {
        return put_count(out, at, k, c.count);
    }
    at
}

// SYS / #STA / #SAT of the j-th letter, where it stands.
fn put_system(out: &mut [u8], at: usize, j: usize, s: System) -> usize
    requires { (j < 7) × (s.stations < 2 ^ 31) × (s.satellites < 2 ^ 31) × LineRoom at (said.system_rows j s) }
    ensures { Put out.old at (said.system_rows j s) out.new result }
{
    let stands = s.stands;
    if stands {
        let row = write_head_row::system_row(j, s);
        return write_line::put_line(out, at, &row);
    }
    at
}

// ---- The header

fn put_first(out: &mut [u8], at: usize, v: Version, texts: Texts) -> usize
    requires { VersionSays v × LineRoom at (said.first_rows v texts) }
    ensures { Put out.old at (said.first_rows v texts) out.new result }
{
    let version = write_head_row::version_row(v);
    let program = write_head_row::program_row(texts);
    let a = write_line::put_line(out, at, &version);
    write_line::put_line(out, a, &program)
}

// The first n lines of the description.
fn put_descriptions(out: &mut [u8], at: usize, n: usize, lines: &[u8]) -> usize
    requires { (line_width * n ≤ length lines.now) × LineRoom at (said.lines_rows n lines.now) }
    ensures { Put out.old at (said.lines_rows n lines.now) out.new result }
{
    let mut next = at;
    for i in 0..n {
        let from = LINE * i;
        let end = from + LINE;
        let row = write_head_row::description_row(&lines[from..end]);
        next = write_line::put_line(out, next, &row);
    }
    next
}

fn put_times(out: &mut [u8], at: usize, t: Times) -> usize
    requires { TimesSay t × LineRoom at (said.times_rows t) }
    ensures { Put out.old at (said.times_rows t) out.new result }
{
    let a = write_line::put_dated(out, at, labels::FIRST_EPOCH, t.first);
    let b = write_line::put_dated(out, a, labels::LAST_EPOCH, t.last);
    let c = put_count(out, b, labels::INTERVAL, t.interval);
    put_count(out, c, labels::MAPS, t.maps)
}

fn put_middle(out: &mut [u8], at: usize, header: Header, texts: Texts) -> usize
    requires { said.Middling header × LineRoom at (said.middle_rows header texts) }
    ensures { Put out.old at (said.middle_rows header texts) out.new result }
{
    let mapping = write_head_row::mapping_row(texts);
    let observables = write_head_row::observables_row(texts);
    let a = write_line::put_line(out, at, &mapping);
    let b = put_tenths(out, a, labels::CUTOFF, header.model.cutoff);
    let c = write_line::put_line(out, b, &observables);
    let d = put_counted(out, c, labels::STATIONS, header.stations);
    put_counted(out, d, labels::SATELLITES, header.satellites)
}

fn put_systems(out: &mut [u8], at: usize, s: Systems) -> usize
    requires { SystemsSay s × LineRoom at (said.systems_rows s) }
    ensures { Put out.old at (said.systems_rows s) out.new result }
{
    let a = put_system(out, at, 0, s.g);
    let b = put_system(out, a, 1, s.r);
    let c = put_system(out, b, 2, s.e);
    let d = put_system(out, c, 3, s.c);
    let e = put_system(out, d, 4, s.j);
    let f = put_system(out, e, 5, s.i);
    put_system(out, f, 6, s.s)
}

fn put_last(out: &mut [u8], at: usize, model: Model, grid: Grid) -> usize
    requires { ModelSays model × LineRoom at (said.last_rows model grid) }
    ensures { Put out.old at (said.last_rows model grid) out.new result }
{
    let end = write_row::blank_row(labels::HEADER_END);
    let a = put_tenths(out, at, labels::RADIUS, model.radius);
    let b = put_count(out, a, labels::DIMENSION, model.dimension);
    let c = put_axis(out, b, labels::HEIGHTS, grid.heights);
    let d = put_axis(out, c, labels::LATITUDES, grid.latitudes);
    let e = put_axis(out, d, labels::LONGITUDES, grid.longitudes);
    write_line::put_line(out, e, &end)
}

// Where the first map's line starts.
pub fn put_header(
    out: &mut [u8],
    at: usize,
    header: Header,
    texts: Texts,
    descriptions: &[u8],
) -> usize
    requires { HeaderSays header (full texts descriptions.now) × LineRoom at (said.whole_header header (full texts descriptions.now)) }
    ensures { Put out.old at (said.whole_header header (full texts descriptions.now)) out.new result }
{
    let lines = header.descriptions as usize;
    let a = put_first(out, at, header.version, texts);
    let b = put_descriptions(out, a, lines, descriptions);
    let c = put_times(out, b, header.times);
    let d = put_middle(out, c, header, texts);
    let e = put_systems(out, d, header.systems);
    put_last(out, e, header.model, header.grid)
}
