// The header record as numbers, and its texts as bytes, in the areas of a caller in another language.
#![tactic(auto)]

ghost use Rattle.mapset.specs.Described.{full};
ghost use Rattle.std.specs.Prelude.{◌≡◌, [], ◌∷◌, ◌+◌, ◌≤◌, ◌<◌, length};
ghost use Rattle.std.proofs.lemmas.List.Edits.{sets};
ghost use Rattle.kit.specs.Lists.{front};
ghost use Rattle.c_header.specs.Numbers.{axis_numbers, counted_numbers, system_numbers, first_numbers, grid_numbers, starred_numbers, numbers, five_bytes, text_bytes};

use mapset::{Axis, Counted, Grid, Header, System, Texts};

// Numbers into an area, from a position on.
fn put(out: &mut [i64], at: usize, numbers: &[i64])
    requires { at + length numbers.now ≤ length out.old }
    ensures { out.new ≡ sets out.old at numbers.now }
{
    let end = at + numbers.len();
    out[at..end].copy_from_slice(numbers);
}

fn put_axis(out: &mut [i64], at: usize, a: Axis)
    requires { at + 3 ≤ length out.old }
    ensures { out.new ≡ sets out.old at (axis_numbers a) }
{
    put(out, at, &[a.first as i64, a.last as i64, a.step as i64]);
}

fn put_counted(out: &mut [i64], at: usize, c: Counted)
    requires { at + 2 ≤ length out.old }
    ensures { out.new ≡ sets out.old at (counted_numbers c) }
{
    put(out, at, &[c.stands as i64, c.count as i64]);
}

fn put_system(out: &mut [i64], at: usize, s: System)
    requires { at + 3 ≤ length out.old }
    ensures { out.new ≡ sets out.old at (system_numbers s) }
{
    put(
        out,
        at,
        &[s.stands as i64, s.stations as i64, s.satellites as i64],
    );
}

fn put_first(out: &mut [i64], h: Header)
    requires { (10 ≤ length out.old) × (h.times.first < 9223372036854775808) × (h.times.last < 9223372036854775808) }
    ensures { out.new ≡ sets out.old 0 (first_numbers h) }
{
    put(
        out,
        0,
        &[
            h.version.tenths as i64,
            h.version.kind as i64,
            h.version.code as i64,
            h.times.first as i64,
            h.times.last as i64,
            h.times.interval as i64,
            h.times.maps as i64,
            h.model.cutoff as i64,
            h.model.radius as i64,
            h.model.dimension as i64,
        ],
    );
}

fn put_grid(out: &mut [i64], g: Grid)
    requires { 19 ≤ length out.old }
    ensures { out.new ≡ sets out.old 10 (grid_numbers g) }
{
    put_axis(out, 10, g.heights);
    put_axis(out, 13, g.latitudes);
    put_axis(out, 16, g.longitudes);
}

fn put_starred(out: &mut [i64], h: Header)
    requires { 44 ≤ length out.old }
    ensures { out.new ≡ sets out.old 19 (starred_numbers h) }
{
    put_counted(out, 19, h.stations);
    put_counted(out, 21, h.satellites);
    put_system(out, 23, h.systems.g);
    put_system(out, 26, h.systems.r);
    put_system(out, 29, h.systems.e);
    put_system(out, 32, h.systems.c);
    put_system(out, 35, h.systems.j);
    put_system(out, 38, h.systems.i);
    put_system(out, 41, h.systems.s);
}

// Two counts, as a place or an area and its need.
pub fn put_pair(out: &mut [u64], first: u64, second: u64)
    requires { 2 ≤ length out.old }
    ensures { out.new ≡ front (first ∷ second ∷ []) out.old }
{
    out[0] = first;
    out[1] = second;
}

pub fn put_header(out: &mut [i64], h: Header)
    requires { (45 ≤ length out.old) × (h.times.first < 9223372036854775808) × (h.times.last < 9223372036854775808) }
    ensures { out.new ≡ front (numbers h) out.old }
{
    put_first(out, h);
    put_grid(out, h.grid);
    put_starred(out, h);
    out[44] = h.descriptions as i64;
}

// PGM / RUN BY / DATE, MAPPING FUNCTION, OBSERVABLES USED.
fn put_five(out: &mut [u8], x: Texts)
    requires { 124 ≤ length out.old }
    ensures { out.new ≡ front (five_bytes x) out.old }
{
    kit::copy_at(&x.program, out, 0);
    kit::copy_at(&x.agency, out, 20);
    kit::copy_at(&x.date, out, 40);
    kit::copy_at(&x.mapping, out, 60);
    kit::copy_at(&x.observables, out, 64);
}

// The texts, and behind them the bytes of the description.
pub fn put_texts(out: &mut [u8], x: Texts, descriptions: &[u8])
    requires { (1324 ≤ length out.old) × (length descriptions.now ≡ 1200) }
    ensures { out.new ≡ front (text_bytes (full x descriptions.now)) out.old }
{
    put_five(out, x);
    kit::copy_at(descriptions, out, 124);
}
