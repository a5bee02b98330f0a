// The rows of canonical text, each as 80 bytes.
#![tactic(auto)]

ghost use Rattle.std.specs.Prelude.{◌≡◌, [], ◌++◌, ◌+◌, ◌<◌, ◌≤◌, ◌^◌, length, take, drop, get_or, replicate, pos};
ghost use Rattle.layout.specs.Labels.{block};
ghost use Rattle.layout.specs.Layout as L;
ghost use Rattle.layout.specs.Names.{names};
ghost use Rattle.canonical.specs.Canon.{row_of, date_of, six, Wide};
ghost use Rattle.canonical.specs.Canon as canon;
ghost use Rattle.write_row.specs.Rows.{row_at, whole, three, six_whole, opening_of, Placed};

use calendar::Epoch;
use mapset::{Axis, Grid};

// ---- Bytes

// A text, as it stands, into the columns after the first a.
pub fn put_text(line: &mut [u8], a: usize, text: &[u8])
    requires { a + length text.now ≤ length line.old }
    ensures { line.new ≡ take a line.old ++ (text.now ++ drop (a + length text.now) line.old) }
{
    let e = a + text.len();
    line[a..e].copy_from_slice(text);
}

// ---- Rows by the place of their label in LABELS

// Blanks, and the label in columns 61 to 80.
pub fn blank_row(k: usize) -> [u8; 80]
    requires { k < 32 }
    ensures { result ≡ replicate 60 32 ++ get_or names k [] }
{
    let labels = labels::LABELS;
    let label = labels[k];
    let mut row = [b' '; 80];
    put_text(&mut row, 60, &label);
    row
}

// I6,54X.
pub fn number_row(k: usize, z: i32) -> [u8; 80]
    requires { k < 32 }
    ensures { result ≡ row_at k whole (z, tt) }
{
    let mut row = blank_row(k);
    numerals::put_int(&mut row, 0, 6, z);
    row
}

// 2X,3F6.1,40X, of tenths.
pub fn three_row(k: usize, x: i32, y: i32, z: i32) -> [u8; 80]
    requires { k < 32 }
    ensures { result ≡ row_at k three (x, (y, (z, tt))) }
{
    let mut row = blank_row(k);
    numerals::put_tenths(&mut row, 2, 6, x);
    numerals::put_tenths(&mut row, 8, 6, y);
    numerals::put_tenths(&mut row, 14, 6, z);
    row
}

// The date of a second, zeros after 2199.
fn date(second: u64) -> Epoch
    ensures { result ≡ date_of second }
{
    match Epoch::at_second(second) {
        Some(e) => e,
        None => Epoch {
            year: 0,
            month: 0,
            day: 0,
            hour: 0,
            minute: 0,
            second: 0,
        },
    }
}

// 6I6,24X.
pub fn epoch_row(k: usize, second: u64) -> [u8; 80]
    requires { k < 32 }
    ensures { result ≡ row_at k six_whole (six (date_of second)) }
{
    let e = date(second);
    let mut row = blank_row(k);
    numerals::put_int(&mut row, 0, 6, e.year as i32);
    numerals::put_int(&mut row, 6, 6, e.month as i32);
    numerals::put_int(&mut row, 12, 6, e.day as i32);
    numerals::put_int(&mut row, 18, 6, e.hour as i32);
    numerals::put_int(&mut row, 24, 6, e.minute as i32);
    numerals::put_int(&mut row, 30, 6, e.second as i32);
    row
}

// ---- The rows of a block

// The node of an axis after i others.
fn node(a: Axis, i: u64) -> i32
    requires { (i < 2 ^ 31) × Wide (L.node a i) }
    ensures { result ≡ L.node a i }
{
    mapset::axes::node(a, i) as i32
}

// The opening of the block after d others of its map.
pub fn opening_row(grid: Grid, d: u64) -> [u8; 80]
    requires { Placed grid d }
    ensures { result ≡ row_of block (opening_of grid d) }
{
    let rows = mapset::axes::nodes(grid.latitudes);
    let latitude = node(grid.latitudes, d % rows);
    let height = node(grid.heights, d / rows);
    let mut row = three_row(
        labels::BLOCK,
        latitude,
        grid.longitudes.first,
        grid.longitudes.last,
    );
    numerals::put_tenths(&mut row, 20, 6, grid.longitudes.step);
    numerals::put_tenths(&mut row, 26, 6, height);
    row
}

// I5 for each value, then blanks.
pub fn value_row(values: &[i32]) -> [u8; 80]
    requires { length values.now ≤ 16 }
    ensures { result ≡ canon.value_row values.now }
{
    let mut row = [b' '; 80];
    for (i, z) in values.iter().enumerate() {
        numerals::put_int(&mut row, 5 * i, 5, *z);
    }
    row
}
