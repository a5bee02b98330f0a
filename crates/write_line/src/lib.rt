// The rows of canonical text, put into a lent output as lines.
#![tactic(auto)]

ghost use Rattle.std.specs.Prelude.{◌≡◌, [], ◌∷◌, ◌<◌, ◌≤◌, ◌^◌, length, take, pos};
ghost use Rattle.layout.specs.Labels.{epoch, file_end, start, end};
ghost use Rattle.canonical.specs.Canon.{row_of, date_of, six, trimmed, value_row, value_rows, exponent_rows};
ghost use Rattle.write_row.specs.Rows.{row_at, whole, six_whole, Placed};
ghost use Rattle.write_line.specs.Starts.{start_place};
ghost use Rattle.write_line.specs.Put.{LineRoom, Put};
ghost use Rattle.write_line.specs.Block.{one_block};

use mapset::{Grid, Kind};

// ---- A line

// How many bytes of a row stand up to its last non-blank one.
fn shown(row: &[u8]) -> usize
    ensures { (result ≤ length row.now) × (take result row.now ≡ trimmed row.now) }
{
    for n in (0..row.len()).rev() {
        if row[n] != b' ' {
            return n + 1;
        }
    }
    0
}

// The row up to its last non-blank byte, then LF, written only where it fits; where the next line starts.
pub fn put_line(out: &mut [u8], at: usize, row: &[u8]) -> usize
    requires { LineRoom at (row.now ∷ []) }
    ensures { Put out.old at (row.now ∷ []) out.new result }
{
    let n = shown(row);
    let e = at + n;
    if out.len() <= e {
        return e + 1;
    }
    out[at..e].copy_from_slice(&row[..n]);
    out[e] = b'\n';
    e + 1
}

// ---- A block

// At most 16 values, five bytes each: where nothing fits, their digits are not looked for.
fn put_row(out: &mut [u8], at: usize, values: &[i32]) -> usize
    requires { (length values.now ≤ 16) × LineRoom at (value_row values.now ∷ []) }
    ensures { Put out.old at (value_row values.now ∷ []) out.new result }
{
    if out.len() <= at {
        return at + 5 * values.len() + 1;
    }
    let row = write_row::value_row(values);
    put_line(out, at, &row)
}

// 16 values to a line, the last line holding the rest.
fn put_values(out: &mut [u8], at: usize, values: &[i32]) -> usize
    requires { LineRoom at (value_rows (length values.now) values.now) }
    ensures { Put out.old at (value_rows (length values.now) values.now) out.new result }
{
    let mut next = at;
    let mut rest = values;
    while 16 < rest.len() {
        let (line, behind) = rest.split_at(16);
        next = put_row(out, next, line);
        rest = behind;
    }
    put_row(out, next, rest)
}

// ---- Records, each with where the next line starts

// I6,54X.
pub fn put_number(out: &mut [u8], at: usize, k: usize, z: i32) -> usize
    requires { (k < 32) × LineRoom at (row_at k whole (z, tt) ∷ []) }
    ensures { Put out.old at (row_at k whole (z, tt) ∷ []) out.new result }
{
    let row = write_row::number_row(k, z);
    put_line(out, at, &row)
}

// 6I6,24X.
pub fn put_dated(out: &mut [u8], at: usize, k: usize, second: u64) -> usize
    requires { (k < 32) × LineRoom at (row_at k six_whole (six (date_of second)) ∷ []) }
    ensures { Put out.old at (row_at k six_whole (six (date_of second)) ∷ []) out.new result }
{
    let row = write_row::epoch_row(k, second);
    put_line(out, at, &row)
}

// EXPONENT, where it differs from the one in force.
fn put_exponent(out: &mut [u8], at: usize, in_force: i32, exponent: i32) -> usize
    requires { LineRoom at (exponent_rows in_force exponent) }
    ensures { Put out.old at (exponent_rows in_force exponent) out.new result }
{
    if in_force == exponent {
        return at;
    }
    put_number(out, at, labels::EXPONENT, exponent)
}

// The block after d others of its map.
pub fn put_block(
    out: &mut [u8],
    at: usize,
    grid: Grid,
    d: u64,
    in_force: i32,
    exponent: i32,
    values: &[i32],
) -> usize
    requires { Placed grid d × LineRoom at (one_block grid d in_force exponent values.now) }
    ensures { Put out.old at (one_block grid d in_force exponent values.now) out.new result }
{
    let opening = write_row::opening_row(grid, d);
    let first = put_exponent(out, at, in_force, exponent);
    let second = put_line(out, first, &opening);
    put_values(out, second, values)
}

// The place of START of a kind's map in LABELS; that of END comes right behind it.
fn start_label(kind: Kind) -> usize
    ensures { result ≡ start_place kind }
{
    match kind {
        Kind::Tec => labels::TEC_START,
        Kind::Rms => labels::RMS_START,
        Kind::Height => labels::HEIGHT_START,
    }
}

pub fn put_start(out: &mut [u8], at: usize, kind: Kind, number: u64) -> usize
    requires { (number < 2 ^ 31) × LineRoom at (row_of (start kind) (pos number, tt) ∷ []) }
    ensures { Put out.old at (row_of (start kind) (pos number, tt) ∷ []) out.new result }
{
    let k = start_label(kind);
    put_number(out, at, k, number as i32)
}

pub fn put_end(out: &mut [u8], at: usize, kind: Kind, number: u64) -> usize
    requires { (number < 2 ^ 31) × LineRoom at (row_of (end kind) (pos number, tt) ∷ []) }
    ensures { Put out.old at (row_of (end kind) (pos number, tt) ∷ []) out.new result }
{
    let k = start_label(kind) + 1;
    put_number(out, at, k, number as i32)
}

// EPOCH OF CURRENT MAP.
pub fn put_epoch(out: &mut [u8], at: usize, second: u64) -> usize
    requires { LineRoom at (row_of epoch (six (date_of second)) ∷ []) }
    ensures { Put out.old at (row_of epoch (six (date_of second)) ∷ []) out.new result }
{
    put_dated(out, at, labels::EPOCH, second)
}

pub fn put_file_end(out: &mut [u8], at: usize) -> usize
    requires { LineRoom at (row_of file_end tt ∷ []) }
    ensures { Put out.old at (row_of file_end tt ∷ []) out.new result }
{
    let row = write_row::blank_row(labels::FILE_END);
    put_line(out, at, &row)
}
