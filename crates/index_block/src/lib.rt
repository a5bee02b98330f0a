// A block found by its position in a text: its lines, and the number in one of its columns.
#![tactic(auto)]

ghost use Rattle.std.specs.Prelude.{◌≡◌, ◌+◌, ◌<◌, ◌≤◌, ◌^◌, length, drop};
ghost use Rattle.reading.specs.Maps.{on_row};
ghost use Rattle.read_values.specs.Quick.{last_columns};
ghost use Rattle.kit.specs.Answer.{same};
ghost use Rattle.kit.specs.Truth.{truth};
ghost use Rattle.mapset.specs.Grid.{columns, Limits};
ghost use Rattle.layout.specs.Text.{pad};
ghost use Rattle.layout.specs.Labels.{name, block};
ghost use Rattle.layout.specs.Layout.{per_map};
ghost use Rattle.index.specs.Found.{agrees?};
ghost use Rattle.index_block.specs.Hits.{values_from, block_from, spot_of, Stepped, Hits, OpensAs};

use maps_agree::grid;
use maps_records::Opening;
use mapset::Header;
use read_lines::Line;

// One line of a block's values: blank, up to where; or a row, where it ends and where the next line starts.
#[derive(Clone, Copy)]
pub enum Step {
    Skip(usize),
    Row(usize, usize),
}

// Where a block's last line ends, and where the five columns of one of its values stand.
#[derive(Clone, Copy)]
pub struct Hit {
    pub end: usize,
    pub spot: usize,
}

// How many of the values that are left stand on the next row.
fn on_row(left: usize) -> usize
    ensures { result ≡ on_row left }
{
    left.min(16)
}

fn step_at(text: &[u8], ends: &[u8; 80], at: usize, left: usize) -> Option<Step>
    requires { (at ≤ length text.now) × ((0 < left) × (ends.now ≡ last_columns)) }
    ensures { Stepped text.now at left result }
{
    match read_lines::line_in(&text[at..]) {
        Line::Over => None,
        Line::Bad(_) => None,
        Line::Skip(next) => Some(Step::Skip(at + next)),
        Line::Row(width, next) => {
            match read_values::row_at(text, ends, at, width, on_row(left)) {
                Err(_) => None,
                Ok(()) => Some(Step::Row(at + width, at + next)),
            }
        }
    }
}

// Where the value in a column stands, if it is on the row that starts at `at` after `done` values.
fn spot_of(at: usize, done: usize, column: usize, spot: usize) -> usize
    requires { at + 80 < 2 ^ 64 }
    ensures { result ≡ spot_of at done column spot }
{
    if column < done {
        return spot;
    }
    let k = column - done;
    if 15 < k {
        return spot;
    }
    at + k * 5
}

// The next `count` values, from the line that starts at `from`: every one is looked at.
fn values_from(text: &[u8], from: usize, count: usize, column: usize) -> Option<Hit>
    requires { (from ≤ length text.now) × (column < count) }
    ensures { Hits text.now from column (values_from text.now from count) result }
{
    let ends = read_values::ENDS;
    let mut at = from;
    let mut left = count;
    let mut spot = from;
    while 0 < left {
        match step_at(text, &ends, at, left)? {
            Step::Skip(to) => at = to,
            Step::Row(end, to) => {
                spot = spot_of(at, count - left, column, spot);
                if left <= 16 {
                    return Some(Hit { end, spot });
                }
                at = to;
                left -= 16;
            }
        }
    }
    None
}

// Whether columns 61 to 80 hold the label of a block's opening.
fn is_opening(line: &[u8]) -> bool
    requires { length line.now ≤ 80 }
    ensures { result ≡ truth (same (drop 60 (pad line.now)) (name block)) }
{
    labels::label_of(line) == labels::BLOCK
}

// Whether five numbers open the block after d others of its map.
fn agrees(header: Header, d: u64, o: Opening) -> bool
    requires { Limits header.times.maps header.grid × (d < per_map header) }
    ensures { result ≡ truth (agrees? header d (o.latitude, (o.first, (o.last, (o.step, (o.height, tt)))))) }
{
    let left = mapset::axes::per_map(header.grid) - d;
    if !grid::row_agrees(header.grid, left, o.latitude) {
        return false;
    }
    if grid::differs(header.grid.longitudes, o.first, o.last, o.step).is_some() {
        return false;
    }
    grid::height_agrees(header.grid, header.model.dimension, left, o.height)
}

fn opens(line: &[u8], header: Header, d: u64) -> bool
    requires { (length line.now ≤ 80) × (Limits header.times.maps header.grid × (d < per_map header)) }
    ensures { OpensAs header d line.now result }
{
    if !is_opening(line) {
        return false;
    }
    match maps_records::opening_in(line) {
        Err(_) => false,
        Ok(o) => agrees(header, d, o),
    }
}

// The block after d others of its map at a position of a text, which may be any number.
pub fn block_from(text: &[u8], header: Header, at: usize, d: u64, column: usize) -> Option<Hit>
    requires { Limits header.times.maps header.grid × ((d < per_map header) × (column < columns header.grid)) }
    ensures { Hits text.now at column (block_from header d text.now at) result }
{
    if text.len() <= at {
        return None;
    }
    match read_lines::line_in(&text[at..]) {
        Line::Over => None,
        Line::Bad(_) => None,
        Line::Skip(_) => None,
        Line::Row(width, next) => {
            let e = at + width;
            if !opens(&text[at..e], header, d) {
                return None;
            }
            let count = mapset::axes::nodes(header.grid.longitudes) as usize;
            values_from(text, at + next, count, column)
        }
    }
}
