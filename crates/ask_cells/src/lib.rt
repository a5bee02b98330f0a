// Where a place lies among the rows and columns of a grid.
#![tactic(auto)]

ghost use Rattle.std.specs.Prelude.{◌≡◌, ◌*◌, ◌≤◌, ◌<◌, ◌^◌, ℤ, pos, nat_abs, ◌+ℤ◌, ◌-ℤ◌, ◌*ℤ◌};
ghost use Rattle.ask_cells.specs.Place.{Turned};
ghost use Rattle.kit.specs.Integer.{int?};
ghost use Rattle.kit.specs.Truth.{truth};
ghost use Rattle.ask_cells.specs.Found.{IsWay, strip?, goes_round?, after, Located, RowFound, ColumnFound, CellFound};

use mapset::{Axis, Grid, axes};

// Between a row and the next, `down` of `tall` hundredths of a degree past the first; between a column and the one to
// its right, `across` of `wide` units past the first.
#[derive(Clone, Copy)]
pub struct Cell {
    pub row: u64,
    pub down: u64,
    pub tall: u64,
    pub column: u64,
    pub right: u64,
    pub across: u64,
    pub wide: u64,
}

// A node of an axis, the one after it, and how far past the first.
#[derive(Clone, Copy)]
struct Spot {
    node: u64,
    next: u64,
    past: u64,
}

// p less o tenths of a degree, each of so many units.
fn offset(p: i64, o: i32, unit: u64) -> i64
    requires { (nat_abs p < 2 ^ 60) × (unit ≤ 120) }
    ensures { result ≡ p -ℤ (pos unit *ℤ o) }
{
    p - (unit as i64) * (o as i64)
}

// How far x lies in the direction of d, if not behind.
fn toward(x: i64, d: i64) -> Option<u64>
    ensures { IsWay x d result }
{
    if x == 0 {
        return Some(0);
    }
    if (x < 0) == (d < 0) {
        Some(x.unsigned_abs())
    } else {
        None
    }
}

// The node after node i of n; where the nodes go round, after the last comes the first.
fn next_of(i: u64, n: u64, around: bool) -> u64
    requires { i < n }
    ensures { result ≡ after around n i }
{
    if !around {
        return i + 1;
    }
    if i + 1 == n {
        return 0;
    }
    i + 1
}

// x along n nodes that stand step apart.
fn locate(x: u64, step: u64, n: u64, around: bool) -> Option<Spot>
    requires { 0 < step }
    ensures { Located around x step n result }
{
    let node = x / step;
    let past = x % step;
    if node < n {
        let next = next_of(node, n, around);
        if past == 0 || next < n {
            return Some(Spot { node, next, past });
        }
    }
    None
}

// Whether x + d is a full turn past o, in tenths of a degree.
fn is_turn(x: i32, d: i32, o: i32) -> bool
    ensures { result ≡ truth (int? (x +ℤ d) (o +ℤ pos 3600)) }
{
    (x as i64) + (d as i64) == (o as i64) + 3600
}

// Whether the column after the last is the first.
fn is_strip(a: Axis) -> bool
    ensures { result ≡ truth (strip? a) }
{
    is_turn(a.last, a.step, a.first)
}

// Whether the columns go round the whole Earth.
pub fn goes_round(a: Axis) -> bool
    ensures { result ≡ truth (goes_round? a) }
{
    is_strip(a) | is_turn(a.last, 0, a.first)
}

// x brought by whole turns into 0 ≤ r < turn.
fn turned(x: i64, turn: u64) -> u64
    requires { (0 < turn) × (turn < 2 ^ 63) }
    ensures { Turned turn x result }
{
    x.rem_euclid(turn as i64) as u64
}

// How far two nodes of an axis of degrees are apart.
fn step_of(a: Axis, unit: u64) -> u64
    requires { unit ≤ 120 }
    ensures { result ≡ unit * nat_abs a.step }
{
    unit * (a.step.unsigned_abs() as u64)
}

fn row_of(a: Axis, lat: i32) -> Option<Spot>
    requires { 0 < nat_abs a.step }
    ensures { RowFound a lat result }
{
    let x = toward(offset(lat as i64, a.first, 10), a.step as i64)?;
    locate(x, step_of(a, 10), axes::nodes(a), false)
}

fn column_of(a: Axis, lon: i64, unit: u64) -> Option<Spot>
    requires { (0 < nat_abs a.step) × (nat_abs lon < 2 ^ 60) × (0 < unit) × (unit ≤ 120) }
    ensures { ColumnFound unit a lon result }
{
    locate(
        turned(offset(lon, a.first, unit), unit * 3600),
        step_of(a, unit),
        axes::nodes(a),
        is_strip(a),
    )
}

// The cell of a latitude in hundredths of a degree and a longitude in units, of which a tenth of a degree has `unit`; none outside the grid.
pub fn cell_of(g: Grid, lat: i32, lon: i64, unit: u64) -> Option<Cell>
    requires { (0 < nat_abs g.latitudes.step) × (0 < nat_abs g.longitudes.step) × (nat_abs lon < 2 ^ 60) × (0 < unit) × (unit ≤ 120) }
    ensures { CellFound unit g lat lon result }
{
    let row = row_of(g.latitudes, lat)?;
    let column = column_of(g.longitudes, lon, unit)?;
    Some(Cell {
        row: row.node,
        down: row.past,
        tall: step_of(g.latitudes, 10),
        column: column.node,
        right: column.next,
        across: column.past,
        wide: step_of(g.longitudes, unit),
    })
}
