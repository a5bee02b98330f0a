// The three axes of a grid, judged as document 01 judges them, and the limits of the grid.
ghost use Rattle.std.specs.Prelude.{◌≡◌, ◌*◌, ◌%◌, ◌<◌, ◌≤◌, ◌^◌, pos, nat_abs, ◌+ℤ◌, ◌-ℤ◌, ◌*ℤ◌};
ghost use Rattle.std.proofs.Math.Decide.{ℕ_discrete};
ghost use Rattle.kit.specs.Truth.{truth};
ghost use Rattle.mapset.specs.Grid.{heights, latitudes, longitudes, layers, rows};
ghost use Rattle.mapset.specs.Grid as G;
ghost use Rattle.mapset.specs.Decisions.{end?, step?, together?, dimension?, limits?};
ghost use Rattle.mapset.specs.Judged.{line, ends?, toward?, judged};

use super::{Axis, Grid};

#[derive(Clone, Copy)]
pub enum Line {
    Heights,
    Latitudes,
    Longitudes,
}

// The first field outside its own range, or the rule over several fields that is broken.
#[derive(Clone, Copy)]
pub enum Misfit {
    First,
    Last,
    Step,
    Together,
}

fn distance(x: i32, y: i32) -> u64
    ensures { result ≡ nat_abs (y -ℤ x) }
{
    y.abs_diff(x) as u64
}

fn end_fits(which: Line, x: i32) -> bool
    ensures { result ≡ truth (end? (line which) x) }
{
    match which {
        Line::Heights => 0 <= x && x <= 99999,
        Line::Latitudes => -900 <= x && x <= 900,
        Line::Longitudes => -1800 <= x && x <= 3600,
    }
}

fn step_fits(which: Line, d: i32) -> bool
    ensures { result ≡ truth (step? (line which) d) }
{
    match which {
        Line::Heights => 0 <= d && d <= 99999,
        Line::Latitudes => d != 0 && d.unsigned_abs() <= 150,
        Line::Longitudes => 1 <= d && d <= 150,
    }
}

// 0 divides 0 alone.
fn ends_divide(a: Axis) -> bool
    ensures { result ≡ truth (ends? a) }
{
    let d = a.step.unsigned_abs();
    a.first.unsigned_abs().is_multiple_of(d) && a.last.unsigned_abs().is_multiple_of(d)
}

// From first to last in the step's direction.
fn toward(a: Axis) -> bool
    ensures { result ≡ truth (toward? a) }
{
    if 0 < a.step {
        a.first <= a.last
    } else {
        a.step < 0 && a.last <= a.first
    }
}

// DHGT 0 with equal ends, or the span a positive whole multiple of DHGT.
fn heights_agree(a: Axis) -> bool
    ensures { result ≡ truth (together? heights a) }
{
    if a.step == 0 {
        a.first == a.last
    } else {
        a.first < a.last
            && a.last
                .abs_diff(a.first)
                .is_multiple_of(a.step.unsigned_abs())
    }
}

fn latitudes_agree(a: Axis) -> bool
    ensures { result ≡ truth (together? latitudes a) }
{
    ends_divide(a) && toward(a)
}

fn longitudes_agree(a: Axis) -> bool
    ensures { result ≡ truth (together? longitudes a) }
{
    let span = a.last.abs_diff(a.first);
    a.first <= a.last && span <= 3600 && ends_divide(a)
}

fn fields_agree(which: Line, a: Axis) -> bool
    ensures { result ≡ truth (together? (line which) a) }
{
    match which {
        Line::Heights => heights_agree(a),
        Line::Latitudes => latitudes_agree(a),
        Line::Longitudes => longitudes_agree(a),
    }
}

pub fn judge(which: Line, a: Axis) -> Result<(), Misfit>
    ensures { result ≡ judged (line which) a }
{
    if !end_fits(which, a.first) {
        return Err(Misfit::First);
    }
    if !end_fits(which, a.last) {
        return Err(Misfit::Last);
    }
    if !step_fits(which, a.step) {
        return Err(Misfit::Step);
    }
    if !fields_agree(which, a) {
        return Err(Misfit::Together);
    }
    Ok(())
}

// How many nodes lie on an axis.
pub fn nodes(a: Axis) -> u64
    ensures { result ≡ G.nodes a }
{
    if a.step == 0 {
        return 1;
    }
    distance(a.first, a.last) / (a.step.unsigned_abs() as u64) + 1
}

// Dimension 2 exactly when DHGT is 0.
pub fn dimension_agrees(dimension: u32, a: Axis) -> bool
    ensures { result ≡ truth (dimension? dimension a) }
{
    if a.step == 0 {
        dimension == 2
    } else {
        dimension == 3
    }
}

// The node of an axis after i others.
pub fn node(a: Axis, i: u64) -> i64
    requires { i < 2 ^ 31 }
    ensures { result ≡ a.first +ℤ pos i *ℤ a.step }
{
    (a.first as i64) + (i as i64) * (a.step as i64)
}

// How many blocks a map has.
pub fn per_map(grid: Grid) -> u64
    requires { (layers grid ≤ 64) × (rows grid ≤ 361) }
    ensures { result ≡ layers grid * rows grid }
{
    nodes(grid.heights) * nodes(grid.latitudes)
}

// At most 361 rows, 721 columns, 64 layers, and 2,000,000 nodes in all maps.
pub fn limits_hold(maps: u32, grid: Grid) -> bool
    ensures { result ≡ truth (limits? maps grid) }
{
    let layers = nodes(grid.heights);
    let rows = nodes(grid.latitudes);
    let columns = nodes(grid.longitudes);
    rows <= 361
        && columns <= 721
        && layers <= 64
        && (maps as u64) * layers * rows * columns <= 2_000_000
}
