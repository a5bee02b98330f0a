// The grid's nodes and blocks, and the numbers of records.
ghost use Rattle.std.specs.Prelude.{◌≡◌, ◌-◌, ◌*◌, ◌/◌, ◌%◌, ◌<◌, ◌≤◌, ◌^◌, pos};
ghost use Rattle.std.proofs.Math.Decide.{ℕ_discrete};
ghost use Rattle.kit.specs.Answer.{⊎_dec};
ghost use Rattle.kit.specs.Integer.{int?, up};
ghost use Rattle.kit.specs.Truth.{truth};
ghost use Rattle.mapset.specs.Grid.{layers, rows};
ghost use Rattle.layout.specs.Layout as L;
ghost use Rattle.maps_agree.specs.Agreement.{differing};

use mapset::{Axis, Grid};

// x, or 0 where it is negative.
pub fn natural(x: i32) -> u64
    ensures { result ≡ up x }
{
    x.max(0) as u64
}

// Whether z is the natural number n.
pub fn counts(z: i32, n: u64) -> bool
    ensures { result ≡ truth (int? z (pos n)) }
{
    0 <= z && z as u64 == n
}

fn is_node(a: Axis, i: u64, x: i32) -> bool
    requires { i < 2 ^ 31 }
    ensures { result ≡ truth (int? x (L.node a i)) }
{
    (x as i64) == mapset::axes::node(a, i)
}

// How many blocks stand before the one that opens when so many are left.
fn passed(grid: Grid, left: u64) -> u64
    requires { (layers grid ≤ 64) × (rows grid ≤ 361) }
    ensures { result ≡ layers grid * rows grid - left }
{
    mapset::axes::per_map(grid).saturating_sub(left)
}

// Whether x is the latitude of the block that opens when so many are left.
pub fn row_agrees(grid: Grid, left: u64, x: i32) -> bool
    requires { (layers grid ≤ 64) × (rows grid ≤ 361) }
    ensures { result ≡ truth (int? x (L.node grid.latitudes ((layers grid * rows grid - left) % rows grid))) }
{
    let i = passed(grid, left) % mapset::axes::nodes(grid.latitudes);
    is_node(grid.latitudes, i, x)
}

// The first column of the first of three numbers that is not the axis'.
pub fn differs(a: Axis, first: i32, last: i32, step: i32) -> Option<u64>
    ensures { result ≡ differing a first last step }
{
    if first != a.first {
        return Some(9);
    }
    if last != a.last {
        return Some(15);
    }
    if step != a.step {
        return Some(21);
    }
    None
}

// In dimension 2 H may be any number.
pub fn height_agrees(grid: Grid, dimension: u32, left: u64, x: i32) -> bool
    requires { (layers grid ≤ 64) × (rows grid ≤ 361) }
    ensures { result ≡ truth (⊎_dec (ℕ_discrete dimension 2) (int? x (L.node grid.heights ((layers grid * rows grid - left) / rows grid)))) }
{
    if dimension == 2 {
        return true;
    }
    let i = passed(grid, left) / mapset::axes::nodes(grid.latitudes);
    is_node(grid.heights, i, x)
}
