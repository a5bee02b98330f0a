// The headers of two map sets: whether the sets can be joined by them, and the header of both.
#![tactic(auto)]

ghost use Rattle.std.specs.Prelude.{◌≡◌, ◌+◌, ◌-◌, ◌≤◌};
ghost use Rattle.kit.specs.Truth.{truth};
ghost use Rattle.mapset.specs.Grid.{Limits};
ghost use Rattle.join.specs.Join as join;

use mapset::{Axis, Grid, Header, Times, axes};

fn same_axis(a: Axis, b: Axis) -> bool
    ensures { result ≡ truth (join.axis? a b) }
{
    (a.first == b.first) & ((a.last == b.last) & (a.step == b.step))
}

fn same_grid(a: Grid, b: Grid) -> bool
    ensures { result ≡ truth (join.grid? a b) }
{
    same_axis(a.heights, b.heights)
        & (same_axis(a.latitudes, b.latitudes) & same_axis(a.longitudes, b.longitudes))
}

// Equal grids, heights among them, dimension and base radius: else 40.
pub fn alike(a: Header, b: Header) -> bool
    ensures { result ≡ truth (join.alike? a b) }
{
    same_grid(a.grid, b.grid)
        & ((a.model.dimension == b.model.dimension) & (a.model.radius == b.model.radius))
}

// The one's last epoch is the other's first: else 41.
pub fn meet(a: Header, b: Header) -> bool
    ensures { result ≡ truth (join.meet? a b) }
{
    a.times.last == b.times.first
}

// The maps of both, the shared one once.
fn count(early: u32, late: u32) -> u32
    requires { (1 ≤ early) × (early ≤ 300) × (late ≤ 300) }
    ensures { result ≡ early - 1 + late }
{
    early - 1 + late
}

// n and typeof.n.L.R.C of both within 01's limits: else 42.
pub fn in_limits(early: Times, late: Header) -> bool
    requires { (1 ≤ early.maps) × (early.maps ≤ 300) × (late.times.maps ≤ 300) × Limits late.times.maps late.grid }
    ensures { result ≡ truth (join.in_limits? (early.maps - 1 + late.times.maps) late.grid) }
{
    let n = count(early.maps, late.times.maps);
    (n <= 300) & axes::limits_hold(n, late.grid)
}

// INTERVAL is kept when both are equal.
fn interval(i: u32, j: u32) -> u32
    ensures { result ≡ join.interval i j }
{
    if i == j {
        return j;
    }
    0
}

// The later header, with the earlier first epoch and the maps of both.
pub fn joined_header(early: Times, late: Header) -> Header
    requires { (1 ≤ early.maps) × (early.maps ≤ 300) × (late.times.maps ≤ 300) }
    ensures { result ≡ join.header_from early late }
{
    let version = late.version;
    let model = late.model;
    let grid = late.grid;
    let stations = late.stations;
    let satellites = late.satellites;
    let systems = late.systems;
    let descriptions = late.descriptions;
    let times = Times {
        first: early.first,
        last: late.times.last,
        interval: interval(early.interval, late.times.interval),
        maps: count(early.maps, late.times.maps),
    };
    Header {
        version,
        times,
        model,
        grid,
        stations,
        satellites,
        systems,
        descriptions,
    }
}
