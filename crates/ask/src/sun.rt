// Where each map is asked: at the place, or at the place turned with the Sun.
ghost use Rattle.std.specs.Prelude.{◌≡◌, ◌<◌, ◌^◌, nat_abs};
ghost use Rattle.kit.specs.Truth.{Says};
ghost use Rattle.ask_cells.specs.Found.{CellFound};
ghost use Rattle.ask.specs.Sun.{in_time, unit_of, moved, lon_at, Serves};
ghost use Rattle.ask.specs.Turned.{CanAsk, PairFound};

use ask_cells::Cell;
use ask_spans::Shares;
use mapset::{Axis, Grid};

// The method that takes the same maps with the same shares, where none is turned.
pub fn maps_by(method: u64) -> u64
    ensures { result ≡ in_time method }
{
    match method {
        1 | 2 => 1,
        _ => 0,
    }
}

// The units of a tenth of a degree of longitude.
fn unit_of(method: u64) -> u64
    ensures { result ≡ unit_of method }
{
    if method < 2 { 10 } else { 120 }
}

// The longitude moved by the time since an epoch, one degree in 240 s, in 1/1200 of a degree.
fn moved_to(lon: i32, second: u64, epoch: u64) -> i64
    requires { (second < 2 ^ 40) × (epoch < 2 ^ 40) }
    ensures { result ≡ moved lon second epoch }
{
    12 * (lon as i64) + 5 * ((second as i64) - (epoch as i64))
}

fn lon_of(method: u64, lon: i32, second: u64, epoch: u64) -> i64
    requires { (second < 2 ^ 40) × (epoch < 2 ^ 40) }
    ensures { result ≡ lon_at method lon second epoch }
{
    if method < 2 {
        return lon as i64;
    }
    moved_to(lon, second, epoch)
}

// The cell in a map with that epoch.
fn cell_at(g: Grid, method: u64, lat: i32, lon: i32, second: u64, epoch: u64) -> Option<Cell>
    requires { (0 < nat_abs g.latitudes.step) × (0 < nat_abs g.longitudes.step) × (second < 2 ^ 40) × (epoch < 2 ^ 40) }
    ensures { CellFound (unit_of method) g lat (lon_at method lon second epoch) result }
{
    ask_cells::cell_of(g, lat, lon_of(method, lon, second, epoch), unit_of(method))
}

// The cells of the two maps; where the second has no share, or no map is turned, its cell is the first one's.
pub fn cells_at(
    g: Grid,
    method: u64,
    lat: i32,
    lon: i32,
    second: u64,
    shares: Shares,
    epochs: &[u64],
) -> Option<(Cell, Cell)>
    requires { CanAsk g second epochs.now shares }
    ensures { PairFound method g lat lon second epochs.now shares result }
{
    let map = shares.map as usize;
    let first = cell_at(g, method, lat, lon, second, epochs[map])?;
    if shares.late == 0 || method < 2 {
        return Some((first, first));
    }
    let other = cell_at(g, method, lat, lon, second, epochs[map + 1])?;
    Some((first, other))
}

// Whether the maps can be turned, where the method asks for it: the grid goes round, DLON is at most 5.0, and no two
// neighbouring epochs are more than 7,200 s apart.
pub fn serves(a: Axis, method: u64, epochs: &[u64]) -> bool
    ensures { Says result (Serves method a epochs.now) }
{
    if method < 2 {
        return true;
    }
    if !ask_cells::goes_round(a) {
        return false;
    }
    if 50 < a.step.unsigned_abs() {
        return false;
    }
    ask_spans::is_close(epochs, 7200)
}
