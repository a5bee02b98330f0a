// The second scan of a header for its biases: what each row gives is stored in three lent areas.
#![tactic(auto)]

ghost use Rattle.std.specs.Prelude.{◌≡◌, ◌+◌, ◌*◌, ◌<◌, ◌≤◌, length};
ghost use Rattle.std.proofs.lemmas.List.Edits.{sets};
ghost use Rattle.bias_fill.specs.Flat.{four, three, lent};
ghost use Rattle.bias_fill.specs.Filled as filled;

use bias_scan::{Cursor, Turn};
use biases::{Satellite, Station};

// Where the scan stands: where the next row comes, and how many of both are stored.
#[derive(Clone, Copy)]
pub struct Fill {
    pub cursor: Cursor,
    pub satellites: usize,
    pub stations: usize,
}

// ---- Stores

// System, number, bias, RMS.
fn put_satellite(out: &mut [i32], at: usize, s: Satellite)
    requires { (s.number < 2147483648) × (at + 4 ≤ length out.old) }
    ensures { out.new ≡ sets out.old at (four s) }
{
    out[at..at + 4].copy_from_slice(&[s.system as i32, s.number as i32, s.bias, s.rms]);
}

// System, bias, RMS.
fn put_station(out: &mut [i32], at: usize, s: Station)
    requires { at + 3 ≤ length out.old }
    ensures { out.new ≡ sets out.old at (three s) }
{
    out[at..at + 3].copy_from_slice(&[s.system as i32, s.bias, s.rms]);
}

// ---- Row by row

// How many satellites are stored after a satellite's row, which is stored if it is well-formed.
fn store_satellite(line: &[u8], k: usize, out: &mut [i32]) -> usize
    requires { filled.SatelliteFits line.now k out.old }
    ensures { filled.SatelliteStored line.now k out.old result out.new }
{
    match bias_line::satellite(line) {
        Err(_) => k,
        Ok(s) => {
            put_satellite(out, 4 * k, s);
            k + 1
        }
    }
}

fn store_station(line: &[u8], k: usize, out: &mut [i32], names: &mut [u8]) -> usize
    requires { filled.StationFits line.now k out.old names.old }
    ensures { filled.StationStored line.now k out.old names.old result out.new names.new }
{
    match bias_line::station(line) {
        Err(_) => k,
        Ok(s) => {
            put_station(out, 3 * k, s);
            names[20 * k..20 * k + 20].copy_from_slice(&s.name);
            k + 1
        }
    }
}

// The scan one row on; nothing where no row comes.
fn fill_row(
    text: &[u8],
    f: Fill,
    satellites: &mut [i32],
    stations: &mut [i32],
    names: &mut [u8],
) -> Option<Fill>
    requires { filled.BiasRoom text.now f (lent satellites.old stations.old names.old) }
    ensures { filled.Fills text.now f
        (lent satellites.old stations.old names.old)
        result
        (lent satellites.new stations.new names.new) }
{
    match bias_scan::next_row(text, f.cursor) {
        Err(_) => None,
        Ok(Turn::Last) => None,
        Ok(Turn::Skip(cursor)) => Some(Fill { cursor, ..f }),
        Ok(Turn::Satellite(r)) => {
            let k = store_satellite(&text[r.start..r.end], f.satellites, satellites);
            Some(Fill {
                cursor: bias_scan::behind(f.cursor.place, r),
                satellites: k,
                ..f
            })
        }
        Ok(Turn::Station(r)) => {
            let k = store_station(&text[r.start..r.end], f.stations, stations, names);
            Some(Fill {
                cursor: bias_scan::behind(f.cursor.place, r),
                stations: k,
                ..f
            })
        }
    }
}

// What the header's rows give, into areas that are long enough.
pub fn fill_areas(text: &[u8], satellites: &mut [i32], stations: &mut [i32], names: &mut [u8])
    requires { filled.Enough text.now (lent satellites.old stations.old names.old) }
    ensures { lent satellites.new stations.new names.new
        ≡ filled.filled text.now (lent satellites.old stations.old names.old) }
{
    let mut f = Fill {
        cursor: bias_scan::START,
        satellites: 0,
        stations: 0,
    };
    while let Some(next) = fill_row(text, f, satellites, stations, names) {
        f = next;
    }
}
