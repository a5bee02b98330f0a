// What has to hold of a header record and its texts.
#![tactic(auto)]

ghost use Rattle.std.specs.Prelude.{◌≡◌};
ghost use Rattle.kit.specs.Answer.{all_dec};
ghost use Rattle.kit.specs.Range.{within?};
ghost use Rattle.kit.specs.Truth.{truth};
ghost use Rattle.mapset.specs.Described.{full};
ghost use Rattle.mapset.specs.Judged.{line};
ghost use Rattle.mapset.specs.Sound.{version?, lines?, texts?, times?, model?, grid?, count?, system?, systems?, header?};
ghost use Rattle.mapset.specs.SoundDecided.{axis?};

use mapset::axes::Line;
use mapset::{Axis, Grid, Header, Model, System, Systems, Texts, Times, Version, axes};

fn within(low: u32, high: u32, x: u32) -> bool
    ensures { result ≡ truth (within? low high x) }
{
    (low <= x) & (x <= high)
}

// Whether each byte is from low to high. No branch per byte, so that vector code is made of it.
pub fn all_within(low: u8, high: u8, bytes: &[u8]) -> bool
    ensures { result ≡ truth (all_dec (within? low high) bytes.now) }
{
    let mut fits = true;
    for b in bytes {
        fits = fits & ((low <= *b) & (*b <= high));
    }
    fits
}

fn version_fits(v: Version) -> bool
    ensures { result ≡ truth (version? v) }
{
    within(10, 11, v.tenths) & ((v.kind == 73) & mapset::takes_code(v.tenths, v.code))
}

// At most 20 lines of 60 bytes, and blanks behind the last.
fn descriptions_fit(n: u32, lines: &[u8]) -> bool
    ensures { result ≡ truth (lines? n lines.now) }
{
    if 20 < n || lines.len() != 1200 {
        return false;
    }
    let end = 60 * (n as usize);
    all_within(32, 126, &lines[..end]) & all_within(32, 32, &lines[end..])
}

fn texts_fit(t: Texts, n: u32, lines: &[u8]) -> bool
    ensures { result ≡ truth (texts? n (full t lines.now)) }
{
    all_within(32, 126, &t.program)
        & (all_within(32, 126, &t.agency)
            & (all_within(32, 126, &t.date)
                & (all_within(32, 126, &t.mapping)
                    & (all_within(32, 126, &t.observables) & descriptions_fit(n, lines)))))
}

fn times_fit(t: Times) -> bool
    ensures { result ≡ truth (times? t) }
{
    (t.first < 9467107200)
        & ((t.last < 9467107200) & (within(0, 21600, t.interval) & within(1, 300, t.maps)))
}

fn model_fits(m: Model) -> bool
    ensures { result ≡ truth (model? m) }
{
    within(0, 900, m.cutoff) & (within(10000, 999_999, m.radius) & within(2, 3, m.dimension))
}

fn axis_fits(which: Line, a: Axis) -> bool
    ensures { result ≡ truth (axis? (line which) a) }
{
    axes::judge(which, a).is_ok()
}

fn grid_fits(g: Grid) -> bool
    ensures { result ≡ truth (grid? g) }
{
    axis_fits(Line::Heights, g.heights)
        & (axis_fits(Line::Latitudes, g.latitudes) & axis_fits(Line::Longitudes, g.longitudes))
}

// A count of a starred record, which holds 0 where the record does not stand.
fn count_fits(stands: bool, count: u32) -> bool
    ensures { result ≡ truth (count? stands count) }
{
    if stands {
        within(0, 999_999, count)
    } else {
        count == 0
    }
}

fn system_fits(s: System) -> bool
    ensures { result ≡ truth (system? s) }
{
    count_fits(s.stands, s.stations) & count_fits(s.stands, s.satellites)
}

fn systems_fit(s: Systems) -> bool
    ensures { result ≡ truth (systems? s) }
{
    system_fits(s.g)
        & (system_fits(s.r)
            & (system_fits(s.e)
                & (system_fits(s.c) & (system_fits(s.j) & (system_fits(s.i) & system_fits(s.s))))))
}

pub fn header_fits(header: Header, texts: Texts, descriptions: &[u8]) -> bool
    ensures { result ≡ truth (header? header (full texts descriptions.now)) }
{
    version_fits(header.version)
        & (texts_fit(texts, header.descriptions, descriptions)
            & (times_fit(header.times)
                & (model_fits(header.model)
                    & (grid_fits(header.grid)
                        & (count_fits(header.stations.stands, header.stations.count)
                            & (count_fits(header.satellites.stands, header.satellites.count)
                                & (systems_fit(header.systems)
                                    & (axes::dimension_agrees(
                                        header.model.dimension,
                                        header.grid.heights,
                                    ) & axes::limits_hold(header.times.maps, header.grid)))))))))
}
