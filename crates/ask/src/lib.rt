// The value at a place and second.
#![tactic(auto)]

ghost use Rattle.std.specs.Prelude.{◌≡◌};
ghost use Rattle.std.proofs.Math.Decide.{dec_lt};
ghost use Rattle.kit.specs.Answer.{×_dec};
ghost use Rattle.kit.specs.Range.{within?};
ghost use Rattle.kit.specs.Truth.{truth};
ghost use Rattle.mapset.specs.Described.{full};
ghost use Rattle.mapset.specs.Areas.{six};
ghost use Rattle.ask.specs.Ask.{layout, question, Answers, number, told};
ghost use Rattle.ask.specs.Looked.{Gated, Askable, ValueAt, asked_values};

use ask_nodes::Shape;
pub use ask_nodes::{MilliKm, MilliTecu, Value};
use mapset::{Header, Texts, Times, axes};

mod mean;
pub mod sun;

// Why there is no value: 23, 31, 24, 20, 21 and 22.
#[derive(Clone, Copy, PartialEq, Eq)]
pub enum Why {
    Unknown,
    Unsound,
    Unserved,
    OutOfTime,
    OutOfPlace,
    NoValue,
}

// 01's number of it.
pub fn number_of(why: Why) -> u64
    ensures { result ≡ number why }
{
    match why {
        Why::Unknown => 23,
        Why::Unsound => 31,
        Why::Unserved => 24,
        Why::OutOfTime => 20,
        Why::OutOfPlace => 21,
        Why::NoValue => 22,
    }
}

fn is_known(kind: u64, method: u64) -> bool
    ensures { result ≡ truth (×_dec (dec_lt kind 3) (dec_lt method 4)) }
{
    (kind < 3) & (method < 4)
}

fn in_time(times: Times, second: u64) -> bool
    ensures { result ≡ truth (within? times.first times.last second) }
{
    (times.first <= second) & (second <= times.last)
}

fn has_layer(s: Shape) -> bool
    ensures { result ≡ truth (dec_lt s.layer s.layers) }
{
    s.layer < s.layers
}

pub fn shape_of(header: Header, kind: u64, layer: u64) -> Shape
    ensures { result ≡ layout header kind layer }
{
    Shape {
        kind: kind,
        layer: layer,
        maps: header.times.maps as u64,
        layers: axes::nodes(header.grid.heights),
        rows: axes::nodes(header.grid.latitudes),
        columns: axes::nodes(header.grid.longitudes),
    }
}

// The values of the kind that is asked for.
pub fn values_of<'a>(s: Shape, tec: &'a [i32], rms: &'a [i32], height: &'a [i32]) -> &'a [i32]
    ensures { result.now ≡ asked_values s tec.now rms.now height.now }
{
    match s.kind {
        0 => tec,
        1 => rms,
        _ => height,
    }
}

// What is looked at once, whatever the layer, place and second: 23, 31 and 24.
pub fn look(
    header: Header,
    texts: Texts,
    descriptions: &[u8],
    tec: &[i32],
    rms: &[i32],
    height: &[i32],
    exponents: &[i32],
    epochs: &[u64],
    marks: &[u8],
    kind: u64,
    method: u64,
) -> Result<(), Why>
    ensures { Gated (question header (full texts descriptions.now)
        (six tec.now rms.now height.now exponents.now epochs.now marks.now)
        kind method) result }
{
    if !is_known(kind, method) {
        return Err(Why::Unknown);
    }
    if !sound::sound(
        header,
        texts,
        descriptions,
        tec,
        rms,
        height,
        exponents,
        epochs,
        marks,
    ) {
        return Err(Why::Unsound);
    }
    let maps = header.times.maps as usize;
    if !sun::serves(header.grid.longitudes, method, &epochs[..maps]) {
        return Err(Why::Unserved);
    }
    Ok(())
}

// One question where that is passed: 20, 21, 22, or the value. The gap is the one that the second's maps are guessed by.
pub fn value_at(
    header: Header,
    s: Shape,
    gap: u64,
    tec: &[i32],
    rms: &[i32],
    height: &[i32],
    exponents: &[i32],
    epochs: &[u64],
    marks: &[u8],
    method: u64,
    lat: i32,
    lon: i32,
    second: u64,
) -> Result<Value, Why>
    requires { Askable header s (six tec.now rms.now height.now exponents.now epochs.now marks.now) method lat lon second }
    ensures { ValueAt header s
        (six tec.now rms.now height.now exponents.now epochs.now marks.now)
        method lat lon second (told result) }
{
    if !in_time(header.times, second) {
        return Err(Why::OutOfTime);
    }
    if !has_layer(s) {
        return Err(Why::OutOfPlace);
    }
    let epochs = &epochs[..header.times.maps as usize];
    let shares = ask_spans::shares_of(epochs, second, sun::maps_by(method), gap);
    let Some((first, other)) = sun::cells_at(header.grid, method, lat, lon, second, shares, epochs)
    else {
        return Err(Why::OutOfPlace);
    };
    let values = values_of(s, tec, rms, height);
    mean::value_of(shares, first, other, s, values, exponents, marks)
}

pub fn ask(
    header: Header,
    texts: Texts,
    descriptions: &[u8],
    tec: &[i32],
    rms: &[i32],
    height: &[i32],
    exponents: &[i32],
    epochs: &[u64],
    marks: &[u8],
    kind: u64,
    method: u64,
    layer: u64,
    lat: i32,
    lon: i32,
    second: u64,
) -> Result<Value, Why>
    ensures { Answers (question header (full texts descriptions.now)
        (six tec.now rms.now height.now exponents.now epochs.now marks.now)
        kind method layer lat lon second) (told result) }
{
    look(
        header,
        texts,
        descriptions,
        tec,
        rms,
        height,
        exponents,
        epochs,
        marks,
        kind,
        method,
    )?;
    value_at(
        header,
        shape_of(header, kind, layer),
        ask_spans::mean_gap(header.times.first, header.times.last, header.times.maps),
        tec,
        rms,
        height,
        exponents,
        epochs,
        marks,
        method,
        lat,
        lon,
        second,
    )
}
