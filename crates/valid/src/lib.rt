// Whether header, texts and areas are a map set that some text has: else 31.
#![tactic(auto)]

ghost use Rattle.std.specs.Prelude.{◌≡◌, []};
ghost use Rattle.kit.specs.Answer.{⊎_dec, all_dec};
ghost use Rattle.kit.specs.Integer.{int?, between?};
ghost use Rattle.kit.specs.Truth.{truth};
ghost use Rattle.mapset.specs.Described.{full};
ghost use Rattle.mapset.specs.Areas.{present?, six};
ghost use Rattle.areas.specs.ValidDecided.{blank?};
ghost use Rattle.valid.specs.Groups.{kind?, kind_values, kind_exponents, Holds, rest?, Long};
ghost use Rattle.valid.specs.Validity.{validity};

use mapset::{Header, Kind, Texts, axes};

// Whether each value is from low to high. No branch per value, so that vector code is made of it.
fn all_between(low: i32, high: i32, values: &[i32]) -> bool
    ensures { result ≡ truth (all_dec (between? low high) values.now) }
{
    let mut fits = true;
    for z in values {
        fits = fits & ((low <= *z) & (*z <= high));
    }
    fits
}

// Whether each value is v.
fn all_same(v: i32, values: &[i32]) -> bool
    ensures { result ≡ truth (all_dec (λ x. int? x v) values.now) }
{
    all_between(v, v, values)
}

// Whether a map is there or holds v everywhere.
fn there_or(kind: Kind, mark: u8, v: i32, values: &[i32]) -> bool
    ensures { result ≡ truth (⊎_dec (present? kind mark) (all_dec (λ x. int? x v) values.now)) }
{
    mapset::present(kind, mark) || all_same(v, values)
}

// Of maps of width elements each, those that their marks say are absent hold v everywhere.
fn blank(kind: Kind, width: usize, v: i32, marks: &[u8], area: &[i32]) -> bool
    ensures { result ≡ truth (blank? kind width v marks.now area.now) }
{
    let mut rest = area;
    for mark in marks {
        let (map, behind) = rest.split_at(width.min(rest.len()));
        if !there_or(kind, *mark, v, map) {
            return false;
        }
        rest = behind;
    }
    true
}

// The values of a kind within -9999 to 99999, and its absent maps 9999 under exponent -1. The marks are those of the maps.
fn kind_fits(
    kind: Kind,
    blocks: usize,
    columns: usize,
    marks: &[u8],
    values: &[i32],
    exponents: &[i32],
) -> bool
    requires { Holds kind blocks columns marks.now values.now exponents.now }
    ensures { result ≡ truth (kind? kind blocks columns marks.now
        (kind_values kind blocks columns marks.now values.now)
        (kind_exponents kind blocks marks.now exponents.now)) }
{
    let all = marks.len() * blocks;
    let needed = mapset::need(kind, marks, all * columns);
    let first = mapset::blocks_before(kind, all);
    let end = first + all;
    all_between(-9999, 99999, &values[..needed])
        & (blank(kind, blocks * columns, 9999, marks, &values[..needed])
            & blank(kind, blocks, -1, marks, &exponents[first..end]))
}

// The exponents from -3 to 0, and what is asked of each kind.
fn rest_fits(
    header: Header,
    tec: &[i32],
    rms: &[i32],
    height: &[i32],
    exponents: &[i32],
    marks: &[u8],
) -> bool
    requires { Long header (six tec.now rms.now height.now exponents.now [] marks.now) }
    ensures { result ≡ truth (rest? header (six tec.now rms.now height.now exponents.now [] marks.now)) }
{
    let n = header.times.maps as usize;
    let blocks = axes::per_map(header.grid) as usize;
    let columns = axes::nodes(header.grid.longitudes) as usize;
    let needed = 3 * (n * blocks);
    all_between(-3, 0, &exponents[..needed])
        & (kind_fits(Kind::Tec, blocks, columns, &marks[..n], tec, exponents)
            & (kind_fits(Kind::Rms, blocks, columns, &marks[..n], rms, exponents)
                & kind_fits(
                    Kind::Height,
                    blocks,
                    columns,
                    &marks[..n],
                    height,
                    exponents,
                )))
}

pub fn valid(
    header: Header,
    texts: Texts,
    descriptions: &[u8],
    tec: &[i32],
    rms: &[i32],
    height: &[i32],
    exponents: &[i32],
    epochs: &[u64],
    marks: &[u8],
) -> bool
    ensures { result ≡ truth (validity header (full texts descriptions.now)
        (six tec.now rms.now height.now exponents.now epochs.now marks.now)) }
{
    sound::sound(
        header,
        texts,
        descriptions,
        tec,
        rms,
        height,
        exponents,
        epochs,
        marks,
    ) && rest_fits(header, tec, rms, height, exponents, marks)
}
