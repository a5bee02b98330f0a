// What each lent area needs, and the first that is too short.
#![tactic(auto)]

ghost use Rattle.std.specs.Prelude.{◌≡◌, cond, [], ◌∷◌, ◌*◌, ◌≤◌};
ghost use Rattle.mapset.specs.Grid.{Limits, columns};
ghost use Rattle.layout.specs.Layout.{per_map};
ghost use Rattle.read_needs.specs.Needs.{first_short, pairs, fit, needs_of};

use mapset::{Header, Size, axes};

// Elements of the six areas: needed, or lent.
#[derive(Clone, Copy)]
pub struct Elements {
    pub tec: usize,
    pub rms: usize,
    pub height: usize,
    pub exponents: usize,
    pub epochs: usize,
    pub marks: usize,
}

// Whether some RMS and some height map stands.
#[derive(Clone, Copy)]
pub struct Others {
    pub rms: bool,
    pub height: bool,
}

// The first area that is too short, counted from 1, and the elements it needs.
#[derive(Clone, Copy)]
pub struct Short {
    pub area: u64,
    pub need: u64,
}

// n, L.R and C.
pub fn size_of(header: Header) -> Size
    requires { Limits header.times.maps header.grid }
    ensures { (result.maps ≡ header.times.maps) × (result.blocks ≡ per_map header) × (result.columns ≡ columns header.grid) }
{
    let layers = axes::nodes(header.grid.heights);
    let rows = axes::nodes(header.grid.latitudes);
    let columns = axes::nodes(header.grid.longitudes);
    Size {
        maps: header.times.maps as usize,
        blocks: (layers * rows) as usize,
        columns: columns as usize,
    }
}

// A kind with no map needs no value area.
fn if_stands(stands: bool, values: usize) -> usize
    ensures { result ≡ cond stands values 0 }
{
    if stands { values } else { 0 }
}

pub fn needed(size: Size, some: Others) -> Elements
    requires { (size.maps * size.blocks * size.columns ≤ 2000000) × (size.maps * size.blocks ≤ 2000000) }
    ensures { result ≡ needs_of size.maps size.blocks size.columns some }
{
    let blocks = size.maps * size.blocks;
    let values = blocks * size.columns;
    Elements {
        tec: values,
        rms: if_stands(some.rms, values),
        height: if_stands(some.height, values),
        exponents: 3 * blocks,
        epochs: size.maps,
        marks: size.maps,
    }
}

// Whether one area holds what it needs.
pub fn fits(area: u64, need: usize, lent: usize) -> Result<(), Short>
    ensures { fit result ≡ first_short area ((need, lent) ∷ []) }
{
    if lent < need {
        return Err(Short {
            area,
            need: need as u64,
        });
    }
    Ok(())
}

// In 01's order: TEC, RMS, height, exponents, epochs, marks.
pub fn room_for(need: Elements, lent: Elements) -> Result<(), Short>
    ensures { fit result ≡ first_short 1 (pairs need lent) }
{
    fits(1, need.tec, lent.tec)?;
    fits(2, need.rms, lent.rms)?;
    fits(3, need.height, lent.height)?;
    fits(4, need.exponents, lent.exponents)?;
    fits(5, need.epochs, lent.epochs)?;
    fits(6, need.marks, lent.marks)
}
