// A node by an index and its text: its number as written with its exponent, and the lines of its block.
#![tactic(auto)]

ghost use Rattle.std.specs.Prelude.{◌≡◌, ◌+◌, ◌*◌, ◌<◌, ◌≤◌};
ghost use Rattle.kit.specs.Truth.{Says};
ghost use Rattle.mapset.specs.Described.{full};
ghost use Rattle.mapset.specs.Areas.{blocks, first_of};
ghost use Rattle.mapset.specs.Grid.{rows, columns, Limits};
ghost use Rattle.layout.specs.Layout.{per_map};
ghost use Rattle.areas.specs.Places.{before};
ghost use Rattle.ask_nodes.specs.Value.{kind_of};
ghost use Rattle.index.specs.Index.{entries, index, node, Fit};
ghost use Rattle.index_node.specs.Told.{InGrid, Numbers, Finds, HandsBack};

use mapset::{Header, Texts, axes};

// Why there is no answer: 23, 31, 21, 22 and 50.
#[derive(Clone, Copy)]
pub enum Why {
    Unknown,
    Unfit,
    Outside,
    Absent,
    Astray,
}

// The number as written, its exponent, and where the block's lines start and end in the text.
#[derive(Clone, Copy)]
pub struct Found {
    pub number: i32,
    pub exponent: i32,
    pub start: usize,
    pub end: usize,
}

// Whether an index has a valid header, lengths and marks.
fn fits(
    header: Header,
    texts: Texts,
    descriptions: &[u8],
    positions: &[u64],
    exponents: &[i32],
    marks: &[u8],
) -> bool
    ensures { Says result (Fit (index header (full texts descriptions.now) (entries positions.now exponents.now marks.now))) }
{
    if !sound_header::header_fits(header, texts, descriptions) {
        return false;
    }
    let maps = header.times.maps as usize;
    let all = 3 * (maps * (axes::per_map(header.grid) as usize));
    if positions.len() < all {
        return false;
    }
    if exponents.len() < all {
        return false;
    }
    if marks.len() < maps {
        return false;
    }
    sound_header::all_within(0, 3, &marks[..maps])
}

// Whether the map is one of 1 to n, and the node in the grid.
fn in_grid(header: Header, map: u64, layer: u64, row: u64, column: u64) -> bool
    ensures { Says result (InGrid header map layer row column) }
{
    if map < 1 {
        return false;
    }
    if (header.times.maps as u64) < map {
        return false;
    }
    if axes::nodes(header.grid.heights) <= layer {
        return false;
    }
    if axes::nodes(header.grid.latitudes) <= row {
        return false;
    }
    column < axes::nodes(header.grid.longitudes)
}

// How many blocks of its map stand before a row of a layer.
fn done_before(header: Header, layer: u64, row: u64) -> u64
    requires { (layer ≤ 64) × ((row ≤ 361) × (rows header.grid ≤ 361)) }
    ensures { result ≡ layer * rows header.grid + row }
{
    layer * axes::nodes(header.grid.latitudes) + row
}

// The place of a block's entry: the three kinds stand behind each other.
fn entry_of(header: Header, kind: u64, map: u64, d: u64) -> usize
    requires { Limits header.times.maps header.grid × ((1 ≤ map) × (before (per_map header) map d < blocks header)) }
    ensures { result ≡ first_of (kind_of kind) (blocks header) + before (per_map header) map d }
{
    let size = axes::per_map(header.grid);
    let all = (header.times.maps as u64) * size;
    let place = (map - 1) * size + d;
    mapset::blocks_before(ask_nodes::kind_of(kind), all as usize) + (place as usize)
}

// What an entry's position and exponent answer.
fn number_at(
    text: &[u8],
    header: Header,
    at: usize,
    e: i32,
    d: u64,
    column: usize,
) -> Result<Found, Why>
    requires { Limits header.times.maps header.grid × ((d < per_map header) × (column < columns header.grid)) }
    ensures { Numbers header d text.now at e column result }
{
    if !kit::between(-3, 0, e) {
        return Err(Why::Astray);
    }
    match index_block::block_from(text, header, at, d, column) {
        None => Err(Why::Astray),
        Some(hit) => Ok(Found {
            number: fields::int_value(&text[hit.spot..hit.spot + 5]),
            exponent: e,
            start: at,
            end: hit.end,
        }),
    }
}

// The number at a node, with where its block's lines stand; or 23, 31, 21, 22 or 50, in this order. Nothing of the index is trusted.
pub fn find_node(
    text: &[u8],
    header: Header,
    texts: Texts,
    descriptions: &[u8],
    positions: &[u64],
    exponents: &[i32],
    marks: &[u8],
    kind: u64,
    map: u64,
    layer: u64,
    row: u64,
    column: u64,
) -> Result<Found, Why>
    ensures { Finds (index header (full texts descriptions.now)
        (entries positions.now exponents.now marks.now))
        text.now (node kind map layer row column) result }
{
    if 3 <= kind {
        return Err(Why::Unknown);
    }
    if !fits(header, texts, descriptions, positions, exponents, marks) {
        return Err(Why::Unfit);
    }
    if !in_grid(header, map, layer, row, column) {
        return Err(Why::Outside);
    }
    let m = (map - 1) as usize;
    if !ask_nodes::is_present(kind, marks[m]) {
        return Err(Why::Absent);
    }
    let d = done_before(header, layer, row);
    let i = entry_of(header, kind, map, d);
    let at = positions[i] as usize;
    number_at(text, header, at, exponents[i], d, column as usize)
}

// The lines of a node's block as a part of the text, its opening line to its last value line without the line end; empty exactly where the node is refused.
// The column counts for 21 only.
pub fn find_block<'a>(
    text: &'a [u8],
    header: Header,
    texts: Texts,
    descriptions: &[u8],
    positions: &[u64],
    exponents: &[i32],
    marks: &[u8],
    kind: u64,
    map: u64,
    layer: u64,
    row: u64,
    column: u64,
) -> &'a [u8]
    ensures { HandsBack (index header (full texts descriptions.now)
        (entries positions.now exponents.now marks.now))
        text.now (node kind map layer row column) result.now }
{
    match find_node(
        text,
        header,
        texts,
        descriptions,
        positions,
        exponents,
        marks,
        kind,
        map,
        layer,
        row,
        column,
    ) {
        Ok(found) => &text[found.start..found.end],
        Err(_) => &text[..0],
    }
}
