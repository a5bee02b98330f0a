// A text's index, and one node or one block by index and text; and as other languages have them.
ghost use Rattle.mapset.specs.Described.{full};
ghost use Rattle.std.specs.Prelude.{◌≡◌};
ghost use Rattle.index.specs.Index.{entries, index, node};
ghost use Rattle.index_text.specs.Making.{made, comes};
ghost use Rattle.index_node.specs.Told.{Finds, HandsBack};
ghost use Rattle.c_index.specs.Crossed.{NodeCrosses, BlockCrosses};
ghost use Rattle.c_index.specs.IndexExported.{crossed, index_crossed};

use c_given::{END, LINES};
use index_node::{Found, Why};
use mapset::{Header, Texts};
use read_outcome::ReadOut;

// A text's index into three lent areas, with its header record and texts; or the reason why not.
pub fn make_index(
    text: &[u8],
    positions: &mut [u64],
    exponents: &mut [i32],
    marks: &mut [u8],
) -> ReadOut
    ensures outcome { comes result (entries positions.new exponents.new marks.new)
        ≡ made text.now (entries positions.old exponents.old marks.old) }
{
    index_text::make_index(text, positions, exponents, marks)
}

// The number at a node as written, 9999 included, with its exponent, and where its block's lines stand; or 23, 31, 21, 22 or 50, in this order.
pub fn indexed_node(
    text: &[u8],
    header: Header,
    texts: Texts,
    descriptions: &[u8],
    positions: &[u64],
    exponents: &[i32],
    marks: &[u8],
    kind: u64,
    map: u64,
    layer: u64,
    row: u64,
    column: u64,
) -> Result<Found, Why>
    ensures outcome { Finds (index header (full texts descriptions.now)
        (entries positions.now exponents.now marks.now))
        text.now (node kind map layer row column) result }
{
    index_node::find_node(
        text,
        header,
        texts,
        descriptions,
        positions,
        exponents,
        marks,
        kind,
        map,
        layer,
        row,
        column,
    )
}

// The lines of a node's block, as a part of the text; empty exactly where the node is refused.
pub fn indexed_block<'a>(
    text: &'a [u8],
    header: Header,
    texts: Texts,
    descriptions: &[u8],
    positions: &[u64],
    exponents: &[i32],
    marks: &[u8],
    kind: u64,
    map: u64,
    layer: u64,
    row: u64,
    column: u64,
) -> &'a [u8]
    ensures outcome { HandsBack (index header (full texts descriptions.now)
        (entries positions.now exponents.now marks.now))
        text.now (node kind map layer row column) result.now }
{
    index_node::find_block(
        text,
        header,
        texts,
        descriptions,
        positions,
        exponents,
        marks,
        kind,
        map,
        layer,
        row,
        column,
    )
}

// A text's index: 0, with the header record and its texts; or 01's number, with its place.
#[unsafe(no_mangle)]
pub extern "C" fn ionex_index(
    text: &[u8],
    positions: &mut [u64],
    exponents: &mut [i32],
    marks: &mut [u8],
    header: &mut [i64],
    texts: &mut [u8],
    place: &mut [u64],
) -> u64
    ensures outcome { crossed result (entries positions.new exponents.new marks.new) header.new texts.new place.new
        ≡ index_crossed text.now (entries positions.old exponents.old marks.old) header.old texts.old place.old }
{
    let short = c_answers::too_short(header.len(), texts.len(), place.len(), 2);
    if 0 < short {
        return short;
    }
    let r = make_index(text, positions, exponents, marks);
    c_answers::put_reading(r, header, texts, place)
}

// One node: 0, with its number and exponent; or 02's number.
#[unsafe(no_mangle)]
pub extern "C" fn ionex_indexed_node(
    text: &[u8],
    header: &[i64],
    texts: &[u8],
    positions: &[u64],
    exponents: &[i32],
    marks: &[u8],
    kind: u64,
    map: u64,
    layer: u64,
    row: u64,
    column: u64,
    value: &mut [i32],
) -> u64
    ensures outcome { NodeCrosses header.now texts.now
        (entries positions.now exponents.now marks.now)
        text.now (node kind map layer row column) value.old result value.new }
{
    let short = c_answers::too_short(header.len(), texts.len(), value.len(), 2);
    if 0 < short {
        return short;
    }
    let h = c_given::header_in(header);
    let x = c_given::texts_in(texts);
    let reply = indexed_node(
        text,
        h,
        x,
        &texts[LINES..END],
        positions,
        exponents,
        marks,
        kind,
        map,
        layer,
        row,
        column,
    );
    c_index::put_node(reply, value)
}

// The lines of one block: 0, with their start in the text and how many bytes they have; or 02's number.
#[unsafe(no_mangle)]
pub extern "C" fn ionex_indexed_block(
    text: &[u8],
    header: &[i64],
    texts: &[u8],
    positions: &[u64],
    exponents: &[i32],
    marks: &[u8],
    kind: u64,
    map: u64,
    layer: u64,
    row: u64,
    column: u64,
    bounds: &mut [u64],
) -> u64
    ensures outcome { BlockCrosses header.now texts.now
        (entries positions.now exponents.now marks.now)
        text.now (node kind map layer row column) bounds.old result bounds.new }
{
    let short = c_answers::too_short(header.len(), texts.len(), bounds.len(), 2);
    if 0 < short {
        return short;
    }
    let h = c_given::header_in(header);
    let x = c_given::texts_in(texts);
    let reply = indexed_node(
        text,
        h,
        x,
        &texts[LINES..END],
        positions,
        exponents,
        marks,
        kind,
        map,
        layer,
        row,
        column,
    );
    c_index::put_block(reply, bounds)
}
