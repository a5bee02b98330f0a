// The maps of each kind, and those of all kinds, put into a lent output.
#![tactic(auto)]

ghost use Rattle.mapset.specs.Areas.{six};
ghost use Rattle.write_line.specs.Put.{Put};
ghost use Rattle.write_maps.specs.KindRows.{all_rows};
ghost use Rattle.write_maps.specs.Ready.{ReadyPart, PutPart, ReadyMaps};

use mapset::{Header, Kind, axes};
use write_map::Reached;

// The maps of a kind, one for each TEC map, in the areas as they are lent.
fn put_kind(
    out: &mut [u8],
    at: usize,
    header: Header,
    kind: Kind,
    in_force: i32,
    epochs: &[u64],
    marks: &[u8],
    exponents: &[i32],
    values: &[i32],
) -> Reached
    requires { ReadyPart header at kind in_force epochs.now marks.now exponents.now values.now }
    ensures { PutPart header out.old at kind in_force epochs.now marks.now
        exponents.now values.now out.new result }
{
    let maps = header.times.maps as usize;
    let blocks = axes::per_map(header.grid) as usize;
    let width = blocks * (axes::nodes(header.grid.longitudes) as usize);
    let mut next = at;
    let mut force = in_force;
    let mut i: usize = 0;
    let mut begin = mapset::blocks_before(kind, maps * blocks);
    let mut from: usize = 0;
    while i < maps {
        let last = begin + blocks;
        let end = from + width;
        let reached = write_map::put_slot(
            out,
            next,
            header,
            kind,
            (i + 1) as u64,
            epochs[i],
            marks[i],
            force,
            &exponents[begin..last],
            values,
            from,
            end,
        );
        next = reached.at;
        force = reached.exponent;
        begin = last;
        from = end;
        i += 1;
    }
    Reached {
        at: next,
        exponent: force,
    }
}

// All maps, then END OF FILE.
pub fn put_maps(
    out: &mut [u8],
    at: usize,
    header: Header,
    tec: &[i32],
    rms: &[i32],
    height: &[i32],
    exponents: &[i32],
    epochs: &[u64],
    marks: &[u8],
) -> usize
    requires { ReadyMaps header at (six tec.now rms.now height.now exponents.now epochs.now marks.now) }
    ensures { Put out.old at (all_rows header
        (six tec.now rms.now height.now exponents.now epochs.now marks.now))
        out.new result }
{
    let a = put_kind(
        out,
        at,
        header,
        Kind::Tec,
        -1,
        epochs,
        marks,
        exponents,
        tec,
    );
    let b = put_kind(
        out,
        a.at,
        header,
        Kind::Rms,
        a.exponent,
        epochs,
        marks,
        exponents,
        rms,
    );
    let c = put_kind(
        out,
        b.at,
        header,
        Kind::Height,
        b.exponent,
        epochs,
        marks,
        exponents,
        height,
    );
    write_line::put_file_end(out, c.at)
}
