// One map of canonical text, put into a lent output.
#![tactic(auto)]

ghost use Rattle.std.specs.Prelude.{[], ◌<◌, ◌^◌};
ghost use Rattle.canonical.specs.Canon.{block_rows};
ghost use Rattle.write_line.specs.Put.{LineRoom, Put};
ghost use Rattle.write_map.specs.OneMap.{map_blocks, epoch_rows, one_map};
ghost use Rattle.write_map.specs.Ready.{Ready, Full, ReadySlot, PutSlot};

use mapset::{Header, Kind, axes};

// Where the next line starts, and the exponent in force there.
#[derive(Clone, Copy)]
pub struct Reached {
    pub at: usize,
    pub exponent: i32,
}

// The blocks of a map.
fn put_blocks(
    out: &mut [u8],
    at: usize,
    header: Header,
    in_force: i32,
    es: &[i32],
    vs: &[i32],
) -> usize
    requires { Ready header at (block_rows header 0 in_force (map_blocks header es.now vs.now) []) × Full header es.now vs.now }
    ensures { Put out.old at (block_rows header 0 in_force (map_blocks header es.now vs.now) []) out.new result }
{
    let columns = axes::nodes(header.grid.longitudes) as usize;
    let mut next = at;
    let mut held = in_force;
    let mut d: usize = 0;
    let mut from: usize = 0;
    while d < es.len() {
        let exponent = es[d];
        let end = from + columns;
        next = write_line::put_block(
            out,
            next,
            header.grid,
            d as u64,
            held,
            exponent,
            &vs[from..end],
        );
        held = exponent;
        from = end;
        d += 1;
    }
    next
}

// Only a TEC map carries its epoch.
fn put_epoch(out: &mut [u8], at: usize, kind: Kind, epoch: u64) -> usize
    requires { LineRoom at (epoch_rows kind epoch) }
    ensures { Put out.old at (epoch_rows kind epoch) out.new result }
{
    match kind {
        Kind::Tec => write_line::put_epoch(out, at, epoch),
        Kind::Rms => at,
        Kind::Height => at,
    }
}

fn put_map(
    out: &mut [u8],
    at: usize,
    header: Header,
    kind: Kind,
    number: u64,
    epoch: u64,
    in_force: i32,
    es: &[i32],
    vs: &[i32],
) -> usize
    requires { Ready header at (one_map kind header number epoch in_force (map_blocks header es.now vs.now)) × Full header es.now vs.now × (number < 2 ^ 31) }
    ensures { Put out.old at (one_map kind header number epoch in_force (map_blocks header es.now vs.now)) out.new result }
{
    let first = write_line::put_start(out, at, kind, number);
    let second = put_epoch(out, first, kind, epoch);
    let third = put_blocks(out, second, header, in_force, es, vs);
    write_line::put_end(out, third, kind, number)
}

// A map, where its mark says that it is there: its values are those from `from` to `end`.
pub fn put_slot(
    out: &mut [u8],
    at: usize,
    header: Header,
    kind: Kind,
    number: u64,
    epoch: u64,
    mark: u8,
    in_force: i32,
    es: &[i32],
    vs: &[i32],
    from: usize,
    end: usize,
) -> Reached
    requires { ReadySlot header at kind number epoch mark in_force es.now vs.now from end }
    ensures { PutSlot header out.old at kind number epoch mark in_force es.now vs.now from out.new result }
{
    if !mapset::present(kind, mark) {
        return Reached {
            at: at,
            exponent: in_force,
        };
    }
    let next = put_map(
        out,
        at,
        header,
        kind,
        number,
        epoch,
        in_force,
        es,
        &vs[from..end],
    );
    Reached {
        at: next,
        exponent: es[es.len() - 1],
    }
}
