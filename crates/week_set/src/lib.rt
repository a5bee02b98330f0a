// The figures of the maps of a map set, kind by kind. Kinds are 0 TEC, 1 RMS, 2 height; maps count from 0.
#![tactic(auto)]

ghost use Rattle.std.specs.Prelude.{◌≡◌, ◌+◌, ◌*◌, ◌≤◌, length};
ghost use Rattle.std.proofs.lemmas.List.Edits.{sets};
ghost use Rattle.week_tally.specs.Figures.{figures};
ghost use Rattle.week_set.specs.Parts.{blocks_nodes, part_nodes, parts_nodes, parts_rows, BlocksHold, MapHolds, KindHolds};

use week_tally::Tally;

// The figures of a block of numbers for each exponent, of a map that is there.
fn blocks_tally(kind: u64, columns: usize, values: &[i32], exponents: &[i32]) -> Tally
    requires { BlocksHold columns values.now exponents.now }
    ensures { result ≡ figures (blocks_nodes columns values.now exponents.now) }
{
    let mut t = week_tally::empty(0);
    let mut at: usize = 0;
    for &exponent in exponents {
        let end = at + columns;
        t = week_tally::join(t, week_tally::tally_of(kind, &values[at..end], exponent));
        at = end;
    }
    t
}

// The figures of a map with a mark.
fn map_tally(
    kind: u64,
    map: usize,
    blocks: usize,
    columns: usize,
    mark: u8,
    values: &[i32],
    exponents: &[i32],
) -> Tally
    requires { MapHolds kind map blocks columns mark values.now exponents.now }
    ensures { result ≡ figures (part_nodes kind map blocks columns mark values.now exponents.now) }
{
    let wide = blocks * columns;
    if !ask_nodes::is_present(kind, mark) {
        return week_tally::empty(wide as u64);
    }
    let at = map * wide;
    let first = map * blocks;
    let last = first + blocks;
    blocks_tally(kind, columns, &values[at..], &exponents[first..last])
}

// The figures of all maps of a kind; a row for each map, and one for the kind, stand from `at` on.
pub fn kind_rows(
    kind: u64,
    blocks: usize,
    columns: usize,
    marks: &[u8],
    values: &[i32],
    exponents: &[i32],
    rows: &mut [i64],
    at: usize,
) -> Tally
    requires { KindHolds kind blocks columns marks.now values.now exponents.now × (at + 5 * (length marks.now + 1) ≤ length rows.old) }
    ensures { (result ≡ figures (parts_nodes kind blocks columns marks.now values.now exponents.now))
        × (rows.new ≡ sets rows.old at (parts_rows kind blocks columns marks.now values.now exponents.now)) }
{
    let mut t = week_tally::empty(0);
    for (i, &mark) in marks.iter().enumerate() {
        let m = map_tally(kind, i, blocks, columns, mark, values, exponents);
        week_tally::put_row(rows, at + 5 * i, m);
        t = week_tally::join(t, m);
    }
    week_tally::put_row(rows, at + 5 * marks.len(), t);
    t
}
