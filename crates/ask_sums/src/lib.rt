// The nodes that a question looks at with their weights, and the weighted sum.
#![tactic(auto)]

ghost use Rattle.std.specs.Prelude.{◌≡◌, ◌*◌, ◌≤◌, ◌<◌, pos, nat_abs, get_or};
ghost use Rattle.ask_nodes.specs.Value.{corner, kind_of, value};
ghost use Rattle.ask_sums.specs.Mean.{corners, spread, terms};
ghost use Rattle.ask_sums.specs.Sums.{Reaches, Shared, Summable, Fits, SumRoom, InRange, four, beside, in_sum, with_value, add_node, add_value, sum_all};

use ask_cells::Cell;
use ask_nodes::{Shape, Value, Weighed};
use ask_spans::Shares;

// A weighted sum in thousandths of its unit, and the sum of the weights.
#[derive(Clone, Copy)]
pub struct Total {
    pub sum: i64,
    pub weights: u64,
}

// What the nodes so far come to. A unit is never added to the other.
#[derive(Clone, Copy)]
pub enum Sum {
    Tecu(Total),
    Km(Total),
}

// The sum of no nodes, in the kind's unit.
fn empty(kind: u64) -> Sum
    ensures { Some result ≡ in_sum (kind_of kind) (pos 0) 0 }
{
    let nothing = Total { sum: 0, weights: 0 };
    if kind < 2 {
        Sum::Tecu(nothing)
    } else {
        Sum::Km(nothing)
    }
}

// A value more.
fn with(t: Total, weight: u64, v: i32) -> Total
    requires { Fits t.sum t.weights weight × (nat_abs v ≤ 99_999_000) }
    ensures { result ≡ with_value t weight v }
{
    Total {
        sum: ask_round::mul_add(t.sum, weight, v),
        weights: t.weights + weight,
    }
}

// The sum with a needed node; none where that has no value in the same unit.
fn add(sum: Sum, weight: u64, value: Option<Value>) -> Option<Sum>
    requires { SumRoom (Some sum) weight × InRange value }
    ensures { result ≡ add_node (Some sum) weight value }
{
    match (sum, value?) {
        (Sum::Tecu(t), Value::Tecu(v)) => Some(Sum::Tecu(with(t, weight, v.0))),
        (Sum::Tecu(_), Value::Km(_)) => None,
        (Sum::Km(_), Value::Tecu(_)) => None,
        (Sum::Km(t), Value::Km(v)) => Some(Sum::Km(with(t, weight, v.0))),
    }
}

// The sum with a node, which is looked at where its weight is not zero.
fn term(
    sum: Sum,
    n: Weighed,
    s: Shape,
    values: &[i32],
    exponents: &[i32],
    marks: &[u8],
) -> Option<Sum>
    requires { SumRoom (Some sum) n.weight × Reaches values.now exponents.now marks.now s n }
    ensures { result ≡ add_value (kind_of s.kind) (Some sum) n.weight (value s values.now exponents.now marks.now n) }
{
    if n.weight == 0 {
        return Some(sum);
    }
    add(
        sum,
        n.weight,
        ask_nodes::node_at(n, s, values, exponents, marks),
    )
}

// A node of a cell, and its weight.
fn weigh(share: u64, a: u64, b: u64, map: u64, row: u64, column: u64) -> Weighed
    requires { (a ≤ 1500) × (b ≤ 6000) × (share * (a * b) ≤ 64_800_000_000) }
    ensures { result ≡ corner (share * (a * b)) map row column }
{
    Weighed {
        weight: share * (a * b),
        map: map,
        row: row,
        column: column,
    }
}

// The nodes of a cell: its row's left and right one, then the next row's.
fn cell_node(share: u64, map: u64, c: Cell, k: u64) -> Weighed
    requires { Shared share c × (k < 4) }
    ensures { result ≡ get_or (four share map c) k (corner 0 0 0 0) }
{
    match k {
        0 => weigh(
            share,
            c.tall - c.down,
            c.wide - c.across,
            map,
            c.row,
            c.column,
        ),
        1 => weigh(share, c.tall - c.down, c.across, map, c.row, c.right),
        2 => weigh(share, c.down, c.wide - c.across, map, c.row + 1, c.column),
        _ => weigh(share, c.down, c.across, map, c.row + 1, c.right),
    }
}

// The place of the row's other node.
fn other(k: u64) -> u64
    ensures { result ≡ beside k }
{
    match k {
        0 => 1,
        1 => 0,
        2 => 3,
        _ => 2,
    }
}

// The nodes of a cell, in each row by their column's number.
fn corner_of(share: u64, map: u64, c: Cell, k: u64) -> Weighed
    requires { Shared share c × (k < 4) }
    ensures { result ≡ get_or (corners share map c) k (corner 0 0 0 0) }
{
    if c.right < c.column {
        return cell_node(share, map, c, other(k));
    }
    cell_node(share, map, c, k)
}

// The nodes that a question looks at, in the order map, row, column.
pub fn nth_node(shares: Shares, first: Cell, second: Cell, k: u64) -> Weighed
    requires { Shared shares.early first × Shared shares.late second × (shares.map ≤ 1000) × (k < 8) }
    ensures { result ≡ get_or (spread shares first second) k (corner 0 0 0 0) }
{
    if k < 4 {
        return corner_of(shares.early, shares.map, first, k);
    }
    corner_of(shares.late, shares.map + 1, second, k - 4)
}

// The sum over all of them; none where a needed one has no value.
pub fn sum_of(
    shares: Shares,
    first: Cell,
    second: Cell,
    s: Shape,
    values: &[i32],
    exponents: &[i32],
    marks: &[u8],
) -> Option<Sum>
    requires { Summable values.now exponents.now marks.now s shares first second }
    ensures { result ≡ sum_all (kind_of s.kind) (terms s values.now exponents.now marks.now (spread shares first second)) }
{
    let mut sum = empty(s.kind);
    for k in 0..8 {
        let n = nth_node(shares, first, second, k);
        sum = term(sum, n, s, values, exponents, marks)?;
    }
    Some(sum)
}
