// The first needed node without a value, and why it has none.
ghost use Rattle.std.specs.Prelude.{◌≡◌, ◌≤◌};
ghost use Rattle.ask_nodes.specs.Nodes.{Reached};
ghost use Rattle.ask_sums.specs.Mean.{spread};
ghost use Rattle.ask_sums.specs.Sums.{Reaches, Summable};
ghost use Rattle.ask_why.specs.Parts as parts;
ghost use Rattle.ask_why.specs.Parts.{plain_cause, lack_with, lacks};

use super::{Cause, Lacking};
use ask_cells::Cell;
use ask_nodes::{Shape, Weighed};
use ask_spans::Shares;

// Why a number under an exponent is no value: the exponent first.
fn cause_of(v: i32, k: i32) -> Cause
    ensures { result ≡ plain_cause v k }
{
    if !kit::between(-3, 0, k) {
        return Cause::Exponent;
    }
    if !kit::between(-9999, 99999, v) {
        return Cause::Number;
    }
    Cause::Is9999
}

// Why a node has no value: an absent map before all.
fn cause_at(n: Weighed, s: Shape, values: &[i32], exponents: &[i32], marks: &[u8]) -> Cause
    requires { Reached values.now exponents.now marks.now s n }
    ensures { result ≡ parts.cause s values.now exponents.now marks.now n }
{
    let map = n.map as usize;
    if !ask_nodes::is_present(s.kind, marks[map]) {
        return Cause::MapAbsent;
    }
    let block = ask_nodes::block_of(n, s);
    let number = (block * s.columns + n.column) as usize;
    let exponent = (ask_nodes::first_exponent(s) + block) as usize;
    cause_of(values[number], exponents[exponent])
}

// A node as it is told: maps count from 1.
fn named(n: Weighed, layer: u64, cause: Cause) -> Lacking
    requires { n.map ≤ 1001 }
    ensures { result ≡ lack_with n layer cause }
{
    Lacking {
        map: n.map + 1,
        layer: layer,
        row: n.row,
        column: n.column,
        cause: cause,
    }
}

// A node that is needed and has no value.
fn look(n: Weighed, s: Shape, values: &[i32], exponents: &[i32], marks: &[u8]) -> Option<Lacking>
    requires { (n.map ≤ 1001) × Reaches values.now exponents.now marks.now s n }
    ensures { result ≡ lacks s values.now exponents.now marks.now n }
{
    if n.weight == 0 {
        return None;
    }
    match ask_nodes::node_at(n, s, values, exponents, marks) {
        Some(_) => None,
        None => Some(named(n, s.layer, cause_at(n, s, values, exponents, marks))),
    }
}

// The first of all.
pub fn find(
    shares: Shares,
    first: Cell,
    second: Cell,
    s: Shape,
    values: &[i32],
    exponents: &[i32],
    marks: &[u8],
) -> Option<Lacking>
    requires { Summable values.now exponents.now marks.now s shares first second }
    ensures { result ≡ parts.first s values.now exponents.now marks.now (spread shares first second) }
{
    for k in 0..8 {
        let n = ask_sums::nth_node(shares, first, second, k);
        if let Some(l) = look(n, s, values, exponents, marks) {
            return Some(l);
        }
    }
    None
}
