// The needed nodes of a question, one behind the other.
ghost use Rattle.std.specs.Prelude.{◌≡◌, ◌≤◌, ◌<◌};
ghost use Rattle.ask_sums.specs.Mean.{spread};
ghost use Rattle.ask_sums.specs.Sums.{Reaches, Summable};
ghost use Rattle.ask_why.specs.Explain as explain;
ghost use Rattle.ask_why.specs.Parts as parts;
ghost use Rattle.ask_why.specs.Parts.{node_with, none_listed, collect, with_nodes};

use super::{Explanation, Needed, Unanswered};
use ask_cells::Cell;
use ask_nodes::{Shape, Value, Weighed};
use ask_spans::Shares;

// So many nodes, and fillers behind them: at most eight, in fixed memory, since there is no heap.
#[derive(Clone, Copy)]
pub struct Listing {
    pub count: u64,
    pub nodes: [Needed; 8],
}

pub fn filler() -> Needed
    ensures { result ≡ explain.filler }
{
    Needed {
        map: 0,
        layer: 0,
        row: 0,
        column: 0,
        value: None,
        weight: 0,
    }
}

fn empty() -> Listing
    ensures { result ≡ none_listed }
{
    Listing {
        count: 0,
        nodes: [filler(); 8],
    }
}

// A node as it is listed: maps count from 1.
fn listed(n: Weighed, layer: u64, value: Option<Value>) -> Needed
    requires { n.map ≤ 1001 }
    ensures { result ≡ node_with n layer value }
{
    Needed {
        map: n.map + 1,
        layer: layer,
        row: n.row,
        column: n.column,
        value: value,
        weight: n.weight,
    }
}

// One more behind the others.
fn put(l: &mut Listing, n: Needed)
    requires { l.old.count < 8 }
    ensures { l.new ≡ parts.put l.old n }
{
    let at = l.count as usize;
    l.nodes[at] = n;
    l.count += 1;
}

// A node more, where it is needed.
fn add(l: &mut Listing, n: Weighed, s: Shape, values: &[i32], exponents: &[i32], marks: &[u8])
    requires { (l.old.count < 8) × ((n.map ≤ 1001) × Reaches values.now exponents.now marks.now s n) }
    ensures { l.new ≡ parts.add s values.now exponents.now marks.now l.old n }
{
    if n.weight == 0 {
        return;
    }
    put(
        l,
        listed(
            n,
            s.layer,
            ask_nodes::node_at(n, s, values, exponents, marks),
        ),
    );
}

// All that are needed.
pub fn list(
    shares: Shares,
    first: Cell,
    second: Cell,
    s: Shape,
    values: &[i32],
    exponents: &[i32],
    marks: &[u8],
) -> Listing
    requires { Summable values.now exponents.now marks.now s shares first second }
    ensures { result ≡ collect s values.now exponents.now marks.now none_listed (spread shares first second) }
{
    let mut l = empty();
    for k in 0..8 {
        add(
            &mut l,
            ask_sums::nth_node(shares, first, second, k),
            s,
            values,
            exponents,
            marks,
        );
    }
    l
}

// An answer with the nodes that it came from.
pub fn beside(answer: Result<Value, Unanswered>, denominator: u64, l: Listing) -> Explanation
    ensures { result ≡ with_nodes answer denominator l }
{
    let nodes = l.nodes;
    Explanation {
        answer: answer,
        count: l.count,
        denominator: denominator,
        nodes: nodes,
    }
}
