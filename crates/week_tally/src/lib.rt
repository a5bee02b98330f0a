// The figures of nodes: how many have a value and how many none, the smallest and the largest value, and the sum.
#![tactic(auto)]

ghost use Rattle.std.specs.Prelude.{◌≡◌, map, ◌+◌, ◌≤◌, pos, length};
ghost use Rattle.std.proofs.Math.Option.{some};
ghost use Rattle.std.proofs.lemmas.List.Edits.{sets};
ghost use Rattle.ask_nodes.specs.Nodes.{plain, Small};
ghost use Rattle.ask_nodes.specs.Units.{bare};
ghost use Rattle.week_tally.specs.Figures as figures;
ghost use Rattle.week_tally.specs.Rows as rows;
ghost use Rattle.week_tally.specs.Seen as seen;

use ask_nodes::Value;

// The smallest and the largest value.
#[derive(Clone, Copy)]
pub struct Range {
    pub smallest: i32,
    pub largest: i32,
}

// Values in thousandths of the kind's unit.
#[derive(Clone, Copy)]
pub struct Tally {
    pub given: u64,
    pub lacking: u64,
    pub range: Option<Range>,
    pub sum: i64,
}

// From the smaller of two smallest to the larger of two largest.
fn hull(r: Option<Range>, s: Option<Range>) -> Option<Range>
    ensures { result ≡ figures.hull r s }
{
    match (r, s) {
        (None, _) => s,
        (_, None) => r,
        (Some(a), Some(b)) => Some(Range {
            smallest: a.smallest.min(b.smallest),
            largest: a.largest.max(b.largest),
        }),
    }
}

// The figures of two lists of nodes together.
pub fn join(t: Tally, u: Tally) -> Tally
    requires { figures.Ready t × figures.Ready u }
    ensures { result ≡ figures.joined t u }
{
    Tally {
        given: t.given + u.given,
        lacking: t.lacking + u.lacking,
        range: hull(t.range, u.range),
        sum: t.sum + u.sum,
    }
}

// The figures of nodes none of which has a value.
pub fn empty(nodes: u64) -> Tally
    ensures { result ≡ figures.empty nodes }
{
    Tally {
        given: 0,
        lacking: nodes,
        range: None,
        sum: 0,
    }
}

// ---- Numbers one after the other

// How many values came so far, their sum, the smallest and the largest, each in a number of its own: a Range would be taken apart and
// put together again at every node. Before the first value the smallest is the largest i32, and the largest the smallest.
#[derive(Clone, Copy)]
struct Seen {
    values: u64,
    sum: i64,
    smallest: i32,
    largest: i32,
}

// A node with a value more.
fn with_value(s: Seen, v: i32) -> Seen
    requires { seen.Room s × Small (some v) }
    ensures { seen.Sees s (some v) result }
{
    Seen {
        values: s.values + 1,
        sum: s.sum + v as i64,
        smallest: s.smallest.min(v),
        largest: s.largest.max(v),
    }
}

// A node more.
fn with_node(s: Seen, n: Option<Value>) -> Seen
    requires { seen.Room s × Small (bare n) }
    ensures { seen.Sees s (bare n) result }
{
    match n {
        None => s,
        Some(Value::Tecu(v)) => with_value(s, v.0),
        Some(Value::Km(v)) => with_value(s, v.0),
    }
}

// The figures of so many nodes.
fn tally_seen(s: Seen, nodes: u64) -> Tally
    requires { s.values ≤ nodes }
    ensures { seen.Tallies s nodes result }
{
    let range = if s.values == 0 {
        None
    } else {
        Some(Range {
            smallest: s.smallest,
            largest: s.largest,
        })
    };
    Tally {
        given: s.values,
        lacking: nodes - s.values,
        range,
        sum: s.sum,
    }
}

// The figures of numbers under one exponent, of a map that is there.
pub fn tally_of(kind: u64, values: &[i32], exponent: i32) -> Tally
    requires { length values.now ≤ 1_000_000_000 }
    ensures { result ≡ figures.figures (map (λ v. plain v exponent) values.now) }
{
    let mut s = Seen {
        values: 0,
        sum: 0,
        smallest: i32::MAX,
        largest: i32::MIN,
    };
    for &value in values {
        s = with_node(s, ask_nodes::node_of(kind, value, exponent));
    }
    tally_seen(s, values.len() as u64)
}

// ---- Figures as a row of five numbers

pub fn count(n: u64) -> i64
    requires { n ≤ 1_000_000_000 }
    ensures { result ≡ pos n }
{
    n as i64
}

pub fn put_row(out: &mut [i64], at: usize, t: Tally)
    requires { (at + 5 ≤ length out.old) × figures.Ready t }
    ensures { out.new ≡ sets out.old at (rows.row t) }
{
    let (smallest, largest) = match t.range {
        Some(r) => (r.smallest as i64, r.largest as i64),
        None => (0, 0),
    };
    out[at] = count(t.given);
    out[at + 1] = count(t.lacking);
    out[at + 2] = smallest;
    out[at + 3] = largest;
    out[at + 4] = t.sum;
}
