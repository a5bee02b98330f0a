// Where an answer came from: the question asked, and beside its answer the nodes that were needed.
#![tactic(auto)]

ghost use Rattle.std.specs.Prelude.{◌≡◌, ◌+◌, ◌≤◌};
ghost use Rattle.mapset.specs.Described.{full};
ghost use Rattle.mapset.specs.Areas.{six};
ghost use Rattle.ask.specs.Ask.{question};
ghost use Rattle.ask_why.specs.Explain.{Explains};
ghost use Rattle.ask_why.specs.Parts as parts;
ghost use Rattle.ask_why.specs.Parts.{Listable, of_answer, without, explained_by, has_nodes};

use ask::sun;
pub use ask::{MilliKm, MilliTecu, Value, Why};
use ask_cells::Cell;
use ask_nodes::Shape;
use ask_spans::Shares;
use mapset::{Header, Texts};

mod causes;
mod nodes;

// A needed node: its map counted from 1, its layer, row and column from 0, its value and its weight.
#[derive(Clone, Copy)]
pub struct Needed {
    pub map: u64,
    pub layer: u64,
    pub row: u64,
    pub column: u64,
    pub value: Option<Value>,
    pub weight: u64,
}

// What makes a node have no value.
#[derive(Clone, Copy)]
pub enum Cause {
    MapAbsent,
    Exponent,
    Number,
    Is9999,
}

// A needed node without a value.
#[derive(Clone, Copy)]
pub struct Lacking {
    pub map: u64,
    pub layer: u64,
    pub row: u64,
    pub column: u64,
    pub cause: Cause,
}

// Why a question has no value: 22 with its node, or another reason.
#[derive(Clone, Copy)]
pub enum Unanswered {
    Lacks(Lacking),
    Refused(Why),
}

// The answer, the number of nodes that were needed, the common denominator of their weights, and the nodes, behind them fillers.
#[derive(Clone, Copy)]
pub struct Explanation {
    pub answer: Result<Value, Unanswered>,
    pub count: u64,
    pub denominator: u64,
    pub nodes: [Needed; 8],
}

// An answer without nodes.
fn blank(answer: Result<Value, Unanswered>) -> Explanation
    ensures { result ≡ parts.blank answer }
{
    Explanation {
        answer: answer,
        count: 0,
        denominator: 0,
        nodes: [nodes::filler(); 8],
    }
}

fn answer_of(asked: Result<Value, Why>) -> Result<Value, Unanswered>
    ensures { result ≡ of_answer asked }
{
    match asked {
        Ok(value) => Ok(value),
        Err(why) => Err(Unanswered::Refused(why)),
    }
}

// Whether nodes were looked at.
fn looked(asked: Result<Value, Why>) -> bool
    ensures { result ≡ has_nodes asked }
{
    match asked {
        Ok(_) => true,
        Err(why) => why == Why::NoValue,
    }
}

// |DLAT| times DLON, and the gap between the two maps.
fn denominator_of(shares: Shares, c: Cell) -> u64
    requires { (shares.early + shares.late ≤ 21600) × ((c.tall ≤ 1500) × (c.wide ≤ 6000)) }
    ensures { result ≡ parts.denominator shares c }
{
    (shares.early + shares.late) * (c.tall * c.wide)
}

fn without(why: Why, first: Option<Lacking>) -> Explanation
    ensures { result ≡ parts.without why first }
{
    let reason = match first {
        Some(l) => Unanswered::Lacks(l),
        None => Unanswered::Refused(why),
    };
    blank(Err(reason))
}

// The nodes beside an answer, in the area of its kind.
fn explain_in(
    asked: Result<Value, Why>,
    shares: Shares,
    first: Cell,
    second: Cell,
    s: Shape,
    values: &[i32],
    exponents: &[i32],
    marks: &[u8],
) -> Explanation
    requires { Listable values.now exponents.now marks.now s shares first second }
    ensures { result ≡ explained_by asked shares first second s values.now exponents.now marks.now }
{
    if let Err(why) = asked {
        return without(
            why,
            causes::find(shares, first, second, s, values, exponents, marks),
        );
    }
    nodes::beside(
        answer_of(asked),
        denominator_of(shares, first),
        nodes::list(shares, first, second, s, values, exponents, marks),
    )
}

pub fn explain(
    header: Header,
    texts: Texts,
    descriptions: &[u8],
    tec: &[i32],
    rms: &[i32],
    height: &[i32],
    exponents: &[i32],
    epochs: &[u64],
    marks: &[u8],
    kind: u64,
    method: u64,
    layer: u64,
    lat: i32,
    lon: i32,
    second: u64,
) -> Explanation
    ensures { Explains (question header (full texts descriptions.now)
        (six tec.now rms.now height.now exponents.now epochs.now marks.now)
        kind method layer lat lon second) result }
{
    let asked = ask::ask(
        header,
        texts,
        descriptions,
        tec,
        rms,
        height,
        exponents,
        epochs,
        marks,
        kind,
        method,
        layer,
        lat,
        lon,
        second,
    );
    if !looked(asked) {
        return blank(answer_of(asked));
    }
    let s = ask::shape_of(header, kind, layer);
    let gap = ask_spans::mean_gap(header.times.first, header.times.last, header.times.maps);
    let epochs = &epochs[..header.times.maps as usize];
    let shares = ask_spans::shares_of(epochs, second, sun::maps_by(method), gap);
    let Some((first, other)) = sun::cells_at(header.grid, method, lat, lon, second, shares, epochs)
    else {
        return blank(Err(Unanswered::Refused(Why::OutOfPlace)));
    };
    let values = ask::values_of(s, tec, rms, height);
    explain_in(asked, shares, first, other, s, values, exponents, marks)
}
