// The weighted mean of the nodes, rounded once, in the unit of its kind.
ghost use Rattle.std.specs.Prelude.{◌≡◌, ◌<◌};
ghost use Rattle.ask_round.specs.Rounded.{rounded};
ghost use Rattle.ask_sums.specs.Sums.{Fits, Ready};
ghost use Rattle.ask.specs.Ask.{told};
ghost use Rattle.ask.specs.Looked.{Meanable, told_mean};
ghost use Rattle.ask.specs.Summed.{told_sum};

use super::{Value, Why};
use ask_cells::Cell;
use ask_nodes::{MilliKm, MilliTecu, Shape};
use ask_spans::Shares;
use ask_sums::{Sum, Total};

// The one rounding.
fn nearest(t: Total) -> i32
    requires { Fits t.sum t.weights 0 × (0 < t.weights) }
    ensures { result ≡ rounded t.sum t.weights }
{
    ask_round::round_half_away(t.sum, t.weights) as i32
}

// What a sum comes to, in its unit.
fn mean_of(sum: Option<Sum>) -> Result<Value, Why>
    requires { Ready sum }
    ensures { told result ≡ told_sum sum }
{
    match sum {
        Some(Sum::Tecu(t)) => Ok(Value::Tecu(MilliTecu(nearest(t)))),
        Some(Sum::Km(t)) => Ok(Value::Km(MilliKm(nearest(t)))),
        None => Err(Why::NoValue),
    }
}

// The mean of the nodes of a question.
pub fn value_of(
    shares: Shares,
    first: Cell,
    second: Cell,
    s: Shape,
    values: &[i32],
    exponents: &[i32],
    marks: &[u8],
) -> Result<Value, Why>
    requires { Meanable s values.now exponents.now marks.now shares first second }
    ensures { told result ≡ told_mean s values.now exponents.now marks.now shares first second }
{
    mean_of(ask_sums::sum_of(shares, first, second, s, values, exponents, marks))
}
