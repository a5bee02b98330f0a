// The value at one node: its number under its exponent, in a map that is there.
#![tactic(auto)]

ghost use Rattle.std.specs.Prelude.{◌≡◌, ◌*◌, ◌≤◌, ◌<◌, pos};
ghost use Rattle.kit.specs.Truth.{truth};
ghost use Rattle.mapset.specs.Areas.{present?, first_of};
ghost use Rattle.ask_nodes.specs.Value.{kind_of, block, value};
ghost use Rattle.ask_nodes.specs.Nodes.{power_of, plain, Reached};
ghost use Rattle.ask_nodes.specs.Units.{in_node};

use mapset::Kind;

// Thousandths of a TECU.
#[derive(Clone, Copy)]
pub struct MilliTecu(pub i32);

// Thousandths of a kilometre.
#[derive(Clone, Copy)]
pub struct MilliKm(pub i32);

// A node of the layer that is asked for, and its weight.
#[derive(Clone, Copy)]
pub struct Weighed {
    pub weight: u64,
    pub map: u64,
    pub row: u64,
    pub column: u64,
}

// What is asked for, and how its areas are laid out.
#[derive(Clone, Copy)]
pub struct Shape {
    pub kind: u64,
    pub layer: u64,
    pub maps: u64,
    pub layers: u64,
    pub rows: u64,
    pub columns: u64,
}

// A node's value in the unit of its kind.
#[derive(Clone, Copy)]
pub enum Value {
    Tecu(MilliTecu),
    Km(MilliKm),
}

// 10 to the power k + 3, for k from -3 to 0.
fn power(k: i32) -> Option<i32>
    ensures { result ≡ power_of k }
{
    match k {
        -3 => Some(1),
        -2 => Some(10),
        -1 => Some(100),
        0 => Some(1000),
        _ => None,
    }
}

// A number under an exponent, in a map that is there; or that it is no value.
pub fn node_of(kind: u64, v: i32, k: i32) -> Option<Value>
    ensures { result ≡ in_node (kind_of kind) (plain v k) }
{
    let p = power(k)?;
    if v < -9999 || 99999 < v {
        return None;
    }
    if v == 9999 {
        return None;
    }
    if kind < 2 {
        Some(Value::Tecu(MilliTecu(p * v)))
    } else {
        Some(Value::Km(MilliKm(p * v)))
    }
}

// The kind of a number: 0 TEC, 1 RMS, 2 height.
pub fn kind_of(kind: u64) -> Kind
    ensures { result ≡ kind_of kind }
{
    match kind {
        0 => Kind::Tec,
        1 => Kind::Rms,
        _ => Kind::Height,
    }
}

// Whether a map's mark says that the kind's map is there.
pub fn is_present(kind: u64, mark: u8) -> bool
    ensures { result ≡ truth (present? (kind_of kind) mark) }
{
    mapset::present(kind_of(kind), mark)
}

// The number of a node's block among all of its kind.
pub fn block_of(n: Weighed, s: Shape) -> u64
    requires { (block s n < 2_000_000) × (1 ≤ s.rows) }
    ensures { result ≡ block s n }
{
    (n.map * s.layers + s.layer) * s.rows + n.row
}

// Where the exponents of the kind start.
pub fn first_exponent(s: Shape) -> u64
    requires { (s.layers * s.rows ≤ 2_000_000) × (s.maps * (s.layers * s.rows) ≤ 2_000_000) }
    ensures { result ≡ first_of (kind_of s.kind) (s.maps * (s.layers * s.rows)) }
{
    let blocks = (s.maps * (s.layers * s.rows)) as usize;
    mapset::blocks_before(kind_of(s.kind), blocks) as u64
}

// A node's value, or that it has none.
pub fn node_at(
    n: Weighed,
    s: Shape,
    values: &[i32],
    exponents: &[i32],
    marks: &[u8],
) -> Option<Value>
    requires { Reached values.now exponents.now marks.now s n }
    ensures { result ≡ in_node (kind_of s.kind) (value s values.now exponents.now marks.now n) }
{
    let map = n.map as usize;
    if !is_present(s.kind, marks[map]) {
        return None;
    }
    let block = block_of(n, s);
    let number = (block * s.columns + n.column) as usize;
    let exponent = (first_exponent(s) + block) as usize;
    node_of(s.kind, values[number], exponents[exponent])
}
