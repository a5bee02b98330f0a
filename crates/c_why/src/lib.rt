// An explanation as it crosses to other languages: its number, and the nodes or the one without a value in areas of the call's own.
#![tactic(auto)]

ghost use Rattle.std.specs.Prelude.{◌≡◌, ◌+◌, ◌≤◌, ◌<◌, pos, length};
ghost use Rattle.std.proofs.lemmas.List.Edits.{sets};
ghost use Rattle.kit.specs.Lists.{front};
ghost use Rattle.ask_nodes.specs.Units.{bare};
ghost use Rattle.ask_nodes.specs.Value.{or_zero};
ghost use Rattle.ask_why.specs.Explain.{told};
ghost use Rattle.ask.specs.Ask.{told_number};
ghost use Rattle.c_why.specs.ExplainExported.{node_numbers, all_numbers, numbers, told_nodes, lacking_numbers, told_lacking, explain_short, SmallNode, SmallNodes, Small};
ghost use Rattle.c_why.specs.ExplainExported as exported;

use ask_why::{Cause, Explanation, Lacking, Needed, Unanswered, Value};

// Of the lengths of a call's own areas: 101, 102, or 103 for the nodes or the one without a value; or 0.
pub fn too_short(header: usize, texts: usize, nodes: usize, lacking: usize) -> u64
    ensures { result ≡ explain_short header texts nodes lacking }
{
    c_answers::too_short_two(header, texts, nodes, 51, lacking, 5)
}

// Numbers as they cross: each is an i64.
fn whole(n: u64) -> i64
    requires { n < 9223372036854775808 }
    ensures { result ≡ pos n }
{
    n as i64
}

fn wide(v: i32) -> i64
    ensures { result ≡ v }
{
    v as i64
}

fn thousandths(v: Option<Value>) -> i64
    ensures { result ≡ or_zero (bare v) }
{
    match v {
        Some(Value::Tecu(x)) => wide(x.0),
        Some(Value::Km(x)) => wide(x.0),
        None => 0,
    }
}

fn put_node(out: &mut [i64], at: usize, n: Needed)
    requires { (at + 6 ≤ length out.old) × SmallNode n }
    ensures { out.new ≡ sets out.old at (node_numbers n) }
{
    let value = n.value;
    out[at] = whole(n.map);
    out[at + 1] = whole(n.layer);
    out[at + 2] = whole(n.row);
    out[at + 3] = whole(n.column);
    out[at + 4] = thousandths(value);
    out[at + 5] = whole(n.weight);
}

// All eight, fillers too.
fn put_nodes(out: &mut [i64], e: Explanation)
    requires { (51 ≤ length out.old) × SmallNodes e.nodes }
    ensures { out.new ≡ sets out.old 3 (all_numbers e.nodes) }
{
    let nodes = e.nodes;
    for i in 0..8 {
        put_node(out, 3 + 6 * i, nodes[i]);
    }
}

fn put_numbers(out: &mut [i64], e: Explanation, value: i32)
    requires { (51 ≤ length out.old) × Small e }
    ensures { out.new ≡ front (numbers e value) out.old }
{
    out[0] = whole(e.count);
    out[1] = whole(e.denominator);
    out[2] = wide(value);
    put_nodes(out, e);
}

fn cause_number(cause: Cause) -> u64
    ensures { result ≡ exported.cause_number cause }
{
    match cause {
        Cause::MapAbsent => 1,
        Cause::Exponent => 2,
        Cause::Number => 3,
        Cause::Is9999 => 4,
    }
}

fn put_lacking(out: &mut [u64], l: Lacking)
    requires { 5 ≤ length out.old }
    ensures { out.new ≡ front (lacking_numbers l) out.old }
{
    let cause = l.cause;
    out[0] = l.map;
    out[1] = l.layer;
    out[2] = l.row;
    out[3] = l.column;
    out[4] = cause_number(cause);
}

// An explanation crosses: its number; the nodes, or the one without a value.
pub fn put_explained(e: Explanation, nodes: &mut [i64], lacking: &mut [u64]) -> u64
    requires { (51 ≤ length nodes.old) × ((5 ≤ length lacking.old) × Small e) }
    ensures { (result ≡ told_number (told e.answer))
        × ((nodes.new ≡ front (told_nodes e e.answer) nodes.old)
        × (lacking.new ≡ front (told_lacking e.answer) lacking.old)) }
{
    let answer = e.answer;
    match answer {
        Ok(Value::Tecu(v)) => {
            put_numbers(nodes, e, v.0);
            0
        }
        Ok(Value::Km(v)) => {
            put_numbers(nodes, e, v.0);
            0
        }
        Err(Unanswered::Lacks(l)) => {
            put_lacking(lacking, l);
            22
        }
        Err(Unanswered::Refused(why)) => ask::number_of(why),
    }
}
