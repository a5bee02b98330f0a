// What was got of a header so far, and the header record of it.
#![tactic(auto)]

ghost use Rattle.std.specs.Prelude.{◌≡◌, false, ◌≤◌, ◌<◌, length, get_or, negsuc};
ghost use Rattle.std.proofs.Math.Option.{none};
ghost use Rattle.kit.specs.Answer.{ok};
ghost use Rattle.kit.specs.Truth.{truth};
ghost use Rattle.mapset.specs.Header.{epoch, program, mapping, observables, system, starred};
ghost use Rattle.layout.specs.Text.{pad};
ghost use Rattle.layout.specs.Labels.{content};
ghost use Rattle.mapset.specs.Said.{number_in, axis_in, counted_in, system_in};
ghost use Rattle.reading.specs.Head.{made, complete?};
ghost use Rattle.reading.specs.Read.{nothing_yet};
ghost use Rattle.head_said.specs.Records.{says, entry};
ghost use Rattle.head_said.specs.Tables.{OneNumber, AnAxis, OfNumbers};
ghost use Rattle.head_state.specs.Got.{any_version, slots_of, value_in, nil, so_far, with, told_kept, kept};

use head_said::{NOTHING, Value};
use mapset::{Axis, Counted, Grid, Header, Model, System, Systems, Times, Version};
use reading::Fault;

// What was got of a header so far: the numbers of its records, by their places in 01's list, where a record of texts stands with zeros, and
// these texts; whether an aux block is open; the exponent in force; the number of DESCRIPTION lines, whose bytes are lent beside it.
#[derive(Clone, Copy)]
pub struct State {
    pub aux: bool,
    pub exponent: i32,
    pub values: [Option<Value>; 22],
    pub program: [u8; 20],
    pub agency: [u8; 20],
    pub date: [u8; 20],
    pub mapping: [u8; 4],
    pub observables: [u8; 60],
    pub descriptions: u32,
}

// Which records may be missing.
const STARRED: [bool; 22] = [
    false, false, false, false, false, false, false, false, true, true, false, false, false, false,
    false, true, true, true, true, true, true, true,
];

// Nothing was got yet; the exponent starts at -1.
pub fn nothing() -> State
    ensures { (slots_of result ≡ nothing_yet) × (result.aux ≡ false) × (result.exponent ≡ negsuc 0) × (result.descriptions ≡ 0) }
{
    State {
        aux: false,
        exponent: -1,
        values: [None; 22],
        program: [b' '; 20],
        agency: [b' '; 20],
        date: [b' '; 20],
        mapping: [b' '; 4],
        observables: [b' '; 60],
        descriptions: 0,
    }
}

// What the record of numbers at place i says is kept.
pub fn keep(s: &mut State, i: usize, value: Value)
    requires { (i < 22) × OfNumbers (content i) }
    ensures { so_far s.new ≡ with s.old i (says (content i) value) }
{
    s.values[i] = Some(value);
}

// 3A20. Apart, as are the two others of texts, so that what they take of the stack is given back.
#[inline(never)]
pub fn keep_program(s: &mut State, line: &[u8])
    requires { length line.now ≤ 80 }
    ensures { ok (so_far s.new) ≡ kept s.old 0 (entry program (pad line.now)) }
{
    s.values[0] = Some(NOTHING);
    s.program = fields::text(line, 0);
    s.agency = fields::text(line, 20);
    s.date = fields::text(line, 40);
}

// 2X,A4,54X
#[inline(never)]
pub fn keep_mapping(s: &mut State, line: &[u8]) -> Result<(), Fault>
    requires { length line.now ≤ 80 }
    ensures { told_kept result s.new ≡ kept s.old 5 (entry mapping (pad line.now)) }
{
    maps_records::blank(line, 0, 2)?;
    maps_records::blank(line, 6, 60)?;
    s.values[5] = Some(NOTHING);
    s.mapping = fields::text(line, 2);
    Ok(())
}

// A60
#[inline(never)]
pub fn keep_observables(s: &mut State, line: &[u8])
    requires { length line.now ≤ 80 }
    ensures { ok (so_far s.new) ≡ kept s.old 7 (entry observables (pad line.now)) }
{
    s.values[7] = Some(NOTHING);
    s.observables = fields::text(line, 0);
}

// ---- the header record

// What was got for the record at place i: zeros where it was not.
fn value_in(s: &State, i: usize) -> Value
    requires { i < 22 }
    ensures { result ≡ value_in s.now i }
{
    s.values[i].unwrap_or(NOTHING)
}

fn number_in(s: &State, i: usize) -> u32
    requires { (i < 22) × OneNumber (content i) }
    ensures { result ≡ number_in (get_or (slots_of s.now) i none) }
{
    value_in(s, i).number
}

fn second_in(s: &State, i: usize) -> u64
    requires { (i < 22) × (content i ≡ epoch) }
    ensures { result ≡ number_in (get_or (slots_of s.now) i none) }
{
    value_in(s, i).second
}

fn axis_in(s: &State, i: usize) -> Axis
    requires { (i < 22) × AnAxis (content i) }
    ensures { result ≡ axis_in (get_or (slots_of s.now) i none) }
{
    value_in(s, i).axis
}

fn counted_in(s: &State, i: usize) -> Counted
    requires { (i < 22) × OneNumber (content i) }
    ensures { result ≡ counted_in (get_or (slots_of s.now) i none) }
{
    let v = value_in(s, i);
    Counted {
        stands: s.values[i].is_some(),
        count: v.number,
    }
}

fn system_in(s: &State, i: usize) -> System
    requires { (i < 22) × (content i ≡ system) }
    ensures { result ≡ system_in (get_or (slots_of s.now) i none) }
{
    let v = value_in(s, i);
    System {
        stands: s.values[i].is_some(),
        stations: v.number,
        satellites: v.satellites,
    }
}

fn times_of(s: &State) -> Times
    ensures { result ≡ (made any_version (slots_of s.now) 0).times }
{
    Times {
        first: second_in(s, 1),
        last: second_in(s, 2),
        interval: number_in(s, 3),
        maps: number_in(s, 4),
    }
}

fn model_of(s: &State) -> Model
    ensures { result ≡ (made any_version (slots_of s.now) 0).model }
{
    Model {
        cutoff: number_in(s, 6),
        radius: number_in(s, 10),
        dimension: number_in(s, 11),
    }
}

fn grid_of(s: &State) -> Grid
    ensures { result ≡ (made any_version (slots_of s.now) 0).grid }
{
    Grid {
        heights: axis_in(s, 12),
        latitudes: axis_in(s, 13),
        longitudes: axis_in(s, 14),
    }
}

fn systems_of(s: &State) -> Systems
    ensures { result ≡ (made any_version (slots_of s.now) 0).systems }
{
    Systems {
        g: system_in(s, 15),
        r: system_in(s, 16),
        e: system_in(s, 17),
        c: system_in(s, 18),
        j: system_in(s, 19),
        i: system_in(s, 20),
        s: system_in(s, 21),
    }
}

// The header record of what was got, under this version record.
pub fn header_of(s: &State, version: Version) -> Header
    ensures { result ≡ made version (slots_of s.now) s.now.descriptions }
{
    Header {
        version,
        times: times_of(s),
        model: model_of(s),
        grid: grid_of(s),
        stations: counted_in(s, 8),
        satellites: counted_in(s, 9),
        systems: systems_of(s),
        descriptions: s.descriptions,
    }
}

// No record is missing but starred ones. By an index: `all` over the two zipped was tried, and its proof didn't close.
#[inline(never)]
pub fn complete(s: &State) -> bool
    ensures { result ≡ truth (complete? starred (slots_of s.now)) }
{
    for i in 0..22 {
        if !(STARRED[i] | s.values[i].is_some()) {
            return false;
        }
    }
    true
}
