// The header record and texts that a caller's numbers and bytes stand for.
#![tactic(auto)]

ghost use Rattle.std.specs.Prelude.{◌≡◌, ◌+◌, ◌≤◌, length};
ghost use Rattle.c_given.specs.Given.{bounded, axis_number, stands_of, nth, count_at, version_of, times_of, model_of, axis_at, grid_of, counted_at, system_at, systems_of, header_of, five_of};

use mapset::{Axis, Counted, Grid, Header, Model, System, Systems, Texts, Times, Version};

// Where the lines of the description stand in the texts: from here up to, not including, the end.
pub const LINES: usize = 124;

pub const END: usize = 1324;

// A number that is not held becomes the largest that is, which no rule accepts.
pub fn held(x: i64, high: u64) -> u64
    ensures { result ≡ bounded high x }
{
    if x < 0 {
        return high;
    }
    high.min(x as u64)
}

fn on_axis(x: i64) -> i32
    ensures { result ≡ axis_number x }
{
    if x < -2147483647 {
        return i32::MAX;
    }
    if 2147483647 < x {
        return i32::MAX;
    }
    x as i32
}

fn stands(x: i64) -> bool
    ensures { result ≡ stands_of x }
{
    x != 0
}

fn count_at(n: &[i64], i: usize) -> u32
    requires { i + 1 ≤ length n.now }
    ensures { result ≡ count_at n.now i }
{
    held(n[i], u32::MAX as u64) as u32
}

fn second_at(n: &[i64], i: usize) -> u64
    requires { i + 1 ≤ length n.now }
    ensures { result ≡ bounded 18446744073709551615 (nth n.now i) }
{
    held(n[i], u64::MAX)
}

fn kind_at(n: &[i64], i: usize) -> u8
    requires { i + 1 ≤ length n.now }
    ensures { result ≡ bounded 255 (nth n.now i) }
{
    held(n[i], u8::MAX as u64) as u8
}

fn version_in(n: &[i64]) -> Version
    requires { 45 ≤ length n.now }
    ensures { result ≡ version_of n.now }
{
    Version {
        tenths: count_at(n, 0),
        kind: kind_at(n, 1),
        code: count_at(n, 2),
    }
}

fn times_in(n: &[i64]) -> Times
    requires { 45 ≤ length n.now }
    ensures { result ≡ times_of n.now }
{
    Times {
        first: second_at(n, 3),
        last: second_at(n, 4),
        interval: count_at(n, 5),
        maps: count_at(n, 6),
    }
}

fn model_in(n: &[i64]) -> Model
    requires { 45 ≤ length n.now }
    ensures { result ≡ model_of n.now }
{
    Model {
        cutoff: count_at(n, 7),
        radius: count_at(n, 8),
        dimension: count_at(n, 9),
    }
}

fn axis_in(n: &[i64], i: usize) -> Axis
    requires { i + 3 ≤ length n.now }
    ensures { result ≡ axis_at n.now i }
{
    Axis {
        first: on_axis(n[i]),
        last: on_axis(n[i + 1]),
        step: on_axis(n[i + 2]),
    }
}

fn grid_in(n: &[i64]) -> Grid
    requires { 45 ≤ length n.now }
    ensures { result ≡ grid_of n.now }
{
    Grid {
        heights: axis_in(n, 10),
        latitudes: axis_in(n, 13),
        longitudes: axis_in(n, 16),
    }
}

fn counted_in(n: &[i64], i: usize) -> Counted
    requires { i + 2 ≤ length n.now }
    ensures { result ≡ counted_at n.now i }
{
    Counted {
        stands: stands(n[i]),
        count: count_at(n, i + 1),
    }
}

fn system_in(n: &[i64], i: usize) -> System
    requires { i + 3 ≤ length n.now }
    ensures { result ≡ system_at n.now i }
{
    System {
        stands: stands(n[i]),
        stations: count_at(n, i + 1),
        satellites: count_at(n, i + 2),
    }
}

fn systems_in(n: &[i64]) -> Systems
    requires { 45 ≤ length n.now }
    ensures { result ≡ systems_of n.now }
{
    Systems {
        g: system_in(n, 23),
        r: system_in(n, 26),
        e: system_in(n, 29),
        c: system_in(n, 32),
        j: system_in(n, 35),
        i: system_in(n, 38),
        s: system_in(n, 41),
    }
}

pub fn header_in(n: &[i64]) -> Header
    requires { 45 ≤ length n.now }
    ensures { result ≡ header_of n.now }
{
    Header {
        version: version_in(n),
        times: times_in(n),
        model: model_in(n),
        grid: grid_in(n),
        stations: counted_in(n, 19),
        satellites: counted_in(n, 21),
        systems: systems_in(n),
        descriptions: count_at(n, 44),
    }
}

// The texts but the description, which a caller lends where it stands.
pub fn texts_in(b: &[u8]) -> Texts
    requires { 1324 ≤ length b.now }
    ensures { result ≡ five_of b.now }
{
    Texts {
        program: fields::text(b, 0),
        agency: fields::text(b, 20),
        date: fields::text(b, 40),
        mapping: fields::text(b, 60),
        observables: fields::text(&b[64..], 0),
    }
}
