// A node or a block by an index, as the answer crosses to other languages: its number, and what it brings in an area of the call's own.
#![tactic(auto)]

ghost use Rattle.std.specs.Prelude.{◌≡◌, ◌≤◌, length};
ghost use Rattle.kit.specs.Lists.{front};
ghost use Rattle.index_node.specs.Told.{number};
ghost use Rattle.c_index.specs.Crossed.{number_in, value_in, bounds_in, Ordered};

use index_node::{Found, Why};

// 02's number of a refusal.
fn number_of(why: Why) -> u64
    ensures { result ≡ number why }
{
    match why {
        Why::Unknown => 23,
        Why::Unfit => 31,
        Why::Outside => 21,
        Why::Absent => 22,
        Why::Astray => 50,
    }
}

// A node crosses: its number, and the number as written with its exponent.
pub fn put_node(reply: Result<Found, Why>, value: &mut [i32]) -> u64
    requires { 2 ≤ length value.old }
    ensures { (result ≡ number_in reply) × (value.new ≡ front (value_in reply) value.old) }
{
    match reply {
        Ok(found) => {
            kit::put_two(value, 0, found.number, found.exponent);
            0
        }
        Err(why) => number_of(why),
    }
}

// A block crosses: its number, and where its lines start in the text and how many bytes they have.
pub fn put_block(reply: Result<Found, Why>, bounds: &mut [u64]) -> u64
    requires { (2 ≤ length bounds.old) × Ordered reply }
    ensures { (result ≡ number_in reply) × (bounds.new ≡ front (bounds_in reply) bounds.old) }
{
    match reply {
        Ok(found) => {
            let count = found.end - found.start;
            c_header::put_pair(bounds, found.start as u64, count as u64);
            0
        }
        Err(why) => number_of(why),
    }
}
