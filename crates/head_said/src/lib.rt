// The records of a header by themselves: what each says.
#![tactic(auto)]

use mapset::Axis;

pub mod content;

// What a record of numbers says: a number in a range (or a system's stations), a system's satellites, an epoch's second, an axis.
// What it does not say is 0.
#[derive(Clone, Copy)]
pub struct Value {
    pub number: u32,
    pub satellites: u32,
    pub second: u64,
    pub axis: Axis,
}

// Zeros: what a record of texts says in numbers.
pub const NOTHING: Value = Value {
    number: 0,
    satellites: 0,
    second: 0,
    axis: Axis {
        first: 0,
        last: 0,
        step: 0,
    },
};
