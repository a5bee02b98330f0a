// What the records of the maps must agree with: the grid of the header, and its times.
#![tactic(auto)]

pub mod grid;
pub mod times;
