// The header of a text: its version record, its records in any order, END OF HEADER.
#![tactic(auto)]

use mapset::{Header, Texts};

pub mod opening;
mod remarks;

// A record of the header that is passed: where the next line starts, after how many lines; and the header record, where it was END
// OF HEADER.
#[derive(Clone, Copy)]
pub struct Passed {
    pub next: usize,
    pub lines: u64,
    pub header: Option<Header>,
}

// An accepted header: its record and its texts, the exponent in force, where the next line starts, and how many lines were passed.
#[derive(Clone, Copy)]
pub struct HeaderRead {
    pub header: Header,
    pub texts: Texts,
    pub exponent: i32,
    pub at: usize,
    pub passed: u64,
}
