// The public functions: reading, writing, asking, explaining, delays, joining, the week, the index and a text's biases; and an epoch moved and the release, for other languages.
// Each answers on every input, and asks nothing of its caller.
#![tactic(auto)]

pub mod asking;
pub mod bias_reader;
pub mod delays;
pub mod explaining;
pub mod indexing;
pub mod joiner;
mod moving;
pub mod reader;
mod release;
pub mod weekly;
pub mod writing;
