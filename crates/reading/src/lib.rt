// Where the reading of the maps stands: the code's states and those of the definitions are the same.
#![tactic(auto)]

ghost use Rattle.std.specs.Prelude.{◌≡◌};
ghost use Rattle.reading.specs.Feed.{why};

use mapset::Kind;

// A refusal of one line: 01's number, and the column.
#[derive(Clone, Copy)]
pub struct Fault {
    pub number: u64,
    pub column: u64,
}

// A refusal of a text: 01's number, the line and the column.
#[derive(Clone, Copy)]
pub struct Why {
    pub number: u64,
    pub line: u64,
    pub column: u64,
}

impl Fault {
    // The refusal of the text whose line this is.
    pub fn on(self, line: u64) -> Why
        ensures { result ≡ why self.number line self.column }
    {
        Why {
            number: self.number,
            line,
            column: self.column,
        }
    }
}

// An open map: whether its own epoch may still stand, its kind and number, and how many of its blocks are left to come.
#[derive(Clone, Copy)]
pub struct Open {
    pub fresh: bool,
    pub kind: Kind,
    pub number: u64,
    pub left: u64,
}

// After END OF FILE; with no map open; in a TEC map whose epoch is to come; in a map whose blocks are to come.
#[derive(Clone, Copy)]
pub enum Place {
    Ended,
    Between,
    Early,
    Inside(Open),
}
