// What a row of the maps brings, the second time over a text that is accepted: nothing, an epoch, a mark, or a block.
#![tactic(auto)]

ghost use Rattle.std.specs.Prelude.{◌≡◌, [], ◌≤◌, ◌<◌, length, nat_abs};
ghost use Rattle.layout.specs.Text.{pad};
ghost use Rattle.layout.specs.Layout.{Other};
ghost use Rattle.areas.specs.Scan.{now as now_of, goes, on_start, on_epoch, exponent_in, epoch_in};
ghost use Rattle.read_events.specs.Brings.{told, Goes, Opened, Takes};
ghost use Rattle.read_events.specs.declared.Event.TheVariants.{Nothing};

use mapset::Kind;

// Kind and number of the last map that began, how many of its blocks are done, the exponent in force, and how many TEC maps have their epoch.
#[derive(Clone, Copy)]
pub struct State {
    pub kind: Kind,
    pub number: usize,
    pub done: usize,
    pub exponent: i32,
    pub tecs: usize,
}

// What a row brings: nothing to store, a TEC map's epoch, that an RMS or height map is there, or a block of a map under an exponent.
#[derive(Clone, Copy)]
pub enum Event {
    Nothing,
    Epoch(usize, u64),
    Marked(Kind, usize),
    Block(Kind, usize, usize, i32),
}

// What a row brings, and where it leads.
#[derive(Clone, Copy)]
pub struct Brought {
    pub event: Event,
    pub state: State,
}

// ---- What a row holds

// The number of EXPONENT and START.
pub fn whole_in(line: &[u8]) -> i32
    requires { length line.now ≤ 80 }
    ensures { result ≡ exponent_in (pad line.now) }
{
    maps_records::one_number(line).unwrap_or(0)
}

fn number_in(line: &[u8]) -> usize
    requires { length line.now ≤ 80 }
    ensures { result ≡ nat_abs (exponent_in (pad line.now)) }
{
    whole_in(line).unsigned_abs() as usize
}

// The second of EPOCH OF CURRENT MAP.
fn epoch_in(line: &[u8]) -> u64
    requires { length line.now ≤ 80 }
    ensures { result ≡ epoch_in (pad line.now) }
{
    maps_records::epoch_in(line).unwrap_or(0)
}

// ---- What a row brings, and where it leads

// A row that brings nothing leads nowhere else.
fn nothing(s: State) -> Brought
    ensures { (result.event ≡ Nothing) × (result.state ≡ s) }
{
    Brought {
        event: Event::Nothing,
        state: s,
    }
}

// A map begins: the exponent stays in force, across maps and kinds.
fn begun(s: State, kind: Kind, number: usize) -> State
    ensures { told result ≡ now_of kind number 0 s.exponent s.tecs }
{
    State {
        kind,
        number,
        done: 0,
        ..s
    }
}

fn start_tec(s: State) -> Brought
    requires { s.tecs < 9223372036854775808 }
    ensures { Goes (on_start (told s) Kind.Tec []) result }
{
    Brought {
        event: Event::Nothing,
        state: begun(s, Kind::Tec, s.tecs + 1),
    }
}

fn start_other(s: State, line: &[u8], kind: Kind) -> Brought
    requires { (length line.now ≤ 80) × Other kind }
    ensures { Goes (on_start (told s) kind (pad line.now)) result }
{
    let i = number_in(line);
    Brought {
        event: Event::Marked(kind, i),
        state: begun(s, kind, i),
    }
}

fn with_exponent(s: State, line: &[u8]) -> Brought
    requires { length line.now ≤ 80 }
    ensures { Goes (goes [] (now_of s.kind s.number s.done (exponent_in (pad line.now)) s.tecs)) result }
{
    let exponent = whole_in(line);
    Brought {
        event: Event::Nothing,
        state: State { exponent, ..s },
    }
}

// Only a TEC map's epoch is stored.
fn with_epoch(s: State, line: &[u8]) -> Brought
    requires { length line.now ≤ 80 }
    ensures { Goes (on_epoch (told s) s.kind (pad line.now)) result }
{
    match s.kind {
        Kind::Tec => Brought {
            event: Event::Epoch(s.number, epoch_in(line)),
            state: State {
                tecs: s.number,
                ..s
            },
        },
        Kind::Rms => nothing(s),
        Kind::Height => nothing(s),
    }
}

fn one_block(s: State) -> Brought
    requires { s.done < 9223372036854775808 }
    ensures { Opened s result }
{
    Brought {
        event: Event::Block(s.kind, s.number, s.done, s.exponent),
        state: State {
            done: s.done + 1,
            ..s
        },
    }
}

// A row by its label, as a place in the table of labels; every other label brings nothing.
pub fn brought_by(s: State, line: &[u8]) -> Brought
    requires { (length line.now ≤ 80) × ((s.tecs < 9223372036854775808) × (s.done < 9223372036854775808)) }
    ensures { Takes s (pad line.now) result.event result.state }
{
    match labels::label_of(line) {
        labels::EXPONENT => with_exponent(s, line),
        labels::TEC_START => start_tec(s),
        labels::RMS_START => start_other(s, line, Kind::Rms),
        labels::HEIGHT_START => start_other(s, line, Kind::Height),
        labels::EPOCH => with_epoch(s, line),
        labels::BLOCK => one_block(s),
        _ => nothing(s),
    }
}
