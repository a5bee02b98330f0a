// The second time over a text that is accepted: its blocks' positions and exponents, and its marks, are stored.
#![tactic(auto)]

ghost use Rattle.std.specs.Prelude.{◌≡◌, ◌+◌, ◌-◌, ◌*◌, ◌<◌, ◌≤◌, length, replicate, set};
ghost use Rattle.layout.specs.Text.{pad};
ghost use Rattle.mapset.specs.Areas.{first_of};
ghost use Rattle.areas.specs.Places.{before};
ghost use Rattle.index.specs.Index.{entries};
ghost use Rattle.index.specs.Made.{placed_from};
ghost use Rattle.read_events.specs.Brings.{due};
ghost use Rattle.index_fill.specs.Enter.{Passes, Walks, Begins, Kept, enters, nothing_at, Turned, Steady, entered_from, Entered, entered, cleared};

use mapset::{Kind, Size};
use read_events::{Event, State};
use read_lines::Line;

// ---- The header

// Behind a row of the header: whether it was END OF HEADER, whether an aux block is open, and the exponent in force.
#[derive(Clone, Copy)]
pub struct Past {
    pub ended: bool,
    pub aux: bool,
    pub exponent: i32,
}

// Where the next line starts, with the same.
#[derive(Clone, Copy)]
pub struct Walk {
    pub at: usize,
    pub ended: bool,
    pub aux: bool,
    pub exponent: i32,
}

// A row by its label, as a place in the table of labels. Inside an aux block only END OF AUX DATA counts.
fn past_row(line: &[u8], aux: bool, exponent: i32) -> Past
    requires { length line.now ≤ 80 }
    ensures { Passes aux exponent (pad line.now) result }
{
    let k = labels::label_of(line);
    if aux {
        return Past {
            ended: false,
            aux: k != labels::AUX_END,
            exponent,
        };
    }
    match k {
        labels::EXPONENT => Past {
            ended: false,
            aux: false,
            exponent: read_events::whole_in(line),
        },
        labels::AUX_START => Past {
            ended: false,
            aux: true,
            exponent,
        },
        labels::HEADER_END => Past {
            ended: true,
            aux: false,
            exponent,
        },
        _ => Past {
            ended: false,
            aux: false,
            exponent,
        },
    }
}

fn walk_at(text: &[u8], at: usize, aux: bool, exponent: i32) -> Walk
    requires { at < length text.now }
    ensures { Walks text.now at aux exponent result }
{
    match read_lines::line_in(&text[at..]) {
        Line::Over => Walk {
            at: text.len(),
            ended: false,
            aux,
            exponent,
        },
        Line::Bad(_) => Walk {
            at: text.len(),
            ended: false,
            aux,
            exponent,
        },
        Line::Skip(next) => Walk {
            at: at + next,
            ended: false,
            aux,
            exponent,
        },
        Line::Row(width, next) => {
            let e = at + width;
            let p = past_row(&text[at..e], aux, exponent);
            Walk {
                at: at + next,
                ended: p.ended,
                aux: p.aux,
                exponent: p.exponent,
            }
        }
    }
}

// Where the maps start, and the exponent in force there.
fn maps_start(text: &[u8]) -> Walk
    ensures { Begins text.now result }
{
    let mut w = Walk {
        at: 0,
        ended: false,
        aux: false,
        exponent: -1,
    };
    while w.at < text.len() {
        w = walk_at(text, w.at, w.aux, w.exponent);
        if w.ended {
            return w;
        }
    }
    w
}

// ---- From one line of the maps to the next

// Where the next line starts, how many values come first there, what was brought, and where the scan then stands.
#[derive(Clone, Copy)]
pub struct Step {
    pub at: usize,
    pub due: usize,
    pub event: Event,
    pub state: State,
}

fn due_of(event: Event, columns: usize) -> usize
    ensures { result ≡ due columns event }
{
    match event {
        Event::Block(_, _, _, _) => columns,
        _ => 0,
    }
}

// A line that brings nothing.
fn passed(next: usize, due: usize, s: State) -> Step
    ensures { result ≡ nothing_at next due s }
{
    Step {
        at: next,
        due,
        event: Event::Nothing,
        state: s,
    }
}

// A row of a block's values is passed: the text is accepted.
fn step_at(text: &[u8], at: usize, values: usize, s: State, columns: usize) -> Step
    requires { (at < length text.now) × ((s.tecs < 9223372036854775808) × (s.done < 9223372036854775808)) }
    ensures { Turned text.now at values s columns result }
{
    match read_lines::line_in(&text[at..]) {
        Line::Over => passed(text.len(), values, s),
        Line::Bad(_) => passed(text.len(), values, s),
        Line::Skip(next) => passed(at + next, values, s),
        Line::Row(width, next) => {
            if 0 < values {
                return passed(at + next, values.saturating_sub(16), s);
            }
            let e = at + width;
            let b = read_events::brought_by(s, &text[at..e]);
            let event = b.event;
            let state = b.state;
            Step {
                at: at + next,
                due: due_of(event, columns),
                event,
                state,
            }
        }
    }
}

// ---- The stores

fn put_position(kind: Kind, i: usize, b: usize, at: usize, size: Size, positions: &mut [u64])
    requires { (before size.blocks i b < size.maps * size.blocks) × (3 * (size.maps * size.blocks) ≤ length positions.old) }
    ensures { positions.new ≡ set positions.old (first_of kind (size.maps * size.blocks) + before size.blocks i b) at }
{
    let p = read_stores::entry_of(kind, i, b, size);
    positions[p] = at as u64;
}

// What the row that starts at a position brought.
fn enter(
    event: Event,
    at: usize,
    size: Size,
    positions: &mut [u64],
    exponents: &mut [i32],
    marks: &mut [u8],
)
    requires { Kept size.maps size.blocks event (entries positions.old exponents.old marks.old) }
    ensures { entries positions.new exponents.new marks.new
        ≡ enters size.maps size.blocks event at (entries positions.old exponents.old marks.old) }
{
    match event {
        Event::Nothing => {}
        Event::Epoch(_, _) => {}
        Event::Marked(kind, i) => {
            read_stores::put_mark(kind, i, marks);
        }
        Event::Block(kind, i, b, e) => {
            read_stores::put_exponent(kind, i, b, e, size, exponents);
            put_position(kind, i, b, at, size, positions);
        }
    }
}

// ---- The scan

fn scan(
    text: &[u8],
    from: usize,
    exponent: i32,
    size: Size,
    positions: &mut [u64],
    exponents: &mut [i32],
    marks: &mut [u8],
)
    requires { (from ≤ length text.now) × Steady size.maps size.blocks size.columns exponent (placed_from text.now from) (entries positions.old exponents.old marks.old) }
    ensures { entries positions.new exponents.new marks.new
        ≡ entered_from size.maps size.blocks size.columns exponent (placed_from text.now from)
        (entries positions.old exponents.old marks.old) }
{
    let mut s = State {
        kind: Kind::Tec,
        number: 0,
        done: 0,
        exponent,
        tecs: 0,
    };
    let mut at = from;
    let mut due: usize = 0;
    while at < text.len() {
        let step = step_at(text, at, due, s, size.columns);
        let event = step.event;
        enter(event, at, size, positions, exponents, marks);
        at = step.at;
        due = step.due;
        s = step.state;
    }
}

// ---- All of it

// An absent map's entries hold position 0 and exponent -1.
fn prefill(size: Size, positions: &mut [u64], exponents: &mut [i32], marks: &mut [u8])
    requires { (3 * (size.maps * size.blocks) ≤ length positions.old) × ((3 * (size.maps * size.blocks) ≤ length exponents.old) × (size.maps ≤ length marks.old)) }
    ensures { entries positions.new exponents.new marks.new
        ≡ cleared size.maps size.blocks (entries positions.old exponents.old marks.old) }
{
    let n = size.maps;
    let all = 3 * (n * size.blocks);
    positions[..all].fill(0);
    read_stores::clear_front(exponents, all, -1);
    read_stores::clear_marks(&mut marks[..n]);
}

// The entries of an accepted text, in front of areas that are long enough: one scan, from the text's start to its end.
pub fn enter_all(
    text: &[u8],
    size: Size,
    positions: &mut [u64],
    exponents: &mut [i32],
    marks: &mut [u8],
)
    requires { Entered size.maps size.blocks size.columns text.now (entries positions.old exponents.old marks.old) }
    ensures { entries positions.new exponents.new marks.new
        ≡ entered size.maps size.blocks size.columns text.now (entries positions.old exponents.old marks.old) }
{
    let w = maps_start(text);
    prefill(size, positions, exponents, marks);
    scan(text, w.at, w.exponent, size, positions, exponents, marks);
}
