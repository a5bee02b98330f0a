// The header of a text once more, for its biases: row by row, which satellites and stations were given, and the first fault.
#![tactic(auto)]

ghost use Rattle.std.specs.Prelude.{◌≡◌, ◌+◌, ◌<◌, ◌≤◌, length, take};
ghost use Rattle.std.specs.Cmp.Lexicographic.{slice_cmp};
ghost use Rattle.std.specs.Ordering.{nat_cmp};
ghost use Rattle.kit.specs.Answer.{all_dec, ¬_dec};
ghost use Rattle.kit.specs.Range.{Within};
ghost use Rattle.kit.specs.Truth.{truth};
ghost use Rattle.layout.specs.Text.{pad};
ghost use Rattle.biases.specs.Read.{same_station?, station_of};
ghost use Rattle.bias_scan.specs.Walk.{first, walked};
ghost use Rattle.bias_scan.specs.Turns as turns;
ghost use Rattle.bias_scan.specs.Marks as marks;
ghost use Rattle.bias_scan.specs.Held as held;
ghost use Rattle.bias_scan.specs.Judged as judged;

use biases::{Place, Role, Satellite, Station};
use read_lines::NextRow;
use reading::{Fault, Why};
use std::cmp::Ordering;

// Where the next row comes: the place, where its line starts, and how many lines come before it.
#[derive(Clone, Copy)]
pub struct Cursor {
    pub place: Place,
    pub at: usize,
    pub lines: u64,
}

// Where a record stands from its start to its end, where the line after it starts, and how many lines come before that.
#[derive(Clone, Copy)]
pub struct Record {
    pub start: usize,
    pub end: usize,
    pub next: usize,
    pub lines: u64,
}

// What the next row is: END OF HEADER; a row that is skipped, with where the row after it comes; a satellite's or a station's.
#[derive(Clone, Copy)]
pub enum Turn {
    Last,
    Skip(Cursor),
    Satellite(Record),
    Station(Record),
}

// What the next row is to a station: one of the same system and name; another, and where the row after it comes; or there is none.
#[derive(Clone, Copy)]
pub enum Looked {
    Same,
    Other(Cursor),
    Nothing,
}

// A station that is none of those held: where its record starts, and its place among them.
#[derive(Clone, Copy)]
pub struct Slot {
    pub start: u32,
    pub index: usize,
}

// A row that the search for stations given twice passes: where the row after it comes, and its station, if it is a station's.
#[derive(Clone, Copy)]
pub struct Peeked {
    pub next: Cursor,
    pub slot: Option<Slot>,
}

// Where a search stands: where the next row comes, the rows passed, the rows at which it ends, and how many stations are held.
#[derive(Clone, Copy)]
pub struct Search {
    pub cursor: Cursor,
    pub rows: usize,
    pub limit: usize,
    pub count: usize,
}

// Where the scan stands: where the next row comes, the rows passed, how many were given of both, and which satellites: the numbers of
// G, then those of R.
#[derive(Clone, Copy)]
pub struct Scan {
    pub cursor: Cursor,
    pub rows: usize,
    pub satellites: usize,
    pub stations: usize,
    pub marks: [u8; 198],
}

// How many of both are given.
#[derive(Clone, Copy)]
pub struct Counts {
    pub satellites: usize,
    pub stations: usize,
}

// Where the first row comes.
pub const START: Cursor = Cursor {
    place: Place::Outside,
    at: 0,
    lines: 0,
};

// The next row.
pub fn next_row(text: &[u8], from: Cursor) -> Result<Turn, Why>
    requires { (from.at ≤ length text.now) × (from.lines ≤ from.at) }
    ensures { turns.Turns text.now from.at from.lines from.place result }
{
    match read_lines::row_from(text, from.at, from.lines) {
        NextRow::Over(n) => Err(Why {
            number: 10,
            line: read_lines::line_after(n),
            column: 0,
        }),
        NextRow::Bad(why) => Err(why),
        NextRow::Row(start, end, next, n) => {
            let lines = n + 1;
            let record = Record {
                start,
                end,
                next,
                lines,
            };
            match bias_line::role_of(from.place, &text[start..end]) {
                Role::Last => Ok(Turn::Last),
                Role::Skipped(place) => Ok(Turn::Skip(Cursor {
                    place,
                    at: next,
                    lines,
                })),
                Role::OfSatellite => Ok(Turn::Satellite(record)),
                Role::OfStation => Ok(Turn::Station(record)),
            }
        }
    }
}

// Where the row after a record comes.
pub fn behind(place: Place, r: Record) -> Cursor
    ensures { result ≡ turns.cursor place r.next r.lines }
{
    Cursor {
        place,
        at: r.next,
        lines: r.lines,
    }
}

// ---- Stations given before, looked up in the text

// Whether a station's record has this system and name.
fn is_same(line: &[u8], x: Station) -> bool
    requires { length line.now ≤ 80 }
    ensures { result ≡ truth (turns.heard? x (station_of (pad line.now))) }
{
    if !labels::has(line, 6, &x.name) {
        return false;
    }
    match bias_line::station(line) {
        Ok(y) => x.system == y.system,
        Err(_) => false,
    }
}

fn look(text: &[u8], from: Cursor, x: Station) -> Looked
    requires { (from.at ≤ length text.now) × (from.lines ≤ from.at) }
    ensures { turns.Looks text.now from.at from.lines from.place x result }
{
    match next_row(text, from) {
        Err(_) => Looked::Nothing,
        Ok(Turn::Last) => Looked::Nothing,
        Ok(Turn::Skip(next)) => Looked::Other(next),
        Ok(Turn::Satellite(r)) => Looked::Other(behind(from.place, r)),
        Ok(Turn::Station(r)) => {
            if is_same(&text[r.start..r.end], x) {
                return Looked::Same;
            }
            Looked::Other(behind(from.place, r))
        }
    }
}

// Whether none of the first rows gave a station of this system and name.
fn is_new(text: &[u8], rows: usize, x: Station) -> bool
    ensures { result ≡ truth (all_dec (λ y. ¬_dec (same_station? x y)) (walked rows (first text.now)).given.stations) }
{
    let mut next = START;
    for _row in 0..rows {
        match look(text, next, x) {
            Looked::Same => return false,
            Looked::Nothing => return true,
            Looked::Other(to) => next = to,
        }
    }
    true
}

// ---- Stations of which none was given before, held in order

fn seed_of(letter: u8) -> u8
    ensures { result ≡ held.seed letter }
{
    if letter == b'R' {
        return b'R';
    }
    b'G'
}

// The stations whose records start at two places, by system and name.
fn compare(text: &[u8], a: usize, b: usize) -> Ordering
    requires { (a + 26 ≤ length text.now) × (b + 26 ≤ length text.now) }
    ensures { result ≡ slice_cmp nat_cmp (held.id text.now a) (held.id text.now b) }
{
    match seed_of(text[a + 3]).cmp(&seed_of(text[b + 3])) {
        Ordering::Equal => text[a + 6..a + 26].cmp(&text[b + 6..b + 26]),
        order => order,
    }
}

// The place of a station among those held; none where it is one of them. A search by hand, since std's may call its closure with any
// number, and only records of stations may be compared.
fn place_of(text: &[u8], starts: &[u32], s: usize) -> Option<usize>
    requires { held.Table text.now starts.now × (s + 26 ≤ length text.now) }
    ensures { held.Places text.now starts.now s result }
{
    let mut low = 0;
    let mut high = starts.len();
    while low < high {
        let mid = low + (high - low) / 2;
        match compare(text, starts[mid] as usize, s) {
            Ordering::Less => low = mid + 1,
            Ordering::Greater => high = mid,
            Ordering::Equal => return None,
        }
    }
    Some(low)
}

// One more at a place; those behind it move on.
fn insert(starts: &mut [u32], p: usize, count: usize, o: u32)
    requires { (p ≤ count) × (count < length starts.old) }
    ensures { held.Inserted starts.old starts.new p count o }
{
    starts.copy_within(p..count, p + 1);
    starts[p] = o;
}

// The next row, where none of the stations held is its own.
fn pass(text: &[u8], starts: &[u32], from: Cursor) -> Option<Peeked>
    requires { (from.at ≤ length text.now) × (from.lines ≤ from.at) × held.Table text.now starts.now }
    ensures { held.Passed text.now from.at from.lines from.place starts.now result }
{
    match next_row(text, from) {
        Err(_) => None,
        Ok(Turn::Last) => None,
        Ok(Turn::Skip(next)) => Some(Peeked { next, slot: None }),
        Ok(Turn::Satellite(r)) => Some(Peeked {
            next: behind(from.place, r),
            slot: None,
        }),
        Ok(Turn::Station(r)) => {
            if r.end - r.start < 26 {
                return None;
            }
            if 4294967295 < r.start {
                return None;
            }
            let index = place_of(text, starts, r.start)?;
            Some(Peeked {
                next: behind(from.place, r),
                slot: Some(Slot {
                    start: r.start as u32,
                    index,
                }),
            })
        }
    }
}

// The rows from one on, each new, until as many stations as there is room for are held.
fn collect(text: &[u8], from: Search, starts: &mut [u32]) -> Search
    requires { held.StoodAt text.now from.rows from.cursor × held.Clear text.now from.rows from.limit × (from.rows ≤ from.limit) × (length starts.old ≡ 2048) }
    ensures { held.StoodAt text.now result.rows result.cursor × held.Good text.now result.rows
        × held.Fence text.now result.rows from.limit (take result.count starts.new) × (from.rows + result.count ≤ result.rows) × (result.rows ≤ from.limit) × (length starts.new ≡ 2048)
        × (result.count ≤ 2048) × (result.limit ≡ from.limit) × held.Table text.now (take result.count starts.new) }
{
    let mut s = Search { count: 0, ..from };
    while s.rows < s.limit {
        if 2048 <= s.count {
            return s;
        }
        let Some(p) = pass(text, &starts[..s.count], s.cursor) else {
            return s;
        };
        s.cursor = p.next;
        s.rows += 1;
        if let Some(slot) = p.slot {
            insert(starts, slot.index, s.count, slot.start);
            s.count += 1;
        }
    }
    s
}

// The rows behind those whose stations are held, up to the first that gives one of them again.
fn check(text: &[u8], from: Search, starts: &[u32]) -> usize
    requires { held.StoodAt text.now from.rows from.cursor × held.Good text.now from.rows
        × held.Fence text.now from.rows from.limit starts.now × (from.rows ≤ from.limit) × held.Table text.now starts.now }
    ensures { held.Clear text.now from.rows result × (from.rows ≤ result) × (result ≤ from.limit) }
{
    let mut next = from.cursor;
    for row in from.rows..from.limit {
        let Some(p) = pass(text, starts, next) else {
            return row;
        };
        next = p.next;
    }
    from.limit
}

// Some stations held against all rows behind them. Less than there is room for: every row up to here is new.
fn chunk(text: &[u8], from: Search) -> Search
    requires { held.StoodAt text.now from.rows from.cursor × held.Clear text.now from.rows from.limit × (from.rows ≤ from.limit) }
    ensures { held.Chunked text.now from result }
{
    let mut starts = [0; 2048];
    let c = collect(text, from, &mut starts);
    if c.count < 2048 {
        return c;
    }
    let limit = check(text, c, &starts[..c.count]);
    Search { limit, ..c }
}

// How many rows are known to give no station that a row before them gave: 2048 stations at a time are held, in order, against all rows
// behind them.
fn fresh(text: &[u8]) -> usize
    ensures { held.Good text.now result }
{
    let mut c = chunk(
        text,
        Search {
            cursor: START,
            rows: 0,
            limit: usize::MAX,
            count: 0,
        },
    );
    while 2048 <= c.count {
        c = chunk(text, c);
    }
    c.rows
}

// ---- The first fault

// A satellite's mark: the numbers of G, then those of R.
fn spot(s: Satellite) -> usize
    requires { Within 1 99 s.number }
    ensures { result ≡ marks.spot s }
{
    let number = s.number as usize;
    if s.system == b'G' {
        return number - 1;
    }
    number + 98
}

// ---- One row on

fn past_row(s: Scan, next: Cursor) -> Scan
    requires { s.rows < next.at }
    ensures { result ≡ judged.past_row s next }
{
    Scan {
        cursor: next,
        rows: s.rows + 1,
        ..s
    }
}

fn past_satellite(s: Scan, j: usize, next: Cursor) -> Scan
    requires { (s.rows < next.at) × (s.satellites < next.at) × (j < 198) }
    ensures { result ≡ judged.past_satellite s j next }
{
    let mut marks = s.marks;
    marks[j] = 1;
    Scan {
        cursor: next,
        rows: s.rows + 1,
        satellites: s.satellites + 1,
        marks,
        ..s
    }
}

fn past_station(s: Scan, next: Cursor) -> Scan
    requires { (s.rows < next.at) × (s.stations < next.at) }
    ensures { result ≡ judged.past_station s next }
{
    Scan {
        cursor: next,
        rows: s.rows + 1,
        stations: s.stations + 1,
        ..s
    }
}

// One that was given before.
const TWICE: Fault = Fault {
    number: 5,
    column: 61,
};

// A satellite's row.
fn of_satellite(text: &[u8], s: Scan, r: Record) -> Result<Scan, Why>
    requires { judged.Stands text.now s × turns.OnLine text.now s.cursor.at s.cursor.lines s.cursor.place r.start r.end r.next r.lines Role.OfSatellite }
    ensures { judged.Moves text.now s result }
{
    match bias_line::satellite(&text[r.start..r.end]) {
        Err(w) => Err(w.on(r.lines)),
        Ok(x) => {
            let j = spot(x);
            if s.marks[j] != 0 {
                return Err(TWICE.on(r.lines));
            }
            Ok(past_satellite(s, j, behind(s.cursor.place, r)))
        }
    }
}

// A station's row likewise; the first `good` rows are known to give no station of a row before them.
fn of_station(text: &[u8], good: usize, s: Scan, r: Record) -> Result<Scan, Why>
    requires { held.Good text.now good × judged.Stands text.now s × turns.OnLine text.now s.cursor.at s.cursor.lines s.cursor.place r.start r.end r.next r.lines Role.OfStation }
    ensures { judged.Moves text.now s result }
{
    match bias_line::station(&text[r.start..r.end]) {
        Err(w) => Err(w.on(r.lines)),
        Ok(x) => {
            if s.rows < good {
                return Ok(past_station(s, behind(s.cursor.place, r)));
            }
            if is_new(text, s.rows, x) {
                return Ok(past_station(s, behind(s.cursor.place, r)));
            }
            Err(TWICE.on(r.lines))
        }
    }
}

// The scan one row on; nothing at END OF HEADER.
fn step(text: &[u8], good: usize, s: Scan) -> Result<Option<Scan>, Why>
    requires { held.Good text.now good × judged.Stands text.now s }
    ensures { judged.Passes text.now s result }
{
    match next_row(text, s.cursor)? {
        Turn::Last => Ok(None),
        Turn::Skip(next) => Ok(Some(past_row(s, next))),
        Turn::Satellite(r) => Ok(Some(of_satellite(text, s, r)?)),
        Turn::Station(r) => Ok(Some(of_station(text, good, s, r)?)),
    }
}

// The header's biases judged: nothing that is lent is written.
pub fn judge(text: &[u8]) -> Result<Counts, Why>
    ensures { judged.Judges text.now result }
{
    let good = fresh(text);
    let mut s = Scan {
        cursor: START,
        rows: 0,
        satellites: 0,
        stations: 0,
        marks: [0; 198],
    };
    while let Some(t) = step(text, good, s)? {
        s = t;
    }
    Ok(Counts {
        satellites: s.satellites,
        stations: s.stations,
    })
}
