// The lines of a text.
#![tactic(auto)]

ghost use Rattle.std.specs.Prelude.{◌≡◌, ◌<◌, ◌≤◌, ◌==◌, not, false, nat_le, if◌then◌else◌, length, IfSome};
ghost use Rattle.std.specs.List.{prefix_len};
ghost use Rattle.read_lines.specs.Lines.{passing, not_lf?, printable?, blank?, Spans, look_of, Stands};
ghost use Rattle.read_lines.specs.Quick.{Sixteen, Ahead, Ending, Near, NearLf};
ghost use Rattle.read_lines.specs.Leads.{Leads, after_all};

use reading::{Fault, Why};

// A line's bytes, without the CR before its LF, and where the next line starts.
#[derive(Clone, Copy)]
pub struct Span {
    pub width: usize,
    pub next: usize,
}

// A line by itself that is not refused: blank, or a row.
#[derive(Clone, Copy)]
pub enum Look {
    Blank,
    Full,
}

// The line that starts a text: none, refused, blank, or a row of so many bytes; and where the next line starts.
#[derive(Clone, Copy)]
pub enum Line {
    Over,
    Bad(Fault),
    Skip(usize),
    Row(usize, usize),
}

// The next row of a text: none, after so many lines; or a line that is refused; or where it starts and ends, where the next line
// starts, and how many lines came before.
#[derive(Clone, Copy)]
pub enum NextRow {
    Over(u64),
    Bad(Why),
    Row(usize, usize, usize, u64),
}

fn before_lf(text: &[u8]) -> usize
    ensures { result ≡ prefix_len (λ b. not (b == 10)) text.now }
{
    text.iter().take_while(|b| **b != b'\n').count()
}

fn printable_in(line: &[u8]) -> usize
    ensures { result ≡ prefix_len (λ b. if nat_le 32 b then nat_le b 126 else false) line.now }
{
    line.iter().take_while(|b| 32 <= **b && **b <= 126).count()
}

// A `for`: as a chain it took two instructions more for each blank before a row's first word.
pub fn blanks_in(line: &[u8]) -> usize
    ensures { result ≡ passing blank? line.now }
{
    for (i, b) in line.iter().enumerate() {
        if *b != b' ' {
            return i;
        }
    }
    line.len()
}

// How much of a text its first line is looked for in: 80 bytes, CR and LF.
fn near(text: &[u8]) -> usize
    ensures { Near text.now result }
{
    text.len().min(82)
}

// Where the first LF stands, or the text ends; 82 where neither is so near.
fn near_lf(text: &[u8]) -> usize
    ensures { NearLf text.now result }
{
    let m = near(text);
    before_lf(&text[..m])
}

// The line that ends at e: one CR directly before the LF is dropped; a last line may have no LF.
fn span_in(text: &[u8], e: usize) -> Span
    requires { (0 < length text.now) × (e ≡ passing not_lf? text.now) }
    ensures { Spans text.now result }
{
    if text.len() <= e {
        return Span { width: e, next: e };
    }
    if e == 0 {
        return Span { width: 0, next: 1 };
    }
    if text[e - 1] == b'\r' {
        return Span {
            width: e - 1,
            next: e + 1,
        };
    }
    Span {
        width: e,
        next: e + 1,
    }
}

fn look_at(line: &[u8]) -> Result<Look, Fault>
    ensures { result ≡ look_of line.now }
{
    if 80 < line.len() {
        return Err(Fault {
            number: 1,
            column: 81,
        });
    }
    let p = printable_in(line);
    if p < line.len() {
        return Err(Fault {
            number: 2,
            column: p as u64 + 1,
        });
    }
    let b = blanks_in(line);
    if b < line.len() {
        return Ok(Look::Full);
    }
    Ok(Look::Blank)
}

// Whether 16 bytes are printable. No branch per byte, so that vector code is made of it.
fn all_printable(b: &[u8]) -> bool
    requires { length b.now ≡ 16 }
    ensures { Sixteen result b.now }
{
    let mut ok = true;
    for x in b {
        ok = ok & (32 <= *x) & (*x <= 126);
    }
    ok
}

// How many printable bytes start a text, as far as 16 at a time show it.
fn sixteens_in(text: &[u8]) -> usize
    ensures { Ahead text.now result }
{
    let mut i = 0;
    while 16 <= text.len() - i {
        let e = i + 16;
        let ok = all_printable(&text[i..e]);
        if !ok {
            return i;
        }
        i = e;
    }
    i
}

fn run_in(text: &[u8]) -> usize
    ensures { result ≡ passing printable? text.now }
{
    let i = sixteens_in(text);
    i + printable_in(&text[i..])
}

// The line that starts this part of a text, whatever it is.
fn any_line_in(text: &[u8]) -> Line
    ensures { Stands text.now result }
{
    if text.len() == 0 {
        return Line::Over;
    }
    let e = near_lf(text);
    if 82 <= e {
        return Line::Bad(Fault {
            number: 1,
            column: 81,
        });
    }
    let s = span_in(text, e);
    let width = s.width;
    let next = s.next;
    match look_at(&text[..width]) {
        Err(fault) => Line::Bad(fault),
        Ok(Look::Blank) => Line::Skip(next),
        Ok(Look::Full) => Line::Row(width, next),
    }
}

// How many bytes end a line of w bytes that starts a text: 1 for LF, 2 for CR LF; none where neither stands there.
pub fn end_at(text: &[u8], w: usize) -> Option<usize>
    requires { w < length text.now }
    ensures { IfSome result (Ending text.now w) }
{
    if text[w] == b'\n' {
        return Some(1);
    }
    if text[w] != b'\r' {
        return None;
    }
    let e = w + 1;
    if text.len() <= e {
        return None;
    }
    if text[e] != b'\n' {
        return None;
    }
    Some(2)
}

// The line that starts this part of a text. Nearly every line is printable bytes and its end: that is looked for first, since it is found fast.
pub fn line_in(text: &[u8]) -> Line
    ensures { Stands text.now result }
{
    let m = near(text);
    let w = run_in(&text[..m]);
    if m <= w {
        return any_line_in(text);
    }
    if 80 < w {
        return any_line_in(text);
    }
    let Some(z) = end_at(text, w) else {
        return any_line_in(text);
    };
    let b = blanks_in(&text[..w]);
    if b < w {
        return Line::Row(w, w + z);
    }
    Line::Skip(w + z)
}

// The next row, from a line's start on, where so many lines are passed: blank lines are skipped.
pub fn row_from(text: &[u8], from: usize, passed: u64) -> NextRow
    requires { (from ≤ length text.now) × (passed ≤ from) }
    ensures { Leads text.now from passed result }
{
    let mut at = from;
    let mut n = passed;
    while at < text.len() {
        match line_in(&text[at..]) {
            Line::Over => {
                return NextRow::Over(n);
            }
            Line::Bad(fault) => {
                return NextRow::Bad(fault.on(n + 1));
            }
            Line::Row(width, next) => {
                return NextRow::Row(at, at + width, at + next, n);
            }
            Line::Skip(next) => {
                at += next;
                n += 1;
            }
        }
    }
    NextRow::Over(n)
}

// The number of the line after n lines; a line number is at most 18,446,744,073,709,551,615.
pub fn line_after(n: u64) -> u64
    ensures { result ≡ after_all n }
{
    n.saturating_add(1)
}
