// The values of a data block, line by line.
#![tactic(auto)]

ghost use Rattle.std.specs.Prelude.{◌≡◌, suc, ◌<◌, ◌≤◌, length, drop};
ghost use Rattle.reading.specs.Feed.{split, feed};
ghost use Rattle.reading.specs.Maps.{on_row};
ghost use Rattle.read_values.specs.Values.{Okay};
ghost use Rattle.read_values.specs.Quick.{last_columns};
ghost use Rattle.read_blocks.specs.Blocks.{values, Judged, Filled};
ghost use Rattle.read_blocks.specs.Steps.{Stepped, Turned};

use read_lines::Line;
use reading::Why;

// A block whose values are there: where the line behind it starts, and how many lines are passed.
#[derive(Clone, Copy)]
pub struct Block {
    pub next: usize,
    pub lines: u64,
}

// How many of the values that are left stand on the next row.
fn on_row(left: usize) -> usize
    ensures { result ≡ on_row left }
{
    left.min(16)
}

// Where a line of a block leads: to the next line, after so many lines, with so many values left.
#[derive(Clone, Copy)]
pub struct Step {
    pub next: usize,
    pub lines: u64,
    pub left: usize,
}

fn any_step_at(
    text: &[u8],
    ends: &[u8; 80],
    at: usize,
    lines: u64,
    left: usize,
) -> Result<Step, Why>
    requires { ((at ≤ length text.now) × (lines ≤ at)) × ((0 < left) × (ends.now ≡ last_columns)) }
    ensures { Stepped text.now at lines left result }
{
    let line = lines + 1;
    match read_lines::line_in(&text[at..]) {
        Line::Over => Err(Why {
            number: 10,
            line,
            column: 0,
        }),
        Line::Bad(fault) => Err(fault.on(line)),
        Line::Skip(next) => Ok(Step {
            next: at + next,
            lines: line,
            left,
        }),
        Line::Row(width, next) => {
            let m = on_row(left);
            read_values::row_at(text, ends, at, width, m).map_err(|fault| fault.on(line))?;
            Ok(Step {
                next: at + next,
                lines: line,
                left: left - m,
            })
        }
    }
}

// One line of a block. Nearly every one is a row of values and nothing else: that is looked for first, since it is found fast.
fn step_at(text: &[u8], ends: &[u8; 80], at: usize, lines: u64, left: usize) -> Result<Step, Why>
    requires { ((at ≤ length text.now) × (lines ≤ at)) × ((0 < left) × (ends.now ≡ last_columns)) }
    ensures { Stepped text.now at lines left result }
{
    let m = on_row(left);
    match read_values::usual_row(&text[at..], ends, m) {
        Some(next) => Ok(Step {
            next: at + next,
            lines: lines + 1,
            left: left - m,
        }),
        None => any_step_at(text, ends, at, lines, left),
    }
}

// The next `count` values, from the line that starts at `from`, where so many lines are passed.
pub fn judge_block(text: &[u8], from: usize, lines: u64, count: usize) -> Result<Block, Why>
    requires { (from ≤ length text.now) × (lines ≤ from) }
    ensures { Judged text.now from lines count result }
{
    let ends = read_values::ENDS;
    let mut at = from;
    let mut n = lines;
    let mut left = count;
    while 0 < left {
        let step = step_at(text, &ends, at, n, left)?;
        at = step.next;
        n = step.lines;
        left = step.left;
    }
    Ok(Block { next: at, lines: n })
}

// ---- The second time over: a block that is judged is stored

// A line that is stored: where the next line starts, and how many values are put. None where there is no such line.
#[derive(Clone, Copy)]
pub struct Put {
    pub next: usize,
    pub count: usize,
}

fn any_fill_step(text: &[u8], at: usize, lines: u64, out: &mut [i32]) -> Option<Put>
    requires { ((at ≤ length text.now) × (lines ≤ at)) × ((0 < length out.old) × Okay (values (feed (suc lines) (split (drop at text.now))) (length out.old))) }
    ensures { Turned text.now at lines (length out.old) result out.new }
{
    match read_lines::line_in(&text[at..]) {
        Line::Over => None,
        Line::Bad(_) => None,
        Line::Skip(next) => Some(Put {
            next: at + next,
            count: 0,
        }),
        Line::Row(width, next) => {
            let e = at + width;
            let m = on_row(out.len());
            read_values::fill_row(&text[at..e], &mut out[..m]);
            Some(Put {
                next: at + next,
                count: m,
            })
        }
    }
}

// One line, as `step_at` looks at it: a row without a minus is stored at once.
fn fill_step(text: &[u8], at: usize, lines: u64, out: &mut [i32]) -> Option<Put>
    requires { ((at ≤ length text.now) × (lines ≤ at)) × ((0 < length out.old) × Okay (values (feed (suc lines) (split (drop at text.now))) (length out.old))) }
    ensures { Turned text.now at lines (length out.old) result out.new }
{
    let m = on_row(out.len());
    let Some(next) = read_values::bare_row(&text[at..], m) else {
        return any_fill_step(text, at, lines, out);
    };
    read_values::fill_bare(&text[at..], &mut out[..m]);
    Some(Put {
        next: at + next,
        count: m,
    })
}

// The values of a block that is judged, as many as `out` holds; where the next line starts.
pub fn fill_block(text: &[u8], from: usize, lines: u64, out: &mut [i32]) -> usize
    requires { ((from ≤ length text.now) × (lines ≤ from)) × Okay (values (feed (suc lines) (split (drop from text.now))) (length out.old)) }
    ensures { Filled text.now from lines (length out.old) result out.new }
{
    let mut at = from;
    let mut n = lines;
    let mut done = 0;
    while done < out.len() {
        let Some(put) = fill_step(text, at, n, &mut out[done..]) else {
            return at;
        };
        at = put.next;
        n += 1;
        done += put.count;
    }
    at
}
