// The second time over a text that is accepted: its values, exponents, epochs and marks are stored.
#![tactic(auto)]

ghost use Rattle.std.specs.Prelude.{◌≡◌, ◌+◌, ◌*◌, ◌<◌, ◌≤◌, length, drop};
ghost use Rattle.std.proofs.lemmas.List.Edits.{sets};
ghost use Rattle.mapset.specs.Areas.{six};
ghost use Rattle.areas.specs.Scan.{at_first, brought, values_ahead};
ghost use Rattle.areas.specs.Stores.{scanned};
ghost use Rattle.read_events.specs.Brings.{tells, due};
ghost use Rattle.read_fill.specs.Rows.{rows_from, Valued};
ghost use Rattle.read_fill.specs.Filled.{Readable, Enough, Filled};
ghost use Rattle.read_fill.specs.Scan.{Turned, StoresInside, Storable, Resumes, Resumed};

use mapset::{Kind, Size};
use read_events::{Event, State};
use read_lines::NextRow;

// A block's values, from the line that starts at `at` on; where the line behind them starts.
fn put_block(text: &[u8], at: usize, from: usize, columns: usize, area: &mut [i32]) -> usize
    requires { (at ≤ length text.now) × ((from + columns ≤ length area.old) × Valued columns columns (rows_from text.now at)) }
    ensures { Resumes text.now at columns result × (area.new ≡ sets area.old from (values_ahead columns (rows_from text.now at))) }
{
    let e = from + columns;
    read_blocks::fill_block(text, at, 0, &mut area[from..e])
}

// ---- From one row to the next

// Where the next line starts, what was brought, and where the scan then stands.
#[derive(Clone, Copy)]
pub struct Step {
    pub at: usize,
    pub event: Event,
    pub state: State,
}

fn step_at(text: &[u8], at: usize, s: State) -> Step
    requires { (at < length text.now) × ((s.tecs < 9223372036854775808) × (s.done < 9223372036854775808)) }
    ensures { Turned text.now at s result }
{
    match read_lines::row_from(text, at, 0) {
        NextRow::Over(_) => Step {
            at: text.len(),
            event: Event::Nothing,
            state: s,
        },
        NextRow::Bad(_) => Step {
            at: text.len(),
            event: Event::Nothing,
            state: s,
        },
        NextRow::Row(start, end, next, _) => {
            let b = read_events::brought_by(s, &text[start..end]);
            Step {
                at: next,
                event: b.event,
                state: b.state,
            }
        }
    }
}

// What a row brought, with all six areas; where the next record starts. (The six stay apart: with one struct of six `&mut`, each function
// would have to say of each field that it still holds the same reference.)
fn store(
    event: Event,
    text: &[u8],
    at: usize,
    size: Size,
    tec: &mut [i32],
    rms: &mut [i32],
    height: &mut [i32],
    exponents: &mut [i32],
    epochs: &mut [u64],
    marks: &mut [u8],
) -> usize
    requires stores_inside { StoresInside size.maps size.blocks size.columns
        (six tec.old rms.old height.old exponents.old epochs.old marks.old)
        (tells event (values_ahead size.columns (rows_from text.now at))) }
    requires storable { Storable size.maps size.blocks size.columns text.now at (due size.columns event) exponents.old epochs.old marks.old }
    ensures marks_after { six tec.new rms.new height.new exponents.new epochs.new marks.new
        ≡ scanned size.maps size.blocks size.columns (tells event (values_ahead size.columns (rows_from text.now at)))
        (six tec.old rms.old height.old exponents.old epochs.old marks.old) }
    ensures resumed { Resumed text.now at size.columns event result }
{
    match event {
        Event::Nothing => at,
        Event::Epoch(i, e) => {
            read_stores::put_epoch(i, e, epochs);
            at
        }
        Event::Marked(kind, i) => {
            read_stores::put_mark(kind, i, marks);
            at
        }
        Event::Block(kind, i, b, e) => {
            read_stores::put_exponent(kind, i, b, e, size, exponents);
            let from = read_stores::block_place(i, b, size.blocks) * size.columns;
            match kind {
                Kind::Tec => put_block(text, at, from, size.columns, tec),
                Kind::Rms => put_block(text, at, from, size.columns, rms),
                Kind::Height => put_block(text, at, from, size.columns, height),
            }
        }
    }
}

// ---- The scan: the areas are large enough for every store

fn scan(
    text: &[u8],
    from: usize,
    exponent: i32,
    size: Size,
    tec: &mut [i32],
    rms: &mut [i32],
    height: &mut [i32],
    exponents: &mut [i32],
    epochs: &mut [u64],
    marks: &mut [u8],
)
    requires stores_inside { StoresInside size.maps size.blocks size.columns
        (six tec.old rms.old height.old exponents.old epochs.old marks.old)
        (brought size.columns (at_first exponent) 0 (rows_from text.now from)) }
    requires storable { Storable size.maps size.blocks size.columns text.now from 0 exponents.old epochs.old marks.old }
    ensures { six tec.new rms.new height.new exponents.new epochs.new marks.new
        ≡ scanned size.maps size.blocks size.columns (brought size.columns (at_first exponent) 0 (rows_from text.now from))
        (six tec.old rms.old height.old exponents.old epochs.old marks.old) }
{
    let mut s = State {
        kind: Kind::Tec,
        number: 0,
        done: 0,
        exponent,
        tecs: 0,
    };
    let mut at = from;
    while at < text.len() {
        let step = step_at(text, at, s);
        at = store(
            step.event, text, step.at, size, tec, rms, height, exponents, epochs, marks,
        );
        s = step.state;
    }
}

// ---- All of it

// The text from `at` on is what stands behind END OF HEADER of an accepted text, and each area is as long as its need.
pub fn fill_maps(
    text: &[u8],
    at: usize,
    exponent: i32,
    size: Size,
    r: usize,
    t: usize,
    tec: &mut [i32],
    rms: &mut [i32],
    height: &mut [i32],
    exponents: &mut [i32],
    epochs: &mut [u64],
    marks: &mut [u8],
)
    requires at_in_bounds { (at ≤ length text.now) × Readable size.maps size.blocks size.columns r t exponent (drop at text.now) }
    requires enough { Enough size.maps size.blocks size.columns r t (six tec.old rms.old height.old exponents.old epochs.old marks.old) }
    ensures { Filled size.maps size.blocks size.columns r t exponent (drop at text.now)
        (six tec.old rms.old height.old exponents.old epochs.old marks.old)
        (six tec.new rms.new height.new exponents.new epochs.new marks.new) }
{
    read_stores::prefill(size, r, t, rms, height, exponents, marks);
    scan(
        text, at, exponent, size, tec, rms, height, exponents, epochs, marks,
    );
}
