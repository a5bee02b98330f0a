// The header of a text, from its start to END OF HEADER.
ghost use Rattle.std.specs.Prelude.{◌≡◌, suc, ◌≤◌, length, drop, negsuc, []};
ghost use Rattle.layout.specs.Layout.{plain};
ghost use Rattle.reading.specs.Feed.{why, split, feed};
ghost use Rattle.read_lines.specs.Leads.{after_all};
ghost use Rattle.reading.specs.Head.{heading};
ghost use Rattle.reading.specs.Read.{nothing_yet, read};
ghost use Rattle.head_state.specs.Got.{texts_of};
ghost use Rattle.head.specs.Opened.{Keeps, Passes, ReadsHeader};
ghost use Rattle.mapset.specs.Lines.{no_lines};
ghost use Rattle.mapset.specs.Said.{blank_texts};

use super::{HeaderRead, Passed};
use head_state::State;
use mapset::{Texts, Version};
use read_lines::NextRow;
use reading::Why;

// The text ends after n lines, before its header does.
fn ended_after(n: u64) -> Why
    ensures { result ≡ why 10 (after_all n) 0 }
{
    Why {
        number: 10,
        line: read_lines::line_after(n),
        column: 0,
    }
}

// The next record of the header, past remarks; the DESCRIPTION lines so far stand in `lines`.
fn pass(
    s: &mut State,
    version: Version,
    text: &[u8],
    from: usize,
    passed: u64,
    lines: &mut [u8],
) -> Result<Passed, Why>
    requires { (from ≤ length text.now) × (passed ≤ from) × Keeps s.old lines.old }
    ensures { Passes text.now version s.old lines.old from passed result s.new lines.new }
{
    match super::remarks::next_record(s.aux, text, from, passed) {
        NextRow::Over(n) => Err(ended_after(n)),
        NextRow::Bad(why) => Err(why),
        NextRow::Row(start, end, next, n) => {
            let line = n + 1;
            let header = head_step::step(s, version, &text[start..end], lines).map_err(
                |fault| fault.on(line),
            )?;
            Ok(Passed {
                next,
                lines: line,
                header,
            })
        }
    }
}

fn texts_of(s: &State) -> Texts
    ensures { result ≡ texts_of s.now }
{
    Texts {
        program: s.program,
        agency: s.agency,
        date: s.date,
        mapping: s.mapping,
        observables: s.observables,
    }
}

// Apart, so that each place that answers blanks takes no stack for its own.
#[inline(never)]
pub fn blanks() -> Texts
    ensures { result ≡ blank_texts }
{
    Texts {
        program: [b' '; 20],
        agency: [b' '; 20],
        date: [b' '; 20],
        mapping: [b' '; 4],
        observables: [b' '; 60],
    }
}

// The header after its version record; `lines` is blank, and holds its DESCRIPTION lines where it is accepted.
fn header_from(
    text: &[u8],
    from: usize,
    passed: u64,
    version: Version,
    lines: &mut [u8],
) -> Result<HeaderRead, Why>
    requires { (from ≤ length text.now) × (passed ≤ from) × (lines.old ≡ no_lines) }
    ensures { ReadsHeader (heading version plain (negsuc 0) nothing_yet [] (feed (suc passed) (split (drop from text.now)))) text.now result lines.new }
{
    let mut s = head_state::nothing();
    let mut at = from;
    let mut n = passed;
    loop {
        let exponent = s.exponent;
        let record = pass(&mut s, version, text, at, n, lines)?;
        at = record.next;
        n = record.lines;
        if let Some(header) = record.header {
            return Ok(HeaderRead {
                header,
                texts: texts_of(&s),
                exponent,
                at,
                passed: n,
            });
        }
    }
}

// A text from its start to END OF HEADER; `lines` is blank, and holds the DESCRIPTION lines where it is accepted.
pub fn read_header(text: &[u8], lines: &mut [u8]) -> Result<HeaderRead, Why>
    requires { lines.old ≡ no_lines }
    ensures { ReadsHeader (read text.now) text.now result lines.new }
{
    match read_lines::row_from(text, 0, 0) {
        NextRow::Over(n) => Err(ended_after(n)),
        NextRow::Bad(why) => Err(why),
        NextRow::Row(start, end, next, n) => {
            let line = n + 1;
            let version = head_version::version_of(&text[start..end]).map_err(|f| f.on(line))?;
            header_from(text, next, line, version, lines)
        }
    }
}
