// The one-line answers: why a text is refused, each with its LF.
#![tactic(auto)]

ghost use Rattle.std.specs.Prelude.{◌++◌, ◌+◌, ◌≤◌, length};
ghost use Rattle.forms.specs.Show.{digits};
ghost use Rattle.read_outcome.specs.Outcome.{told_reason};
ghost use Rattle.program_line.specs.Lines.{Adds, Begins, place_line, area_line, need_line, line_of};

use read_outcome::Reason;

// ---- Words and numbers

pub fn put(out: &mut [u8], at: usize, bytes: &[u8]) -> usize
    requires { at + length bytes.now ≤ length out.old }
    ensures { Adds out.old at bytes.now out.new result }
{
    write_row::put_text(out, at, bytes);
    at + bytes.len()
}

// In decimal digits, of which a number has 20 at most.
fn put_number(out: &mut [u8], at: usize, n: u64) -> usize
    requires { at + 20 ≤ length out.old }
    ensures { Adds out.old at (digits 1 n) out.new result × (result ≤ at + 20) }
{
    let mut text = [0u8; 20];
    let k = io::decimal(n, &mut text);
    put(out, at, &text[..k])
}

// A word and the number that it names.
fn put_pair(out: &mut [u8], at: usize, word: &[u8], n: u64) -> usize
    requires { at + length word.now + 20 ≤ length out.old }
    ensures { Adds out.old at (word.now ++ digits 1 n) out.new result × (result ≤ at + length word.now + 20) }
{
    let next = put(out, at, word);
    put_number(out, next, n)
}

// ---- Lines

fn put_place(out: &mut [u8], number: u64, line: u64, column: u64) -> usize
    requires { 128 ≤ length out.old }
    ensures { Begins out.new result (place_line number line column) }
{
    let a = put_pair(out, 0, b"refused ", number);
    let b = put_pair(out, a, b" line ", line);
    let c = put_pair(out, b, b" column ", column);
    put(out, c, b"\n")
}

fn put_area(out: &mut [u8], area: u64, need: u64) -> usize
    requires { 128 ≤ length out.old }
    ensures { Begins out.new result (area_line area need) }
{
    let a = put_pair(out, 0, b"refused 11 area ", area);
    let b = put_pair(out, a, b" needs ", need);
    put(out, b, b"\n")
}

pub fn put_need(out: &mut [u8], need: u64) -> usize
    requires { 128 ≤ length out.old }
    ensures { Begins out.new result (need_line need) }
{
    let a = put_pair(out, 0, b"refused 30 needs ", need);
    put(out, a, b"\n")
}

// Why a text is refused.
pub fn put_reason(out: &mut [u8], reason: Reason) -> usize
    requires { 128 ≤ length out.old }
    ensures { Begins out.new result (line_of (told_reason reason)) }
{
    let r = read_outcome::refusal_of(reason);
    if r.number == 11 {
        return put_area(out, r.first, r.second);
    }
    put_place(out, r.number, r.first, r.second)
}
