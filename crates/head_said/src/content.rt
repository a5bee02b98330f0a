// The records of a header by themselves: what their columns 1 to 60 say.
ghost use Rattle.std.specs.Prelude.{◌≡◌, ◌≤◌, length, nat_abs};
ghost use Rattle.kit.specs.Truth.{truth};
ghost use Rattle.kit.specs.Range.{natural?};
ghost use Rattle.mapset.specs.Header.{count, tenths, epoch, axis, system};
ghost use Rattle.mapset.specs.Judged as J;
ghost use Rattle.layout.specs.Text.{pad};
ghost use Rattle.reading.specs.Feed.{answer_of};
ghost use Rattle.maps_records.specs.Records.{told_one};
ghost use Rattle.head_said.specs.Records.{told_axis, told_heard, tenths_in, version_in, system_in, axis_in, entry, counts_after, in_range, judged_as};
ghost use Rattle.head_said.specs.Tables.{numbers_of};

use super::{NOTHING, Value};
use mapset::Axis;
use mapset::axes::{Line, Misfit};
use reading::Fault;

// The numbers of a record: one in a range, one in tenths in a range, an epoch, an axis.
#[derive(Clone, Copy)]
pub enum Numbers {
    Count(u32, u32),
    Tenths(u32, u32),
    Epoch,
    Axis(Line),
}

// What a record of the header holds.
#[derive(Clone, Copy)]
pub enum Content {
    Numbers(Numbers),
    Program,
    Mapping,
    Observables,
}

// What the records of the header but the systems hold, by their places.
pub const CONTENTS: [Content; 15] = [
    Content::Program,
    Content::Numbers(Numbers::Epoch),
    Content::Numbers(Numbers::Epoch),
    Content::Numbers(Numbers::Count(0, 21600)),
    Content::Numbers(Numbers::Count(1, 300)),
    Content::Mapping,
    Content::Numbers(Numbers::Tenths(0, 900)),
    Content::Observables,
    Content::Numbers(Numbers::Count(0, 999999)),
    Content::Numbers(Numbers::Count(0, 999999)),
    Content::Numbers(Numbers::Tenths(10000, 999999)),
    Content::Numbers(Numbers::Count(2, 3)),
    Content::Numbers(Numbers::Axis(Line::Heights)),
    Content::Numbers(Numbers::Axis(Line::Latitudes)),
    Content::Numbers(Numbers::Axis(Line::Longitudes)),
];

// F8.1,52X
fn tenths_record(line: &[u8]) -> Result<i32, Fault>
    requires { length line.now ≤ 80 }
    ensures { told_one result ≡ tenths_in (pad line.now) }
{
    maps_records::alone(fields::tenths_at(line, 0, 8), line, 8, 60)
}

// The version record's columns 1 to 20: F8.1,12X
pub fn version_record(line: &[u8]) -> Result<i32, Fault>
    requires { length line.now ≤ 80 }
    ensures { told_one result ≡ version_in (pad line.now) }
{
    maps_records::alone(fields::tenths_at(line, 0, 8), line, 8, 20)
}

// 2X,3F6.1,40X
fn axis_record(line: &[u8]) -> Result<Axis, Fault>
    requires { length line.now ≤ 80 }
    ensures { told_axis result ≡ axis_in (pad line.now) }
{
    maps_records::blank(line, 0, 2)?;
    let (first, last, step) = match fields::three_numbers(line, 2, 1) {
        Ok(three) => three,
        Err(column) => {
            return Err(Fault {
                number: 6,
                column: column as u64,
            });
        }
    };
    maps_records::blank(line, 20, 60)?;
    Ok(Axis { first, last, step })
}

// The counts of a system, its stations and its satellites: I6,I6,42X after its letter.
fn counts_after(line: &[u8]) -> Result<(i32, i32), Fault>
    ensures { answer_of result ≡ counts_after line.now }
{
    let stations = fields::int_at(line, 6, 6).ok_or(Fault {
        number: 6,
        column: 7,
    })?;
    let satellites = fields::int_at(line, 12, 6).ok_or(Fault {
        number: 6,
        column: 13,
    })?;
    maps_records::blank(line, 18, 60)?;
    Ok((stations, satellites))
}

// 5X,A1,I6,I6,42X
pub fn system_record(line: &[u8]) -> Result<(i32, i32), Fault>
    requires { length line.now ≤ 80 }
    ensures { answer_of result ≡ system_in (pad line.now) }
{
    maps_records::blank(line, 0, 5)?;
    counts_after(line)
}

// Whether z is one of low to high.
pub fn natural(z: i32, low: u32, high: u32) -> bool
    ensures { result ≡ truth (natural? low high z) }
{
    if z < 0 {
        return false;
    }
    let n = z.unsigned_abs();
    if n < low {
        return false;
    }
    n <= high
}

// A natural as such.
pub fn unsigned(z: i32) -> u32
    ensures { result ≡ nat_abs z }
{
    z.unsigned_abs()
}

fn ranged(z: i32, low: u32, high: u32) -> Result<Value, Fault>
    ensures { told_heard (count low high) result ≡ in_range low high z }
{
    if !natural(z, low, high) {
        return Err(Fault {
            number: 7,
            column: 1,
        });
    }
    Ok(Value {
        number: unsigned(z),
        ..NOTHING
    })
}

fn hear_count(line: &[u8], low: u32, high: u32) -> Result<Value, Fault>
    requires { length line.now ≤ 80 }
    ensures { told_heard (count low high) result ≡ entry (count low high) (pad line.now) }
{
    let number = maps_records::one_number(line)?;
    ranged(number, low, high)
}

fn hear_tenths(line: &[u8], low: u32, high: u32) -> Result<Value, Fault>
    requires { length line.now ≤ 80 }
    ensures { told_heard (tenths low high) result ≡ entry (tenths low high) (pad line.now) }
{
    let number = tenths_record(line)?;
    ranged(number, low, high)
}

fn hear_epoch(line: &[u8]) -> Result<Value, Fault>
    requires { length line.now ≤ 80 }
    ensures { told_heard epoch result ≡ entry epoch (pad line.now) }
{
    let second = maps_records::epoch_in(line)?;
    Ok(Value { second, ..NOTHING })
}

fn judged(which: Line, a: Axis) -> Result<Value, Fault>
    ensures { told_heard (axis (J.line which)) result ≡ judged_as (J.judged (J.line which) a) a }
{
    let column = match mapset::axes::judge(which, a) {
        Ok(()) => {
            return Ok(Value { axis: a, ..NOTHING });
        }
        Err(Misfit::First) => 3,
        Err(Misfit::Last) => 9,
        Err(Misfit::Step) => 15,
        Err(Misfit::Together) => 0,
    };
    Err(Fault { number: 7, column })
}

fn hear_axis(line: &[u8], which: Line) -> Result<Value, Fault>
    requires { length line.now ≤ 80 }
    ensures { told_heard (axis (J.line which)) result ≡ entry (axis (J.line which)) (pad line.now) }
{
    let axis = axis_record(line)?;
    judged(which, axis)
}

// The counts of a system; apart for the stack, as `hear` is.
#[inline(never)]
pub fn hear_system(line: &[u8]) -> Result<Value, Fault>
    requires { length line.now ≤ 80 }
    ensures { told_heard system result ≡ entry system (pad line.now) }
{
    let (stations, satellites) = system_record(line)?;
    if !natural(stations, 0, 999999) {
        return Err(Fault {
            number: 7,
            column: 7,
        });
    }
    if !natural(satellites, 0, 999999) {
        return Err(Fault {
            number: 7,
            column: 13,
        });
    }
    Ok(Value {
        number: unsigned(stations),
        satellites: unsigned(satellites),
        ..NOTHING
    })
}

// What a record of such numbers says. What it takes of the stack is given back before the record is kept.
#[inline(never)]
pub fn hear(line: &[u8], which: Numbers) -> Result<Value, Fault>
    requires { length line.now ≤ 80 }
    ensures { told_heard (numbers_of which) result ≡ entry (numbers_of which) (pad line.now) }
{
    match which {
        Numbers::Count(low, high) => hear_count(line, low, high),
        Numbers::Tenths(low, high) => hear_tenths(line, low, high),
        Numbers::Epoch => hear_epoch(line),
        Numbers::Axis(axis) => hear_axis(line, axis),
    }
}
