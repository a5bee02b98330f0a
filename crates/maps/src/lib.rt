// The maps of a text, judged: the first time over, which stores nothing that is lent.
#![tactic(auto)]

ghost use Rattle.std.specs.Prelude.{◌≡◌, [], suc, ◌+◌, ◌<◌, ◌≤◌, ◌^◌, length, drop, Option, Result};
ghost use Rattle.mapset.specs.Grid.{Limits};
ghost use Rattle.reading.specs.Feed.{split, feed};
ghost use Rattle.reading.specs.Maps.{run};
ghost use Rattle.maps_bounds.specs.Steps.{force_of};
ghost use Rattle.maps.specs.Turns.{told, ended_with, After, Turned, Fits, Keeps};

use maps_bounds::{Next, Past};
use mapset::Header;
use read_blocks::Block;
use read_lines::NextRow;
use read_needs::Others;
use reading::{Place, Why};

// A record, with the values of the block that it opens: on, behind these; or the text's end, and after how many lines.
#[derive(Clone, Copy)]
pub enum Turn {
    On(Block, Next),
    Over(u64),
}

// The values that a record asks for, if any.
fn values_after(text: &[u8], at: usize, lines: u64, next: Next) -> Result<Turn, Why>
    requires { (at ≤ length text.now) × (lines ≤ at) }
    ensures { After text.now at lines next result }
{
    let block = read_blocks::judge_block(text, at, lines, next.due)?;
    Ok(Turn::On(block, next))
}

fn turn_at(
    header: Header,
    place: Place,
    past: Past,
    epochs: &[u64],
    text: &[u8],
    at: usize,
    lines: u64,
) -> Result<Turn, Why>
    requires { ((at ≤ length text.now) × (lines ≤ at)) × Limits header.times.maps header.grid }
    ensures { Turned header place past epochs.now text.now at lines result }
{
    match read_lines::row_from(text, at, lines) {
        NextRow::Over(n) => Ok(Turn::Over(n)),
        NextRow::Bad(why) => Err(why),
        NextRow::Row(start, end, next, n) => {
            let line = n + 1;
            let x = maps_body::step(header, place, past, epochs, &text[start..end]).map_err(
                |fault| fault.on(line),
            )?;
            values_after(text, next, line, x)
        }
    }
}

fn keep(table: &mut [u64], k: usize, epoch: Option<u64>) -> usize
    requires { Fits epoch k (length table.old) }
    ensures { Keeps table.old k epoch table.new result }
{
    match epoch {
        None => k,
        Some(e) => {
            table[k] = e;
            k + 1
        }
    }
}

// Where the text ends: 10, unless END OF FILE stood.
fn finish_at(place: Place, past: Past, lines: u64) -> Result<Others, Why>
    requires { lines < 2 ^ 63 }
    ensures { result ≡ ended_with place (force_of past []) (suc lines) }
{
    match place {
        Place::Ended => Ok(Others {
            rms: 0 < past.rms,
            height: 0 < past.height,
        }),
        Place::Between | Place::Early | Place::Inside(_) => Err(Why {
            number: 10,
            line: lines + 1,
            column: 0,
        }),
    }
}

// The table is for the epochs of the TEC maps, of which there are k so far: an array beside its length, since nothing is allocated.
fn judge_with(
    header: Header,
    exponent: i32,
    text: &[u8],
    start: usize,
    lines: u64,
    table: &mut [u64],
) -> Result<Others, Why>
    requires { ((start ≤ length text.now) × (lines ≤ start)) × ((header.times.maps ≤ length table.old) × Limits header.times.maps header.grid) }
    ensures { result ≡ told (run header Place.Between (record { exponent = exponent; epochs = []; rms = 0; height = 0 }) 0 (feed (suc lines) (split (drop start text.now)))) }
{
    let mut at = start;
    let mut n = lines;
    let mut k: usize = 0;
    let mut place = Place::Between;
    let mut past = Past {
        exponent,
        rms: 0,
        height: 0,
    };
    loop {
        match turn_at(header, place, past, &table[..k], text, at, n)? {
            Turn::Over(passed) => {
                return finish_at(place, past, passed);
            }
            Turn::On(block, next) => {
                k = keep(table, k, next.epoch);
                at = block.next;
                n = block.lines;
                place = next.to;
                past = next.past;
            }
        }
    }
}

// The maps of a text, from the line after END OF HEADER on, where so many lines are passed and this exponent is in force.
pub fn judge_maps(
    header: Header,
    exponent: i32,
    text: &[u8],
    start: usize,
    lines: u64,
) -> Result<Others, Why>
    requires { ((start ≤ length text.now) × (lines ≤ start)) × ((header.times.maps ≤ 300) × Limits header.times.maps header.grid) }
    ensures { result ≡ told (run header Place.Between (record { exponent = exponent; epochs = []; rms = 0; height = 0 }) 0 (feed (suc lines) (split (drop start text.now)))) }
{
    let mut table = [0u64; 300];
    judge_with(header, exponent, text, start, lines, &mut table)
}
