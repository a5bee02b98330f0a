// What the records between and around the maps do: COMMENT and EXPONENT, and START and END of a map.
// Header, place, what is in force and epochs are parameters by themselves and no struct: a function takes those that its record
// depends on, and by that alone promises (`Always`) that the others change nothing.
#![tactic(auto)]

ghost use Rattle.std.specs.Prelude.{◌≡◌, [], ◌≤◌, length, None, Result};
ghost use Rattle.mapset.specs.Grid.{Limits};
ghost use Rattle.layout.specs.Text.{pad};
ghost use Rattle.layout.specs.Layout as W;
ghost use Rattle.reading.specs.Maps as M;
ghost use Rattle.maps_bounds.specs.Steps.{force_of, past_of, moved, Always, ended};

use maps_agree::grid;
use mapset::{Header, Kind};
use reading::{Fault, Open, Place};

// What is in force besides the epochs: the exponent, and the numbers of the last RMS and height map, 0 before the first as in
// `Force` of layout's definitions.
#[derive(Clone, Copy)]
pub struct Past {
    pub exponent: i32,
    pub rms: u64,
    pub height: u64,
}

// Where a record leads: the next place, what is then in force, how many values come first, and the epoch that it gives.
#[derive(Clone, Copy)]
pub struct Next {
    pub to: Place,
    pub past: Past,
    pub due: usize,
    pub epoch: Option<u64>,
}

// The refusals of a record that stands where it may not, of what is not there, and of what does not agree with the header.
pub const MISPLACED: Fault = Fault {
    number: 5,
    column: 61,
};

pub const MISSING: Fault = Fault {
    number: 9,
    column: 0,
};

pub fn disagrees(column: u64) -> Fault
    ensures { result ≡ M.disagrees column }
{
    Fault { number: 8, column }
}

// On without values; the epochs stay.
pub fn still(to: Place, past: Past) -> Next
    ensures { result ≡ record { to = to; past = past; due = 0; epoch = None } }
{
    Next {
        to,
        past,
        due: 0,
        epoch: None,
    }
}

// ---- EXPONENT and COMMENT

fn has_ended(place: Place) -> bool
    ensures { result ≡ ended place }
{
    matches!(place, Place::Ended)
}

pub fn on_comment(place: Place, past: Past) -> Result<Next, Fault>
    ensures { Always result (λ h es. M.loose place (M.stays place (force_of past es))) }
{
    if has_ended(place) {
        return Err(MISPLACED);
    }
    Ok(still(place, past))
}

// The exponent stays in force, across blocks, maps and kinds.
pub fn on_exponent(place: Place, past: Past, line: &[u8]) -> Result<Next, Fault>
    requires { length line.now ≤ 80 }
    ensures { Always result (λ h es. M.on_exponent place (force_of past es) (pad line.now)) }
{
    if has_ended(place) {
        return Err(MISPLACED);
    }
    let exponent = maps_records::one_number(line)?;
    if exponent < -3 || 0 < exponent {
        return Err(Fault {
            number: 7,
            column: 1,
        });
    }
    Ok(still(place, Past { exponent, ..past }))
}

// ---- START

fn start_tec(header: Header, past: Past, epochs: &[u64], line: &[u8]) -> Result<Next, Fault>
    requires { length line.now ≤ 80 }
    ensures { result ≡ moved epochs.now (M.start_tec header (force_of past epochs.now) (pad line.now)) }
{
    let number = grid::natural(maps_records::one_number(line)?);
    let before = epochs.len() as u64;
    if number != before + 1 || header.times.maps as u64 <= before {
        return Err(disagrees(1));
    }
    Ok(still(Place::Early, past))
}

fn last_of(kind: Kind, past: Past, epochs: &[u64]) -> u64
    ensures { result ≡ W.last_of kind (force_of past epochs.now) }
{
    match kind {
        Kind::Tec => epochs.len() as u64,
        Kind::Rms => past.rms,
        Kind::Height => past.height,
    }
}

fn with_last(kind: Kind, i: u64, past: Past) -> Past
    ensures { result ≡ past_of (W.with_last kind i (force_of past [])) }
{
    match kind {
        Kind::Tec => past,
        Kind::Rms => Past { rms: i, ..past },
        Kind::Height => Past { height: i, ..past },
    }
}

// Of a TEC map that has ended, above the last of its kind.
fn start_other(
    kind: Kind,
    header: Header,
    past: Past,
    epochs: &[u64],
    line: &[u8],
) -> Result<Next, Fault>
    requires { (length line.now ≤ 80) × Limits header.times.maps header.grid }
    ensures { result ≡ moved epochs.now (M.start_other kind header (force_of past epochs.now) (pad line.now)) }
{
    let i = grid::natural(maps_records::one_number(line)?);
    if i <= last_of(kind, past, epochs) || (epochs.len() as u64) < i {
        return Err(disagrees(1));
    }
    let opened = Open {
        fresh: true,
        kind,
        number: i,
        left: mapset::axes::per_map(header.grid),
    };
    Ok(still(Place::Inside(opened), with_last(kind, i, past)))
}

fn start_map(
    kind: Kind,
    header: Header,
    past: Past,
    epochs: &[u64],
    line: &[u8],
) -> Result<Next, Fault>
    requires { (length line.now ≤ 80) × Limits header.times.maps header.grid }
    ensures { result ≡ moved epochs.now (M.start_map kind header (force_of past epochs.now) (pad line.now)) }
{
    match kind {
        Kind::Tec => start_tec(header, past, epochs, line),
        Kind::Rms | Kind::Height => start_other(kind, header, past, epochs, line),
    }
}

pub fn on_start(
    header: Header,
    place: Place,
    past: Past,
    epochs: &[u64],
    kind: Kind,
    line: &[u8],
) -> Result<Next, Fault>
    requires { (length line.now ≤ 80) × Limits header.times.maps header.grid }
    ensures { result ≡ moved epochs.now (M.on_start header place (force_of past epochs.now) kind (pad line.now)) }
{
    match place {
        Place::Between => start_map(kind, header, past, epochs, line),
        Place::Ended | Place::Early | Place::Inside(_) => Err(MISPLACED),
    }
}

// ---- END

// With no epoch and no block before it.
fn end_early(kind: Kind, past: Past, line: &[u8]) -> Result<Next, Fault>
    requires { length line.now ≤ 80 }
    ensures { Always result (λ h es. M.on_end h Place.Early (force_of past es) kind (pad line.now)) }
{
    if kind != Kind::Tec {
        return Err(MISPLACED);
    }
    maps_records::one_number(line)?;
    Err(MISSING)
}

// Its blocks are all there, and it carries its START's number.
fn end_map(this: Open, past: Past, kind: Kind, line: &[u8]) -> Result<Next, Fault>
    requires { length line.now ≤ 80 }
    ensures { Always result (λ h es. M.end_map this (force_of past es) kind (pad line.now)) }
{
    if kind != this.kind {
        return Err(MISPLACED);
    }
    let number = maps_records::one_number(line)?;
    if this.left != 0 {
        return Err(MISSING);
    }
    if !grid::counts(number, this.number) {
        return Err(disagrees(1));
    }
    Ok(still(Place::Between, past))
}

pub fn on_end(place: Place, past: Past, kind: Kind, line: &[u8]) -> Result<Next, Fault>
    requires { length line.now ≤ 80 }
    ensures { Always result (λ h es. M.on_end h place (force_of past es) kind (pad line.now)) }
{
    match place {
        Place::Ended | Place::Between => Err(MISPLACED),
        Place::Early => end_early(kind, past, line),
        Place::Inside(this) => end_map(this, past, kind, line),
    }
}
