// What a record of the maps does, by its label.
#![tactic(auto)]

ghost use Rattle.std.specs.Prelude.{◌≡◌, ◌-◌, ◌≤◌, length, get_or, Result};
ghost use Rattle.mapset.specs.Grid.{Limits};
ghost use Rattle.layout.specs.Text.{pad};
ghost use Rattle.reading.specs.Fields as F;
ghost use Rattle.reading.specs.Maps as M;
ghost use Rattle.maps_bounds.specs.Steps.{force_of, moved, Always};
ghost use Rattle.maps_body.specs.ByLabel.{role, opened};

use maps_agree::{grid, times};
use maps_bounds::{MISPLACED, MISSING, Next, Past, disagrees, still};
use maps_records::Opening;
use mapset::{Header, Kind};
use reading::{Fault, Open, Place};

// What a label stands for among the maps.
#[derive(Clone, Copy)]
pub enum Role {
    Comment,
    Exponent,
    Start(Kind),
    End(Kind),
    Epoch,
    Block,
    File,
}

// ---- EPOCH OF CURRENT MAP

fn epoch_tec(header: Header, past: Past, epochs: &[u64], line: &[u8]) -> Result<Next, Fault>
    requires { (length line.now ≤ 80) × Limits header.times.maps header.grid }
    ensures { result ≡ moved epochs.now (M.epoch_tec header (force_of past epochs.now) (pad line.now)) }
{
    let t = maps_records::epoch_in(line)?;
    if !times::in_time(header, epochs, t) {
        return Err(disagrees(1));
    }
    let opened = Open {
        fresh: false,
        kind: Kind::Tec,
        number: epochs.len() as u64 + 1,
        left: mapset::axes::per_map(header.grid),
    };
    Ok(Next {
        to: Place::Inside(opened),
        past,
        due: 0,
        epoch: Some(t),
    })
}

// The epoch of TEC map i.
fn epoch_of(epochs: &[u64], i: u64) -> u64
    ensures { result ≡ get_or epochs.now (i - 1) 0 }
{
    match epochs.get(i.saturating_sub(1) as usize) {
        Some(epoch) => *epoch,
        None => 0,
    }
}

// Once before the first block, and the TEC map's.
fn epoch_other(this: Open, past: Past, epochs: &[u64], line: &[u8]) -> Result<Next, Fault>
    requires { length line.now ≤ 80 }
    ensures { result ≡ moved epochs.now (M.epoch_other this (force_of past epochs.now) (pad line.now)) }
{
    if !this.fresh {
        return Err(MISPLACED);
    }
    let t = maps_records::epoch_in(line)?;
    if t != epoch_of(epochs, this.number) {
        return Err(disagrees(1));
    }
    let opened = Open {
        fresh: false,
        ..this
    };
    Ok(still(Place::Inside(opened), past))
}

fn on_epoch(
    header: Header,
    place: Place,
    past: Past,
    epochs: &[u64],
    line: &[u8],
) -> Result<Next, Fault>
    requires { (length line.now ≤ 80) × Limits header.times.maps header.grid }
    ensures { result ≡ moved epochs.now (M.on_epoch header place (force_of past epochs.now) (pad line.now)) }
{
    match place {
        Place::Ended | Place::Between => Err(MISPLACED),
        Place::Early => epoch_tec(header, past, epochs, line),
        Place::Inside(this) => epoch_other(this, past, epochs, line),
    }
}

// ---- LAT/LON1/LON2/DLON/H

fn block_of(header: Header, this: Open, past: Past, opening: Opening) -> Result<Next, Fault>
    requires { Limits header.times.maps header.grid × (1 ≤ this.left) }
    ensures { Always result (λ h es. opened header this (force_of past es) (opening.latitude, (opening.first, (opening.last, (opening.step, (opening.height, tt)))))) }
{
    if !grid::row_agrees(header.grid, this.left, opening.latitude) {
        return Err(disagrees(3));
    }
    let axis = header.grid.longitudes;
    if let Some(column) = grid::differs(axis, opening.first, opening.last, opening.step) {
        return Err(disagrees(column));
    }
    if !grid::height_agrees(
        header.grid,
        header.model.dimension,
        this.left,
        opening.height,
    ) {
        return Err(disagrees(27));
    }
    let opened = Open {
        fresh: false,
        left: this.left - 1,
        ..this
    };
    Ok(Next {
        to: Place::Inside(opened),
        past,
        due: mapset::axes::nodes(axis) as usize,
        epoch: None,
    })
}

fn open_block(header: Header, this: Open, past: Past, line: &[u8]) -> Result<Next, Fault>
    requires { (length line.now ≤ 80) × Limits header.times.maps header.grid }
    ensures { Always result (λ h es. M.open_block header this (force_of past es) (pad line.now)) }
{
    if this.left == 0 {
        return Err(MISPLACED);
    }
    block_of(header, this, past, maps_records::opening_in(line)?)
}

fn on_block(header: Header, place: Place, past: Past, line: &[u8]) -> Result<Next, Fault>
    requires { (length line.now ≤ 80) × Limits header.times.maps header.grid }
    ensures { Always result (λ h es. M.on_block header place (force_of past es) (pad line.now)) }
{
    match place {
        Place::Ended | Place::Between | Place::Early => Err(MISPLACED),
        Place::Inside(this) => open_block(header, this, past, line),
    }
}

// ---- END OF FILE

fn end_file(header: Header, past: Past, epochs: &[u64], line: &[u8]) -> Result<Next, Fault>
    requires { length line.now ≤ 80 }
    ensures { result ≡ moved epochs.now (M.on_file header Place.Between (force_of past epochs.now) (pad line.now)) }
{
    if let Some(column) = fields::first_not_blank(line, 0, 60) {
        return Err(Fault {
            number: 6,
            column: column as u64,
        });
    }
    if epochs.len() as u64 != header.times.maps as u64 {
        return Err(MISSING);
    }
    Ok(still(Place::Ended, past))
}

fn on_file(
    header: Header,
    place: Place,
    past: Past,
    epochs: &[u64],
    line: &[u8],
) -> Result<Next, Fault>
    requires { length line.now ≤ 80 }
    ensures { result ≡ moved epochs.now (M.on_file header place (force_of past epochs.now) (pad line.now)) }
{
    match place {
        Place::Between => end_file(header, past, epochs, line),
        Place::Ended | Place::Early | Place::Inside(_) => Err(MISPLACED),
    }
}

// ---- By the label

// 32 is no label, as layout's `number_of` has it.
fn role_of(line: &[u8]) -> Result<Role, Fault>
    requires { length line.now ≤ 80 }
    ensures { result ≡ role (F.label (pad line.now)) }
{
    let label = labels::label_of(line);
    if 32 <= label {
        return Err(Fault {
            number: 4,
            column: 61,
        });
    }
    match label {
        labels::COMMENT => Ok(Role::Comment),
        labels::EXPONENT => Ok(Role::Exponent),
        labels::TEC_START => Ok(Role::Start(Kind::Tec)),
        labels::TEC_END => Ok(Role::End(Kind::Tec)),
        labels::RMS_START => Ok(Role::Start(Kind::Rms)),
        labels::RMS_END => Ok(Role::End(Kind::Rms)),
        labels::HEIGHT_START => Ok(Role::Start(Kind::Height)),
        labels::HEIGHT_END => Ok(Role::End(Kind::Height)),
        labels::EPOCH => Ok(Role::Epoch),
        labels::BLOCK => Ok(Role::Block),
        labels::FILE_END => Ok(Role::File),
        _ => Err(MISPLACED),
    }
}

pub fn step(
    header: Header,
    place: Place,
    past: Past,
    epochs: &[u64],
    line: &[u8],
) -> Result<Next, Fault>
    requires { (length line.now ≤ 80) × Limits header.times.maps header.grid }
    ensures { result ≡ moved epochs.now (M.step header place (force_of past epochs.now) (pad line.now)) }
{
    match role_of(line)? {
        Role::Comment => maps_bounds::on_comment(place, past),
        Role::Exponent => maps_bounds::on_exponent(place, past, line),
        Role::Start(kind) => maps_bounds::on_start(header, place, past, epochs, kind, line),
        Role::End(kind) => maps_bounds::on_end(place, past, kind, line),
        Role::Epoch => on_epoch(header, place, past, epochs, line),
        Role::Block => on_block(header, place, past, line),
        Role::File => on_file(header, place, past, epochs, line),
    }
}
