// A line of a header as the bias reading takes it: what it is, and what a satellite's or a station's record says.
#![tactic(auto)]

ghost use Rattle.std.specs.Prelude.{◌≡◌, [], ◌∷◌, ◌+◌, ◌≤◌, length};
ghost use Rattle.forms.specs.Columns.{columns};
ghost use Rattle.layout.specs.Text.{pad};
ghost use Rattle.biases.specs.Read as read;
ghost use Rattle.kit.specs.Answer.{ok};
ghost use Rattle.reading.specs.Feed.{answer_of};
ghost use Rattle.reading.specs.Fields.{number as field_number};
ghost use Rattle.bias_line.specs.Lines.{pair_after};

use biases::{Place, Role, Satellite, Station};
use head_said::content;
use reading::Fault;

// The title that opens a bias block, in columns 1 to 60, and the labels that are looked for.
const TITLE: [u8; 60] = *b"DIFFERENTIAL CODE BIASES                                    ";

const HEADER_END: [u8; 20] = *b"END OF HEADER       ";

const AUX_START: [u8; 20] = *b"START OF AUX DATA   ";

const AUX_END: [u8; 20] = *b"END OF AUX DATA     ";

const OF_SATELLITE: [u8; 20] = *b"PRN / BIAS / RMS    ";

const OF_STATION: [u8; 20] = *b"STATION / BIAS / RMS";

// ---- What a line is

fn outside(line: &[u8]) -> Role
    requires { length line.now ≤ 80 }
    ensures { result ≡ read.role Place.Outside (pad line.now) }
{
    let last = HEADER_END;
    if labels::has_label(line, &last) {
        return Role::Last;
    }
    let start = AUX_START;
    if !labels::has_label(line, &start) {
        return Role::Skipped(Place::Outside);
    }
    let title = TITLE;
    if labels::has(line, 0, &title) {
        return Role::Skipped(Place::Inside);
    }
    Role::Skipped(Place::Beside)
}

fn inside(line: &[u8]) -> Role
    requires { length line.now ≤ 80 }
    ensures { result ≡ read.role Place.Inside (pad line.now) }
{
    let end = AUX_END;
    if labels::has_label(line, &end) {
        return Role::Skipped(Place::Outside);
    }
    let satellite = OF_SATELLITE;
    if labels::has_label(line, &satellite) {
        return Role::OfSatellite;
    }
    let station = OF_STATION;
    if labels::has_label(line, &station) {
        return Role::OfStation;
    }
    Role::Skipped(Place::Inside)
}

fn beside(line: &[u8]) -> Role
    requires { length line.now ≤ 80 }
    ensures { result ≡ read.role Place.Beside (pad line.now) }
{
    let end = AUX_END;
    if labels::has_label(line, &end) {
        return Role::Skipped(Place::Outside);
    }
    Role::Skipped(Place::Beside)
}

pub fn role_of(place: Place, line: &[u8]) -> Role
    requires { length line.now ≤ 80 }
    ensures { result ≡ read.role place (pad line.now) }
{
    match place {
        Place::Outside => outside(line),
        Place::Inside => inside(line),
        Place::Beside => beside(line),
    }
}

// ---- What a record says

// The number in a field; 6 at the field's column where it is ill-formed.
fn number(field: Option<i32>, column: u64) -> Result<i32, Fault>
    ensures { answer_of result ≡ field_number field column ok }
{
    field.ok_or(Fault { number: 6, column })
}

// 2F10.3 after the first a columns, and blanks up to column 60.
fn pair_after(line: &[u8], a: usize) -> Result<(i32, i32), Fault>
    requires { a ≤ 40 }
    ensures { answer_of result ≡ pair_after line.now a }
{
    let x = number(fields::thousandths_at(line, a, 10), (a + 1) as u64)?;
    let y = number(fields::thousandths_at(line, a + 10, 10), (a + 11) as u64)?;
    maps_records::blank(line, a + 20, 60)?;
    Ok((x, y))
}

// The system of a letter; a blank means G.
fn system_of(letter: u8) -> Result<u8, Fault>
    ensures { answer_of result ≡ read.system_of (letter ∷ []) }
{
    match letter {
        b'G' | b' ' => Ok(b'G'),
        b'R' => Ok(b'R'),
        _ => Err(Fault {
            number: 7,
            column: 4,
        }),
    }
}

// A satellite's values: the letter, then the number.
fn satellite_meant(letter: u8, number: i32, bias: i32, rms: i32) -> Result<Satellite, Fault>
    ensures { answer_of result ≡ read.satellite_meant (letter ∷ [], (number, (bias, (rms, tt)))) }
{
    let system = system_of(letter)?;
    if !content::natural(number, 1, 99) {
        return Err(Fault {
            number: 7,
            column: 5,
        });
    }
    Ok(Satellite {
        system,
        number: content::unsigned(number),
        bias,
        rms,
    })
}

// 3X,A1,I2,2F10.3,34X
pub fn satellite(line: &[u8]) -> Result<Satellite, Fault>
    requires { length line.now ≤ 80 }
    ensures { answer_of result ≡ read.satellite_of (pad line.now) }
{
    maps_records::blank(line, 0, 3)?;
    let prn = number(fields::int_at(line, 4, 2), 5)?;
    let (bias, rms) = pair_after(line, 6)?;
    satellite_meant(fields::byte_at(line, 3), prn, bias, rms)
}

// A station's values.
fn station_meant(line: &[u8], bias: i32, rms: i32) -> Result<Station, Fault>
    ensures { answer_of result ≡ read.station_meant (columns line.now 3 1, (columns line.now 6 20, (bias, (rms, tt)))) }
{
    let system = system_of(fields::byte_at(line, 3))?;
    Ok(Station {
        system,
        name: fields::text(line, 6),
        bias,
        rms,
    })
}

// 3X,A1,2X,A20,2F10.3,14X
pub fn station(line: &[u8]) -> Result<Station, Fault>
    requires { length line.now ≤ 80 }
    ensures { answer_of result ≡ read.station_of (pad line.now) }
{
    maps_records::blank(line, 0, 3)?;
    maps_records::blank(line, 4, 6)?;
    let (bias, rms) = pair_after(line, 26)?;
    station_meant(line, bias, rms)
}
