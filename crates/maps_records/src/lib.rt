// Records that stand in the header and in the maps, and those of the maps: their columns 1 to 60, cut once for every scan.
#![tactic(auto)]

ghost use Rattle.std.specs.Prelude.{◌≡◌, ◌≤◌, length};
ghost use Rattle.kit.specs.Answer.{bind, ok};
ghost use Rattle.calendar.specs.Calendar.{dated};
ghost use Rattle.layout.specs.Text.{pad};
ghost use Rattle.layout.specs.Labels as L;
ghost use Rattle.reading.specs.Fields as R;
ghost use Rattle.reading.specs.Maps.{date, on_date};
ghost use Rattle.reading.specs.Feed.{fault, answer_of};
ghost use Rattle.reading.specs.Fields.{blank_to, unless};
ghost use Rattle.maps_records.specs.Records.{told_one, told_opening, one_of, opening_numbers};

use reading::Fault;

// The five numbers that open a block.
#[derive(Clone, Copy)]
pub struct Opening {
    pub latitude: i32,
    pub first: i32,
    pub last: i32,
    pub step: i32,
    pub height: i32,
}

// Ill-formed, in this column.
fn ill_formed(column: usize) -> Fault
    ensures { result ≡ fault 6 column }
{
    Fault {
        number: 6,
        column: column as u64,
    }
}

// Columns a + 1 to e must be blank.
pub fn blank(line: &[u8], a: usize, e: usize) -> Result<(), Fault>
    ensures { answer_of result ≡ unless (blank_to line.now a e) (ok tt) }
{
    match fields::first_not_blank(line, a, e) {
        Some(column) => Err(ill_formed(column)),
        None => Ok(()),
    }
}

// z, where the columns after the first a and up to e are blank.
pub fn alone(z: Option<i32>, line: &[u8], a: usize, e: usize) -> Result<i32, Fault>
    ensures { told_one result ≡ one_of z (blank_to line.now a e) }
{
    let x = z.ok_or(ill_formed(1))?;
    blank(line, a, e)?;
    Ok(x)
}

// I6,54X: EXPONENT, each START and END, and counts of the header.
pub fn one_number(line: &[u8]) -> Result<i32, Fault>
    requires { length line.now ≤ 80 }
    ensures { told_one result ≡ R.fields L.exponent (pad line.now) }
{
    alone(fields::int_at(line, 0, 6), line, 6, 60)
}

fn second_of(
    year: i32,
    month: i32,
    day: i32,
    hour: i32,
    minute: i32,
    second: i32,
) -> Result<u64, Fault>
    ensures { answer_of result ≡ on_date (dated year month day hour minute second) ok }
{
    match calendar::take(year, month, day, hour, minute, second) {
        Ok(t) => Ok(t),
        Err(column) => Err(Fault { number: 7, column }),
    }
}

// 6I6,24X: EPOCH OF CURRENT MAP, and the epochs of the header.
pub fn epoch_in(line: &[u8]) -> Result<u64, Fault>
    requires { length line.now ≤ 80 }
    ensures { answer_of result ≡ bind (R.fields L.epoch (pad line.now)) (λ d. on_date (date d) ok) }
{
    match fields::six_numbers(line) {
        Err(column) => Err(ill_formed(column)),
        Ok((year, month, day, hour, minute, second)) => {
            blank(line, 36, 60)?;
            second_of(year, month, day, hour, minute, second)
        }
    }
}

fn numbers_in(line: &[u8]) -> Result<Opening, Fault>
    ensures { told_opening result ≡ opening_numbers line.now }
{
    let (latitude, first, last) = match fields::three_numbers(line, 2, 1) {
        Ok(three) => three,
        Err(column) => return Err(ill_formed(column)),
    };
    let step = fields::tenths_at(line, 20, 6).ok_or(ill_formed(21))?;
    let height = fields::tenths_at(line, 26, 6).ok_or(ill_formed(27))?;
    blank(line, 32, 60)?;
    Ok(Opening {
        latitude,
        first,
        last,
        step,
        height,
    })
}

// 2X,5F6.1,28X: LAT/LON1/LON2/DLON/H.
pub fn opening_in(line: &[u8]) -> Result<Opening, Fault>
    requires { length line.now ≤ 80 }
    ensures { told_opening result ≡ R.fields L.block (pad line.now) }
{
    blank(line, 0, 2)?;
    numbers_in(line)
}
